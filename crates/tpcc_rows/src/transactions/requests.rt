//! What a terminal asks: the six requests of the five transactions.
//!
//! Every number is a plain `u32`: a request may name rows that do not exist or
//! be out of range, and is then refused (`refusals`).
ghost use Rattle.std.specs.Prelude.{◌≡◌, IfOk, true};
ghost use Rattle.tpcc_rows.specs.Moments.{has_moment_in_range};
ghost use Rattle.tpcc_rows.specs.Replay.{paid_by_request};
ghost use Rattle.std.specs.Cmp.Lexicographic.{pointwise, lists_equiv, lists_per};

use crate::memory::NoMemory;
use crate::recall;
use crate::values::few::Filler;
use crate::values::text::Text;
use std::marker::Model;
use tpcc_money::{Cents, Moment};

/// A customer by C_ID or by C_LAST (2.5.1.2, 2.6.1.2).
#[derive(Clone, Copy, PartialEq, Eq)]
pub enum Who {
    /// By C_ID.
    Number(u32),
    /// By C_LAST: of n customers of that name in the district, by C_FIRST and then C_ID, number n/2 rounded up
    /// (2.5.2.2, 2.6.2.2).
    Name(Text<16>),
}

/// A line of a new order (2.4.1.5).
#[derive(Clone, Copy, PartialEq, Eq)]
pub struct Line {
    /// OL_I_ID.
    pub item: u32,
    /// OL_SUPPLY_W_ID: the warehouse whose stock the line takes.
    pub supply: u32,
    /// OL_QUANTITY, 1 to 10.
    pub quantity: u32,
}

impl Filler for Line {
    ghost filler = { record { item = 0; supply = 0; quantity = 0 } };

    fn filler() -> Self {
        Line {
            item: 0,
            supply: 0,
            quantity: 0,
        }
    }
}

/// The lines of a new order, seen as their list.
#[derive(Drop)]
pub struct Lines {
    /// The lines in the order in which they were asked.
    items: Vec<Line>,
}

impl Model for Lines {
    ghost use Rattle.std.specs.Prelude.{List};
    ghost use Rattle.tpcc_rows.specs.declared.transactions.requests.Line.{Line};

    ghost Value = { List Line };

    ghost view = { λ l. l.items.items };
}

impl Lines {
    /// These lines, in their order.
    pub fn new(items: Vec<Line>) -> Lines
        ensures lines { result ≡ items.items }
    {
        Lines { items }
    }

    /// The lines, in their order.
    pub fn as_slice(&self) -> &[Line]
        ensures lines { result.now ≡ self.now }
    {
        self.items.as_slice()
    }

    /// A copy of the lines.
    pub fn duplicate(&self) -> Result<Lines, NoMemory>
        ensures equal { IfOk result (λ copy. copy ≡ self.now) }
    {
        let items = self.items.clone()?;
        Ok(Lines { items })
    }
}

impl PartialEq for Lines {
    ghost use Rattle.tpcc_rows.specs.contracts.transactions.requests.LinePartialEq.TheImpl.Laws.{laws-law};

    ghost eq = { pointwise ⟦<Line as PartialEq>⟧.eq };

    ghost laws = { lists_per laws-law };

    fn eq(&self, other: &Self) -> bool {
        self.as_slice() == other.as_slice()
    }
}

impl Eq for Lines {
    ghost use Rattle.tpcc_rows.specs.contracts.transactions.requests.LineEq.TheImpl.Laws.{laws-law};

    ghost laws = { lists_equiv laws-law };
}

/// A New-Order request (2.4.1): 5 to 15 lines.
#[derive(Drop, PartialEq, Eq)]
pub struct Order {
    /// W_ID: the home warehouse.
    pub warehouse: u32,
    /// D_ID.
    pub district: u32,
    /// C_ID: a customer of that district.
    pub customer: u32,
    /// O_ENTRY_D.
    pub moment: Moment,
    /// The lines, which take the numbers 1, 2 and so on.
    pub lines: Lines,
}

/// A Payment request (2.5.1): the warehouse and district that are paid, and the customer who pays.
#[derive(Clone, Copy, PartialEq, Eq)]
pub struct Payment {
    /// W_ID: the warehouse that is paid.
    pub warehouse: u32,
    /// D_ID: the district that is paid.
    pub district: u32,
    /// C_W_ID: it may be another than the one that is paid.
    pub customer_warehouse: u32,
    /// C_D_ID.
    pub customer_district: u32,
    /// The customer of that district who pays.
    pub who: Who,
    /// H_DATE.
    pub moment: Moment,
    /// H_AMOUNT, 1.00 to 5,000.00.
    pub amount: Cents,
}

/// An Order-Status request (2.6.1).
#[derive(Clone, Copy, PartialEq, Eq)]
pub struct StatusQuery {
    /// W_ID: the customer's warehouse.
    pub warehouse: u32,
    /// D_ID: the customer's district.
    pub district: u32,
    /// The customer of that district whose last order is asked for.
    pub who: Who,
}

/// A Stock-Level request (2.8.1): the threshold is 10 to 20.
#[derive(Clone, Copy, PartialEq, Eq)]
pub struct StockQuery {
    /// W_ID: the warehouse whose stock is looked at.
    pub warehouse: u32,
    /// D_ID: the district whose last 20 orders are looked at.
    pub district: u32,
    /// An item is low in stock where its S_QUANTITY is below it.
    pub threshold: u32,
}

/// A Delivery request (2.7.1), as it waits in the queue: the carrier is 1 to 10.
#[derive(Clone, Copy, PartialEq, Eq)]
pub struct Ticket {
    /// W_ID: the warehouse whose ten districts are delivered.
    pub warehouse: u32,
    /// O_CARRIER_ID of the orders that it delivers.
    pub carrier: u32,
    /// The moment at which the ticket was queued (2.7.2.2).
    pub queued: Moment,
}

/// A ticket in the queue with the district, 1 to 10, that its next run delivers.
#[derive(Clone, Copy, PartialEq, Eq)]
pub struct QueuedTicket {
    /// The Delivery request.
    pub ticket: Ticket,
    /// The district of the next run.
    pub next: u32,
}

/// One of the six requests.
#[derive(Drop, PartialEq, Eq)]
pub enum Request {
    /// Enter an order (2.4).
    NewOrder(Order),
    /// Pay into a warehouse and a district (2.5).
    Payment(Payment),
    /// Show a customer's last order (2.6).
    Status(StatusQuery),
    /// Count the items that are low in stock (2.8).
    Stock(StockQuery),
    /// Queue a ticket.
    Delivery(Ticket),
    /// Run the next district of the first ticket, at that moment.
    Deliver(Moment),
}

impl Order {
    /// A copy of the request. Refused only for want of memory.
    pub fn duplicate(&self) -> Result<Order, NoMemory>
        ensures equal { IfOk result (λ copy. copy ≡ self.now) }
    {
        let lines = self.lines.duplicate()?;
        Ok(Order {
            warehouse: self.warehouse,
            district: self.district,
            customer: self.customer,
            moment: self.moment,
            lines,
        })
    }
}

impl Request {
    /// A copy of the request. Refused only for want of memory, which a New-Order's lines alone take.
    pub fn duplicate(&self) -> Result<Request, NoMemory>
        ensures equal { IfOk result (λ copy. copy ≡ self.now) }
    {
        match self {
            Request::NewOrder(order) => Ok(Request::NewOrder(order.duplicate()?)),
            Request::Payment(payment) => Ok(Request::Payment(*payment)),
            Request::Status(query) => Ok(Request::Status(*query)),
            Request::Stock(query) => Ok(Request::Stock(*query)),
            Request::Delivery(ticket) => Ok(Request::Delivery(*ticket)),
            Request::Deliver(at) => Ok(Request::Deliver(*at)),
        }
    }

    /// What the request pays: H_AMOUNT of a Payment, 0.00 of any other.
    pub fn paid(&self) -> Cents
        ensures paid { result ≡ paid_by_request self.now }
    {
        match self {
            Request::Payment(payment) => payment.amount,
            _ => Cents::new(0),
        }
    }

    /// The request's moment is in its range, as each [`Moment`] is.
    pub fn moment_in_range(&self)
        ensures moment { has_moment_in_range self.now ≡ true }
    {
        recall!(match self {
            Request::NewOrder(order) => order.moment.seconds(),
            Request::Payment(payment) => payment.moment.seconds(),
            Request::Delivery(ticket) => ticket.queued.seconds(),
            Request::Deliver(at) => at.seconds(),
            Request::Status(_) | Request::Stock(_) => 0,
        });
    }
}
