//! What a card's draws gave: the numbers of a request, before its texts are made.
ghost use Rattle.std.specs.Prelude.{◌≡◌, ◌<◌, IfOk};
ghost use Rattle.tpcc_terminal.specs.Cards.{who_of, order_of, payment_of, request_of};
ghost use Rattle.tpcc_draws.specs.declared.names.TheConstants.{LAST_NAMES};

use crate::home::Home;
use std::alloc::Global;
use std::marker::Model;
use tpcc_draws::last_name;
use tpcc_money::{Cents, Moment};
use tpcc_rows::{
    Few, Line, Lines, NoMemory, Order, Payment, Request, StatusQuery, StockQuery, Ticket, Who,
};

/// The number of a last name, less than [`LAST_NAMES`](tpcc_draws::LAST_NAMES), seen as that number.
#[derive(Clone, Copy)]
pub struct NameNumber {
    /// Its three digits are the name's three syllables.
    number: u32,
}

impl Model for NameNumber {
    ghost use Rattle.std.specs.Prelude.{ℕ, ◌<◌};
    ghost use Rattle.tpcc_draws.specs.declared.names.TheConstants.{LAST_NAMES};

    ghost Value = { ℕ };

    ghost view = { λ n. n.number };

    ghost inverse = { λ n. record { number = n } };

    ghost invariant = { λ n. n.number < LAST_NAMES };
}

impl NameNumber {
    /// The name of this number.
    pub fn new(number: u32) -> NameNumber
        requires small { number < LAST_NAMES }
        ensures number { result ≡ number }
    {
        NameNumber { number }
    }

    fn get(self) -> u32
        ensures number { result ≡ self }
        ensures small { result < LAST_NAMES }
    {
        self.number
    }
}

/// A customer by last name or by C_ID (2.5.1.2, 2.6.1.2).
#[derive(Clone, Copy)]
pub enum DrawnCustomer {
    /// The middle one of those with the name of this number.
    Name(NameNumber),
    /// The one with this C_ID.
    Number(u32),
}

impl DrawnCustomer {
    fn who(self) -> Who
        ensures who { result ≡ who_of self }
    {
        match self {
            DrawnCustomer::Name(name) => Who::Name(last_name(name.get())),
            DrawnCustomer::Number(number) => Who::Number(number),
        }
    }
}

/// Of a New-Order (2.4.1).
#[derive(Clone, Copy)]
pub struct OrderDraft {
    /// D_ID of the order, 1 to 10.
    pub district: u32,
    /// C_ID of who orders.
    pub customer: u32,
    /// Its 5 to 15 lines, in the order in which they were drawn.
    pub lines: Few<Line, 15>,
}

/// Of a Payment (2.5.1): the district that is paid, the one of the customer who pays, and H_AMOUNT in cents.
#[derive(Clone, Copy)]
pub struct PaymentDraft {
    /// D_ID that is paid, in the terminal's own warehouse.
    pub district: u32,
    /// C_W_ID of who pays.
    pub customer_warehouse: u32,
    /// C_D_ID of who pays.
    pub customer_district: u32,
    /// Who pays, of that district.
    pub customer: DrawnCustomer,
    /// H_AMOUNT in cents.
    pub cents: u32,
}

/// Of an Order-Status (2.6.1).
#[derive(Clone, Copy)]
pub struct StatusDraft {
    /// D_ID of the customer, in the terminal's own warehouse.
    pub district: u32,
    /// Whose last order is asked for.
    pub customer: DrawnCustomer,
}

/// Of any card: a Delivery draws its carrier (2.7.1.2), a Stock-Level its threshold (2.8.1.2).
#[derive(Clone, Copy)]
pub enum Draft {
    /// An order.
    NewOrder(OrderDraft),
    /// A payment.
    Payment(PaymentDraft),
    /// A question for a customer's last order.
    OrderStatus(StatusDraft),
    /// O_CARRIER_ID, 1 to 10.
    Delivery(u32),
    /// The threshold of S_QUANTITY, 10 to 20.
    StockLevel(u32),
}

impl Draft {
    /// The request of a terminal at home there, at that moment. Refused only for want of memory, which
    /// the lines of a New-Order alone take.
    pub fn request(&self, alloc: Global, home: Home, moment: Moment) -> Result<Request, NoMemory>
        ensures request { IfOk result (λ request. request ≡ request_of home moment self.now) }
    {
        match self {
            Draft::NewOrder(order) => Ok(Request::NewOrder(order.request(alloc, home, moment)?)),
            Draft::Payment(payment) => Ok(Request::Payment(payment.request(home, moment))),
            Draft::OrderStatus(status) => Ok(Request::Status(StatusQuery {
                warehouse: home.warehouse,
                district: status.district,
                who: status.customer.who(),
            })),
            Draft::Delivery(carrier) => Ok(Request::Delivery(Ticket {
                warehouse: home.warehouse,
                carrier: *carrier,
                queued: moment,
            })),
            Draft::StockLevel(threshold) => Ok(Request::Stock(StockQuery {
                warehouse: home.warehouse,
                district: home.district,
                threshold: *threshold,
            })),
        }
    }
}

impl OrderDraft {
    fn request(&self, alloc: Global, home: Home, moment: Moment) -> Result<Order, NoMemory>
        ensures order { IfOk result (λ order. order ≡ order_of home moment self.now) }
    {
        let lines = Vec::from_slice(alloc, self.lines.as_slice())?;
        Ok(Order {
            warehouse: home.warehouse,
            district: self.district,
            customer: self.customer,
            moment,
            lines: Lines::new(lines),
        })
    }
}

impl PaymentDraft {
    fn request(&self, home: Home, moment: Moment) -> Payment
        ensures payment { result ≡ payment_of home moment self.now }
    {
        Payment {
            warehouse: home.warehouse,
            district: self.district,
            customer_warehouse: self.customer_warehouse,
            customer_district: self.customer_district,
            who: self.customer.who(),
            amount: Cents::new(i64::from(self.cents)),
            moment,
        }
    }
}
