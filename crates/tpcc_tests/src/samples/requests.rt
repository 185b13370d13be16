//! What is asked of the plain opening of one warehouse, ten customers of each district and a hundred items. Each customer
//! starts with the balance -10.00.
use std::alloc::AllocGlobal;
use std::process::Abort;
use tpcc_book::Answer;
use tpcc_money::{Cents, Moment};
use tpcc_population::{Opening, Scale};
use tpcc_rows::{
    Line, Lines, Order, Payment, Reply, Request, StatusQuery, StockQuery, Ticket, Who,
};

/// What a test says where memory is refused before the call that it is about.
pub const BEFORE: &str = "memory to begin with";

/// Lets a value go, in one place for all of its type.
pub fn let_go<X: Drop>(_value: X) {}

/// One warehouse, so many customers of each district and a hundred items.
pub fn scale(rt: &impl Abort, customers: u32) -> Scale {
    Scale::new(1, customers, 100).expect(rt, "a scale")
}

pub fn opening(rt: &impl Abort) -> Opening {
    Opening::Plain {
        scale: scale(rt, 10),
    }
}

/// A customer of district 1 pays at home.
pub fn payment_by(customer: u32, cents: i64) -> Payment {
    Payment {
        warehouse: 1,
        district: 1,
        customer_warehouse: 1,
        customer_district: 1,
        who: Who::Number(customer),
        amount: Cents::new(cents),
        moment: Moment::new(60),
    }
}

/// Customer 1 of district 1 pays at home.
pub fn payment(cents: i64) -> Request {
    Request::Payment(payment_by(1, cents))
}

/// The last order of customer 1 of district 1.
pub fn status() -> Request {
    Request::Status(StatusQuery {
        warehouse: 1,
        district: 1,
        who: Who::Number(1),
    })
}

/// A line of warehouse 1.
fn line(item: u32, quantity: u32) -> Line {
    Line {
        item,
        supply: 1,
        quantity,
    }
}

/// Customer 1 of district 1 orders five items.
pub fn order(rt: &(impl Abort + AllocGlobal)) -> Order {
    let lines = [
        line(20, 10),
        line(26, 8),
        line(12, 10),
        line(21, 5),
        line(11, 10),
    ];
    Order {
        warehouse: 1,
        district: 1,
        customer: 1,
        moment: Moment::new(0),
        lines: Lines::new(Vec::from_array(rt.alloc(), lines).expect(rt, BEFORE)),
    }
}

/// A delivery of warehouse 1 by carrier 3.
pub fn ticket() -> Ticket {
    Ticket {
        warehouse: 1,
        carrier: 3,
        queued: Moment::new(60),
    }
}

/// One request of each kind; each is accepted where those before it were.
pub fn requests(rt: &(impl Abort + AllocGlobal)) -> [Request; 6] {
    [
        Request::NewOrder(order(rt)),
        payment(100),
        status(),
        Request::Stock(StockQuery {
            warehouse: 1,
            district: 1,
            threshold: 20,
        }),
        Request::Delivery(ticket()),
        Request::Deliver(Moment::new(120)),
    ]
}

/// The customer's balance in a reply.
pub fn balance(reply: &Reply) -> Option<Cents> {
    match reply {
        Reply::Paid(paid) => Some(paid.balance),
        Reply::Status(status) => Some(status.balance),
        _ => None,
    }
}

/// The purse of an answer.
pub fn purse_of<P>(answer: Answer<P>) -> P {
    let (_, _, _, purse) = answer.into_parts();
    purse
}
