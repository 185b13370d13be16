//! One call of each transaction that prepares and finishes at once.
use crate::samples::requests::{let_go, payment_by, ticket};
use crate::tables::changes::Change;
use crate::tables::opening::{AtOpening, at_changed, at_opening};
use std::alloc::AllocGlobal;
use std::process::Abort;
use tpcc_conditions::check;
use tpcc_delivery::{Queue, deliver_next, queue};
use tpcc_money::{Cents, Moment};
use tpcc_payment::pay;
use tpcc_rows::{Delivery, Field, Paid, Refusal, Table};
use tpcc_tables::Tables;

/// C_BALANCE behind a payment, which is made again where it was refused memory and nothing changed.
pub fn balance(
    rt: &impl Abort,
    tables: &mut Tables,
    customer: u32,
    cents: i64,
) -> Result<Cents, Refusal> {
    let payments = tables.count(Table::History);
    let paid = balance_of(pay(tables, &payment_by(customer, cents)));
    if paid != Err(Refusal::NoMemory) {
        return paid;
    }
    assert!(rt; tables.count(Table::History) == payments && check(tables).is_ok());
    balance_of(pay(tables, &payment_by(customer, cents)))
}

fn balance_of(paid: Result<Paid, Refusal>) -> Result<Cents, Refusal> {
    match paid {
        Ok(reply) => Ok(reply.balance),
        Err(refusal) => Err(refusal),
    }
}

#[test]
fn a_payment_reaches_the_limit_of_a_column_and_none_goes_past_it(rt: HostRuntime) {
    at_opening(&rt, ReachLimits)
}

/// Each column in its turn is one greatest payment below its limit.
#[derive(Drop)]
struct ReachLimits;

impl AtOpening for ReachLimits {
    fn happens<R: Abort + AllocGlobal>(self, rt: &R, opening: &mut Tables) {
        let limits = [
            (Field::WarehouseYtd, Refusal::Total(Field::WarehouseYtd)),
            (Field::DistrictYtd, Refusal::Total(Field::DistrictYtd)),
            (Field::Balance, Refusal::Total(Field::Balance)),
            (Field::YtdPayment, Refusal::Total(Field::YtdPayment)),
            (Field::PaymentCount, Refusal::Count(Field::PaymentCount)),
        ];
        for (field, refusal) in limits {
            at_changed(rt, opening, Change::NearLimit(field), |rt, tables| {
                pay_twice(rt, tables, refusal)
            });
        }
    }
}

/// The greatest payment is made, and the least one behind it is refused.
fn pay_twice(rt: &impl Abort, tables: &mut Tables, refusal: Refusal) {
    assert!(rt; balance(rt, tables, 3, 500_000).is_ok());
    assert!(rt; balance(rt, tables, 3, 100) == Err(refusal));
}

/// The order that a run delivered in this district.
fn order_in(run: Delivery, district: u32) -> Option<u32> {
    match run {
        Delivery::District(run) if run.district == district => run.order,
        _ => None,
    }
}

/// Queues a delivery, again where it was refused memory and nothing changed.
fn queue_one(rt: &impl Abort, tables: &Tables, waiting: &mut Queue) {
    if let Err(refusal) = queue(tables, waiting, ticket()) {
        assert!(rt; refusal == Refusal::NoMemory && waiting.len() == 0);
        assert!(rt; queue(tables, waiting, ticket()).is_ok());
    }
}

/// Queues a ticket and makes its ten runs; gives the order that was delivered in that district.
pub fn delivered_in(
    rt: &(impl Abort + AllocGlobal),
    tables: &mut Tables,
    district: u32,
) -> Option<u32> {
    let mut waiting = Queue::new(rt.alloc());
    let delivered = run_all(rt, tables, &mut waiting, district);
    let_go(waiting);
    delivered
}

fn run_all(
    rt: &impl Abort,
    tables: &mut Tables,
    waiting: &mut Queue,
    district: u32,
) -> Option<u32> {
    queue_one(rt, tables, waiting);
    let mut delivered = None;
    for _ in 0..10u32 {
        let run = deliver_next(tables, waiting, Moment::new(120)).expect(rt, "a run");
        delivered = delivered.or(order_in(run, district));
    }
    assert!(rt; waiting.len() == 0);
    delivered
}

#[test]
fn runs_pass_over_a_gap_of_new_orders(rt: HostRuntime) {
    at_opening(&rt, PassOverGap)
}

#[derive(Drop)]
struct PassOverGap;

impl AtOpening for PassOverGap {
    fn happens<R: Abort + AllocGlobal>(self, rt: &R, opening: &mut Tables) {
        at_changed(rt, opening, Change::NewOrderLeftOut(2, 9), pass_over)
    }
}

/// Order 9 is not there.
fn pass_over<R: Abort + AllocGlobal>(rt: &R, tables: &mut Tables) {
    for order in [Some(8), Some(10), None] {
        assert!(rt; delivered_in(rt, tables, 2) == order);
    }
}
