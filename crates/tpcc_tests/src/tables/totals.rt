//! What the tables add up and count, on rows that were worked out by hand.
use crate::samples::requests::payment_by;
use crate::tables::changes::Change;
use crate::tables::opening::{AtOpening, at_changed, at_opening};
use crate::tables::transactions::delivered_in;
use std::alloc::AllocGlobal;
use std::process::Abort;
use tpcc_payment::pay;
use tpcc_rows::Payment;
use tpcc_tables::Tables;

/// A warehouse, a district of it, and a customer and an order of that.
type Place = [u32; 4];

/// What was paid into a warehouse, into its district and by its customer, and what was delivered to that customer, in
/// cents; how many lines the district's orders say, and how many lines it has, the order has, how many orders and new
/// orders; the newest order, the newest and the oldest new order, and the customer's last one, or 0.
fn sums(tables: &Tables, place: Place) -> [i128; 13] {
    let [warehouse, district, customer, order] = place;
    let counts = tables.district_counts(warehouse, district);
    [
        tables.warehouse_paid(warehouse),
        tables.district_paid(warehouse, district),
        tables.customer_paid(warehouse, district, customer),
        tables.customer_delivered(warehouse, district, customer),
        tables.counted_lines(warehouse, district),
        tables.line_count(warehouse, district) as i128,
        tables.order_line_count(warehouse, district, order) as i128,
        counts.orders as i128,
        counts.new_orders as i128,
        number(counts.newest_order),
        number(counts.newest_new),
        number(tables.oldest_new(warehouse, district)),
        number(tables.last_order(warehouse, district, customer)),
    ]
}

/// An order's number, which is no 0.
fn number(order: Option<u32>) -> i128 {
    i128::from(order.unwrap_or(0))
}

/// The sums of a place are these.
fn are_summed(rt: &impl Abort, tables: &Tables, place: Place, expected: [i128; 13]) {
    assert!(rt; sums(tables, place) == expected);
}

#[test]
fn an_opening_is_counted_at_once_and_row_by_row(rt: HostRuntime) {
    at_opening(&rt, AreCounted)
}

#[derive(Drop)]
struct AreCounted;

impl AtOpening for AreCounted {
    fn happens<R: Abort + AllocGlobal>(self, rt: &R, opening: &mut Tables) {
        are_of_opening(rt, opening);
        at_changed(rt, opening, Change::Nothing, are_of_opening)
    }
}

/// Of customer 8 of district 1, and of a warehouse, a district, a customer and an order that are not there.
fn are_of_opening<R: Abort>(rt: &R, tables: &mut Tables) {
    let places = [
        (
            [1, 1, 8, 8],
            [100_000, 10_000, 1_000, 0, 50, 50, 5, 10, 3, 10, 10, 8, 8],
        ),
        ([2, 11, 11, 11], [0; 13]),
        (
            [1, 11, 11, 11],
            [100_000, 0, 0, 0, 0, 0, 0, 0, 0, 0, 0, 0, 0],
        ),
        (
            [1, 1, 11, 11],
            [100_000, 10_000, 0, 0, 50, 50, 0, 10, 3, 10, 10, 8, 0],
        ),
    ];
    for (place, expected) in places {
        are_summed(rt, tables, place, expected);
    }
}

#[test]
fn a_payment_counts_where_it_went_and_for_who_paid(rt: HostRuntime) {
    at_opening(&rt, PayElsewhere)
}

/// Customer 8 of district 2 pays 1.00 into district 1.
#[derive(Drop)]
struct PayElsewhere;

impl AtOpening for PayElsewhere {
    fn happens<R: Abort + AllocGlobal>(self, rt: &R, opening: &mut Tables) {
        let tables = opening;
        let payment = Payment {
            customer_district: 2,
            ..payment_by(8, 100)
        };
        assert!(rt; pay(tables, &payment).is_ok());
        let there = [100_100, 10_100, 1_000, 0, 50, 50, 5, 10, 3, 10, 10, 8, 8];
        are_summed(rt, tables, [1, 1, 8, 8], there);
        let payer = [100_100, 10_000, 1_100, 0, 50, 50, 5, 10, 3, 10, 10, 8, 8];
        are_summed(rt, tables, [1, 2, 8, 8], payer);
    }
}

/// Behind an order of customer 1 with five lines.
pub fn order_is_counted(rt: &impl Abort, tables: &Tables) {
    let expected = [100_000, 10_000, 1_000, 0, 55, 55, 5, 11, 4, 11, 11, 8, 11];
    are_summed(rt, tables, [1, 1, 1, 11], expected)
}

/// Behind the delivery of order 8, whose lines come to 15.00.
pub fn delivery_is_counted(rt: &impl Abort, tables: &Tables) {
    let expected = [
        100_000, 10_000, 1_000, 1_500, 50, 50, 5, 10, 2, 10, 10, 9, 8,
    ];
    are_summed(rt, tables, [1, 1, 8, 8], expected)
}

#[test]
fn loaded_rows_are_counted_whatever_came_before(rt: HostRuntime) {
    at_opening(&rt, CountLoaded)
}

#[derive(Drop)]
struct CountLoaded;

impl AtOpening for CountLoaded {
    fn happens<R: Abort + AllocGlobal>(self, rt: &R, opening: &mut Tables) {
        at_changed(rt, opening, Change::OneCustomer, last_stays);
        at_changed(rt, opening, Change::LineDelivered, count_once)
    }
}

/// All orders of district 1 are those of customer 1, and the last one was loaded first.
fn last_stays<R: Abort>(rt: &R, tables: &mut Tables) {
    assert!(rt; [tables.last_order(1, 1, 1), tables.last_order(1, 1, 2)] == [Some(10), None]);
}

/// Line 4 of order 8, of 4.00, is delivered before the order is.
fn count_once<R: Abort + AllocGlobal>(rt: &R, tables: &mut Tables) {
    assert!(rt; tables.customer_delivered(1, 1, 8) == 400);
    let delivered = delivered_in(rt, tables, 1);
    assert!(rt; (delivered, tables.customer_delivered(1, 1, 8)) == (Some(8), 1_500));
}
