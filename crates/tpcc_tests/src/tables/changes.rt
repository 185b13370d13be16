//! One change of the opening, so that one condition is broken or one column is near its limit.
use tpcc_money::{Cents, Moment};
use tpcc_rows::{
    CustomerRow, DistrictRow, Field, NewOrderRow, OrderLineRow, OrderRow, Row, WarehouseRow,
};

/// The greatest amount of a column, 9,999,999,999.99, and the greatest payment, 5,000.00 (1.3, 2.5.1.3).
const GREATEST_TOTAL: i64 = 999_999_999_999;

const GREATEST_PAYMENT: i64 = 500_000;

/// What is changed in district 1 of warehouse 1, or in the warehouse; of a NEW-ORDER row that is left out, its district
/// and its order. A column near its limit has room for one payment of 5,000.00.
#[derive(Clone, Copy)]
pub enum Change {
    Nothing,
    AllLeftOut,
    WarehouseTotal,
    BothTotals,
    CentInAnotherDistrict,
    NewOrderLeftOut(u32, u32),
    LineAdded,
    LineCounts,
    LineUndelivered,
    LineDelivered,
    OneCustomer,
    Balance,
    YtdPayment,
    NearLimit(Field),
}

/// The row with the change, if it isn't left out.
pub fn change_row(change: Change, row: Row) -> Option<Row> {
    if let Change::AllLeftOut = change {
        return None;
    }
    match row {
        Row::Warehouse(row) => Some(Row::Warehouse(warehouse(change, row))),
        Row::District(row) => Some(Row::District(district(change, row))),
        Row::Customer(row) => Some(Row::Customer(customer(change, row))),
        Row::Order(row) => Some(Row::Order(order(change, row))),
        Row::OrderLine(row) => Some(Row::OrderLine(order_line(change, row))),
        Row::NewOrder(row) => new_order(change, row),
        _ => Some(row),
    }
}

fn warehouse(change: Change, row: WarehouseRow) -> WarehouseRow {
    let cents = match change {
        Change::WarehouseTotal | Change::BothTotals => 100_001,
        Change::NearLimit(Field::WarehouseYtd) => GREATEST_TOTAL - GREATEST_PAYMENT,
        _ => 100_000,
    };
    WarehouseRow {
        ytd: Cents::new(cents),
        ..row
    }
}

fn district(change: Change, row: DistrictRow) -> DistrictRow {
    let cents = match (change, row.id) {
        (Change::BothTotals, 1) | (Change::CentInAnotherDistrict, 2) => 10_001,
        (Change::CentInAnotherDistrict, 1) => 9_999,
        (Change::NearLimit(Field::DistrictYtd), 1) => GREATEST_TOTAL - GREATEST_PAYMENT,
        _ => 10_000,
    };
    DistrictRow {
        ytd: Cents::new(cents),
        ..row
    }
}

/// The columns of customer 3.
fn customer(change: Change, row: CustomerRow) -> CustomerRow {
    if row.district != 1 || row.id != 3 {
        return row;
    }
    let mut row = row;
    match change {
        Change::Balance => row.balance = Cents::new(-999),
        Change::YtdPayment => row.ytd_payment = Cents::new(1001),
        Change::NearLimit(Field::Balance) => {
            row.balance = Cents::new(GREATEST_PAYMENT - GREATEST_TOTAL)
        }
        Change::NearLimit(Field::YtdPayment) => {
            row.ytd_payment = Cents::new(GREATEST_TOTAL - GREATEST_PAYMENT)
        }
        Change::NearLimit(Field::PaymentCount) => row.payment_count = 999_999_998,
        _ => {}
    }
    row
}

/// O_OL_CNT of order 4, or who ordered.
fn order(change: Change, row: OrderRow) -> OrderRow {
    let line_count = match (change, row.district, row.id) {
        (Change::LineCounts, 1, 4) => 6,
        _ => 5,
    };
    let customer = match (change, row.district) {
        (Change::OneCustomer, 1) => 1,
        _ => row.customer,
    };
    OrderRow {
        line_count,
        customer,
        ..row
    }
}

/// OL_DELIVERY_D of line 4 of order 2, or of order 8.
fn order_line(change: Change, row: OrderLineRow) -> OrderLineRow {
    match (change, row.district, row.order, row.number) {
        (Change::LineUndelivered, 1, 2, 4) => OrderLineRow {
            delivered: None,
            ..row
        },
        (Change::LineDelivered, 1, 8, 4) => OrderLineRow {
            delivered: Some(Moment::new(0)),
            ..row
        },
        _ => row,
    }
}

fn new_order(change: Change, row: NewOrderRow) -> Option<Row> {
    let place = (row.district, row.order);
    match change {
        Change::NewOrderLeftOut(district, order) if (district, order) == place => None,
        _ => Some(Row::NewOrder(row)),
    }
}

/// Whether order 9 has a sixth line.
pub fn has_sixth_line(change: Change) -> bool {
    matches!(change, Change::LineAdded | Change::LineCounts)
}
