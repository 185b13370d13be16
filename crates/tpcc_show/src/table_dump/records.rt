//! The record of each row: its columns in the standard's order (1.3).
ghost use Rattle.std.specs.Prelude.{◌≡◌, OnOk};
ghost use Rattle.tpcc_show.specs.Records as records;
ghost use Rattle.tpcc_tables.specs.Positions.{lent_row};

use crate::table_dump::fields::{Field, Fields, flag, nullable_moment, nullable_number};
use tpcc_rows::{
    CustomerRow, DistrictRow, HistoryRow, ItemRow, NewOrderRow, NoMemory, OrderLineRow, OrderRow,
    RowRef, StockRow, WarehouseRow,
};

/// The record of a row.
pub fn put_row(fields: &mut Fields, row: RowRef<'_>) -> Result<(), NoMemory>
    ensures { OnOk result (fields.new ≡ records.record_of (lent_row row.entry)) }
{
    match row {
        RowRef::Warehouse(row) => put_warehouse(fields, row),
        RowRef::District(row) => put_district(fields, row),
        RowRef::Customer(row) => put_customer(fields, row),
        RowRef::History(row) => put_history(fields, row),
        RowRef::Order(row) => put_order(fields, row),
        RowRef::OrderLine(row) => put_order_line(fields, row),
        RowRef::NewOrder(row) => put_new_order(fields, row),
        RowRef::Item(row) => put_item(fields, row),
        RowRef::Stock(row) => put_stock(fields, row),
    }
}

fn put_warehouse(fields: &mut Fields, row: &WarehouseRow) -> Result<(), NoMemory>
    ensures { OnOk result (fields.new ≡ records.warehouse_record row.now) }
{
    fields.set(&[
        Field::Number(row.id),
        Field::Text(row.name.bytes()),
        Field::Address(&row.address),
        Field::Rate(row.tax),
        Field::Amount(row.ytd),
    ])
}

fn put_district(fields: &mut Fields, row: &DistrictRow) -> Result<(), NoMemory>
    ensures { OnOk result (fields.new ≡ records.district_record row.now) }
{
    fields.set(&[
        Field::Number(row.id),
        Field::Number(row.warehouse),
        Field::Text(row.name.bytes()),
        Field::Address(&row.address),
        Field::Rate(row.tax),
        Field::Amount(row.ytd),
        Field::Number(row.next_order),
    ])
}

fn put_customer(fields: &mut Fields, row: &CustomerRow) -> Result<(), NoMemory>
    ensures { OnOk result (fields.new ≡ records.customer_record row.now) }
{
    fields.set(&[
        Field::Number(row.id),
        Field::Number(row.district),
        Field::Number(row.warehouse),
        Field::Text(row.first.bytes()),
        Field::Text(row.middle.bytes()),
        Field::Text(row.last.bytes()),
        Field::Address(&row.address),
        Field::Text(row.phone.bytes()),
        Field::Moment(row.since),
        Field::Text(row.credit.bytes()),
        Field::Amount(row.credit_limit),
        Field::Rate(row.discount),
        Field::Amount(row.balance),
        Field::Amount(row.ytd_payment),
        Field::Number(row.payment_count),
        Field::Number(row.delivery_count),
        Field::Text(row.information.bytes()),
    ])
}

fn put_history(fields: &mut Fields, row: &HistoryRow) -> Result<(), NoMemory>
    ensures { OnOk result (fields.new ≡ records.history_record row.now) }
{
    fields.set(&[
        Field::Number(row.customer),
        Field::Number(row.customer_district),
        Field::Number(row.customer_warehouse),
        Field::Number(row.district),
        Field::Number(row.warehouse),
        Field::Moment(row.date),
        Field::Amount(row.amount),
        Field::Text(row.information.bytes()),
    ])
}

fn put_order(fields: &mut Fields, row: &OrderRow) -> Result<(), NoMemory>
    ensures { OnOk result (fields.new ≡ records.order_record row.now) }
{
    fields.set(&[
        Field::Number(row.id),
        Field::Number(row.district),
        Field::Number(row.warehouse),
        Field::Number(row.customer),
        Field::Moment(row.entry_date),
        nullable_number(row.carrier),
        Field::Number(row.line_count),
        flag(row.all_local),
    ])
}

fn put_order_line(fields: &mut Fields, row: &OrderLineRow) -> Result<(), NoMemory>
    ensures { OnOk result (fields.new ≡ records.order_line_record row.now) }
{
    fields.set(&[
        Field::Number(row.order),
        Field::Number(row.district),
        Field::Number(row.warehouse),
        Field::Number(row.number),
        Field::Number(row.item),
        Field::Number(row.supply),
        nullable_moment(row.delivered),
        Field::Number(row.quantity),
        Field::Amount(row.amount),
        Field::Text(row.district_information.bytes()),
    ])
}

fn put_new_order(fields: &mut Fields, row: NewOrderRow) -> Result<(), NoMemory>
    ensures { OnOk result (fields.new ≡ records.new_order_record row) }
{
    fields.set(&[
        Field::Number(row.order),
        Field::Number(row.district),
        Field::Number(row.warehouse),
    ])
}

fn put_item(fields: &mut Fields, row: &ItemRow) -> Result<(), NoMemory>
    ensures { OnOk result (fields.new ≡ records.item_record row.now) }
{
    fields.set(&[
        Field::Number(row.id),
        Field::Number(row.image),
        Field::Text(row.name.bytes()),
        Field::Amount(row.price),
        Field::Text(row.information.bytes()),
    ])
}

fn put_stock(fields: &mut Fields, row: &StockRow) -> Result<(), NoMemory>
    ensures { OnOk result (fields.new ≡ records.stock_record row.now) }
{
    fields.set(&[
        Field::Number(row.item),
        Field::Number(row.warehouse),
        Field::Number(row.quantity),
        Field::Texts(row.district_information.as_slice()),
        Field::Number(row.ytd),
        Field::Number(row.order_count),
        Field::Number(row.remote_count),
        Field::Text(row.information.bytes()),
    ])
}
