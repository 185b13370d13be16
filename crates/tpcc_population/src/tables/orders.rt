//! ORDER, ORDER-LINE and NEW-ORDER.
ghost use Rattle.std.specs.Prelude.{◌≡◌, ◌∷◌, [], ◌++◌, ◌≤◌, IfOk};
ghost use Rattle.tpcc_rows.specs.Layout.{laid_out, one_each};
ghost use Rattle.tpcc_rows.specs.declared.limits.TheConstants.{GREATEST_WAREHOUSE, GREATEST_DISTRICT, GREATEST_CUSTOMER};

use crate::layout::{TableRows, fill_by_district, fill_by_warehouse, push};
use crate::rules::RowRules;
use std::alloc::Global;
use tpcc_rows::limits::GREATEST_DISTRICT;
use tpcc_rows::{NewOrderRow, NoMemory, OrderLineRow, OrderRow};

// The orders of a district.
fn append_orders<R: RowRules>(
    alloc: Global,
    rules: &R,
    rows: &mut Vec<OrderRow>,
    warehouse: u32,
    district: u32,
) -> Result<(), NoMemory>
    requires warehouse_least { 1 ≤ warehouse }
    requires warehouse_most { warehouse ≤ GREATEST_WAREHOUSE }
    requires district_least { 1 ≤ district }
    requires district_most { district ≤ GREATEST_DISTRICT }
    ensures { IfOk result (λ _. rows.new.items ≡ rows.old.items
        ++ one_each 1 (R.sizes rules.now).customers
        ((R.rules rules.now).order warehouse district)) }
{
    let customers = rules.customers(alloc, warehouse, district)?;
    for number in 1..rules.scale().customers() + 1 {
        let row = rules.order(customers.as_slice(), warehouse, district, number);
        push(rows, &row)?;
    }
    Ok(())
}

/// A district at a time: the numbers of these rows are those of the districts.
#[derive(Drop)]
struct OrderTable<R> {
    rules: R,
    // Where the customers of a district lie.
    alloc: Global,
}

impl<R: RowRules> TableRows for OrderTable<R> {
    type Row = OrderRow;

    ghost rows_of = { λ table warehouse _ district. one_each 1 (R.sizes table.rules).customers ((R.rules table.rules).order warehouse district) };

    ghost most = { GREATEST_DISTRICT };

    fn append(
        &self,
        rows: &mut Vec<OrderRow>,
        warehouse: u32,
        _district: u32,
        number: u32,
    ) -> Result<(), NoMemory> {
        append_orders(self.alloc, &self.rules, rows, warehouse, number)
    }
}

// The lines of an order.
fn append_lines<R: RowRules>(
    rules: &R,
    rows: &mut Vec<OrderLineRow>,
    warehouse: u32,
    district: u32,
    order: u32,
) -> Result<(), NoMemory>
    requires warehouse_least { 1 ≤ warehouse }
    requires warehouse_most { warehouse ≤ GREATEST_WAREHOUSE }
    requires district_least { 1 ≤ district }
    requires district_most { district ≤ GREATEST_DISTRICT }
    requires order_least { 1 ≤ order }
    requires order_most { order ≤ GREATEST_CUSTOMER }
    ensures { IfOk result (λ _. rows.new.items ≡ rows.old.items
        ++ one_each 1 ((R.rules rules.now).order warehouse district order).line_count
        ((R.rules rules.now).order_line warehouse district order)) }
{
    for number in 1..rules.line_count(warehouse, district, order) + 1 {
        let row = rules.order_line(warehouse, district, order, number);
        push(rows, &row)?;
    }
    Ok(())
}

#[derive(Drop)]
struct OrderLineTable<R> {
    rules: R,
}

impl<R: RowRules> TableRows for OrderLineTable<R> {
    type Row = OrderLineRow;

    ghost rows_of = { λ table warehouse district number. one_each 1 ((R.rules table.rules).order warehouse district number).line_count ((R.rules table.rules).order_line warehouse district number) };

    ghost most = { GREATEST_CUSTOMER };

    fn append(
        &self,
        rows: &mut Vec<OrderLineRow>,
        warehouse: u32,
        district: u32,
        number: u32,
    ) -> Result<(), NoMemory> {
        append_lines(&self.rules, rows, warehouse, district, number)
    }
}

#[derive(Drop)]
struct NewOrderTable<R> {
    rules: R,
}

impl<R: RowRules> TableRows for NewOrderTable<R> {
    type Row = NewOrderRow;

    ghost rows_of = { λ table warehouse district number. (R.rules table.rules).new_order warehouse district number ∷ [] };

    ghost most = { GREATEST_CUSTOMER };

    fn append(
        &self,
        rows: &mut Vec<NewOrderRow>,
        warehouse: u32,
        district: u32,
        number: u32,
    ) -> Result<(), NoMemory> {
        push(rows, &self.rules.new_order(warehouse, district, number))
    }
}

/// ORDER.
pub(crate) fn orders<R: RowRules>(alloc: Global, rules: R) -> Result<Vec<OrderRow>, NoMemory>
    ensures rows { IfOk result
        (λ v. v.items ≡ (laid_out (R.sizes rules) (R.rules rules)).orders) }
{
    fill_by_warehouse(
        alloc,
        &OrderTable { rules, alloc },
        rules.scale().warehouses(),
        GREATEST_DISTRICT,
    )
}

/// ORDER-LINE.
pub(crate) fn order_lines<R: RowRules>(
    alloc: Global,
    rules: R,
) -> Result<Vec<OrderLineRow>, NoMemory>
    ensures rows { IfOk result
        (λ v. v.items ≡ (laid_out (R.sizes rules) (R.rules rules)).order_lines) }
{
    let scale = rules.scale();
    fill_by_district(
        alloc,
        &OrderLineTable { rules },
        scale.warehouses(),
        1,
        scale.customers(),
    )
}

/// NEW-ORDER.
pub(crate) fn new_orders<R: RowRules>(alloc: Global, rules: R) -> Result<Vec<NewOrderRow>, NoMemory>
    ensures rows { IfOk result
        (λ v. v.items ≡ (laid_out (R.sizes rules) (R.rules rules)).new_orders) }
{
    let scale = rules.scale();
    fill_by_district(
        alloc,
        &NewOrderTable { rules },
        scale.warehouses(),
        scale.delivered_orders() + 1,
        scale.customers() - scale.delivered_orders(),
    )
}
