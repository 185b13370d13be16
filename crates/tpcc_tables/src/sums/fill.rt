//! The sums of rows that stand ready to be tables.
ghost use Rattle.std.specs.Prelude.{◌≡◌, ◌+◌, IfOk, length, take, drop, map};
ghost use Rattle.tpcc_rows.specs.WellKeyed.{IsWellKeyed};
ghost use Rattle.tpcc_tables.specs.DistrictVecs.{listed};
ghost use Rattle.tpcc_tables.specs.Internal.Sums.{AreSums, first_rows, no_warehouse_sums, no_district_sums, no_customer_sums};

use super::Sums;
use super::entry::{CustomerSums, DistrictSums, WarehouseSums};
use crate::changes::delivery;
use crate::lists::Lists;
use std::alloc::Global;
use tpcc_rows::{CustomerRow, DistrictRow, NoMemory, OrderRow, WarehouseRow};

fn of_warehouses(rows: &[WarehouseRow], alloc: Global) -> Result<Vec<WarehouseSums>, NoMemory>
    ensures { IfOk result (λ sums. sums.items ≡ map (λ w. no_warehouse_sums w.id) rows.now) }
{
    Ok(
        rows.iter()
            .map(|row| WarehouseSums::none(row.id))
            .collect(alloc)?,
    )
}

fn of_districts(rows: &[DistrictRow], alloc: Global) -> Result<Vec<DistrictSums>, NoMemory>
    ensures { IfOk result
        (λ sums. sums.items ≡ map (λ d. no_district_sums d.warehouse d.id) rows.now) }
{
    Ok(
        rows.iter()
            .map(|row| DistrictSums::none(row.warehouse, row.id))
            .collect(alloc)?,
    )
}

fn of_customers(rows: &[CustomerRow], alloc: Global) -> Result<Vec<CustomerSums>, NoMemory>
    ensures { IfOk result
        (λ sums. sums.items ≡ map (λ c. no_customer_sums c.warehouse c.district c.id) rows.now) }
{
    Ok(
        rows.iter()
            .map(|row| CustomerSums::none(row.warehouse, row.district, row.id))
            .collect(alloc)?,
    )
}

/// The sums while nothing is counted.
fn none_of(lists: &Lists, alloc: Global) -> Result<Sums, NoMemory>
    ensures { IfOk result (λ sums. AreSums (first_rows (listed lists.now) 0 0) sums) }
{
    Ok(Sums {
        warehouses: of_warehouses(lists.warehouses.as_slice(), alloc)?,
        districts: of_districts(lists.districts.as_slice(), alloc)?,
        customers: of_customers(lists.customers.as_slice(), alloc)?,
    })
}

/// Counts all payments.
fn pay_all(sums: &mut Sums, lists: &Lists)
    requires keyed { IsWellKeyed (listed lists.now) }
    requires before { AreSums (first_rows (listed lists.now) 0 0) sums.old }
    ensures { AreSums (first_rows (listed lists.now) (length (listed lists.now).histories) 0)
        sums.new }
{
    for history in &lists.histories {
        sums.pay(history);
    }
}

/// Counts orders that stand side by side from a place on.
fn enter_run(sums: &mut Sums, lists: &Lists, start: usize, run: &[OrderRow])
    requires keyed { IsWellKeyed (listed lists.now) }
    requires run { run.now ≡ take (length run.now) (drop start (listed lists.now).orders) }
    requires before { AreSums
        (first_rows (listed lists.now) (length (listed lists.now).histories) start) sums.old }
    ensures { AreSums (first_rows (listed lists.now)
        (length (listed lists.now).histories) (start + length run.now)) sums.new }
{
    for order in run {
        let lines = lists
            .order_lines
            .lines_of(order.warehouse, order.district, order.id);
        sums.enter(order, delivery::amount_where(lines, true));
    }
}

/// Counts all orders.
fn enter_all(sums: &mut Sums, lists: &Lists)
    requires keyed { IsWellKeyed (listed lists.now) }
    requires before { AreSums
        (first_rows (listed lists.now) (length (listed lists.now).histories) 0) sums.old }
    ensures { AreSums (listed lists.now) sums.new }
{
    let mut start = 0;
    while start < lists.orders.len() {
        let run = lists.orders.run_from(start);
        enter_run(sums, lists, start, run);
        start += run.len();
    }
}

impl Sums {
    /// The sums of well-keyed rows. Refused only for want of memory.
    pub fn of(lists: &Lists, alloc: Global) -> Result<Sums, NoMemory>
        requires keyed { IsWellKeyed (listed lists.now) }
        ensures { IfOk result (λ sums. AreSums (listed lists.now) sums) }
    {
        let mut sums = none_of(lists, alloc)?;
        pay_all(&mut sums, lists);
        enter_all(&mut sums, lists);
        Ok(sums)
    }
}
