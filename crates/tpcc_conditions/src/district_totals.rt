//! The sum of D_YTD over the districts of a warehouse.
ghost use Rattle.std.specs.Prelude.{◌≡◌, slice_get};
ghost use Rattle.tpcc_money.specs.Amounts.{total};
ghost use Rattle.tpcc_rows.specs.Tables.{districts_of};
ghost use Rattle.tpcc_conditions.specs.Internal.DistrictTotals.{total_in, found_total};

use crate::places;
use tpcc_rows::{DistrictRow, Table};
use tpcc_tables::Tables;

/// D_YTD of a district of the warehouse, 0 of another one, in cents.
fn of_row(row: &DistrictRow, warehouse: u32) -> i64
    ensures { result ≡ total_in warehouse row.now }
{
    if row.warehouse == warehouse {
        row.ytd.value()
    } else {
        0
    }
}

/// The same of the row at a place, 0 behind the last row.
fn at(tables: &Tables, warehouse: u32, position: usize) -> i64
    ensures { result ≡ found_total warehouse (slice_get tables.now.rows.districts position) }
{
    match places::district(tables, position) {
        Some(row) => of_row(row, warehouse),
        None => 0,
    }
}

/// The sum of D_YTD over a warehouse's districts, in cents. It fits: a table has fewer than 2^64 rows.
pub fn district_totals(tables: &Tables, warehouse: u32) -> i128
    ensures { result ≡ total (λ d. d.ytd) (districts_of tables.now.rows warehouse) }
{
    let mut sum = 0i128;
    for position in 0..tables.count(Table::District) {
        sum += i128::from(at(tables, warehouse, position));
    }
    sum
}
