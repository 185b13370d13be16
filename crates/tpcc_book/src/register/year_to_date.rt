//! The sum of W_YTD over the rows.
ghost use Rattle.std.specs.Prelude.{◌≡◌, pos, slice_get, option_map, unwrap_or};
ghost use Rattle.std.specs.Option.{option_copied};
ghost use Rattle.tpcc_money.specs.Amounts.{total};

use tpcc_rows::{RowRef, Table, WarehouseRow};
use tpcc_tables::Tables;

/// The WAREHOUSE row at a place, from 0.
#[tactic(auto, unfolding(tpcc_tables::specs::Positions::row_at))]
fn warehouse_at(tables: &Tables, position: usize) -> Option<&WarehouseRow>
    ensures { option_copied result ≡ slice_get tables.now.rows.warehouses position }
{
    match tables.row(Table::Warehouse, position) {
        Some(RowRef::Warehouse(row)) => Some(row),
        _ => None,
    }
}

/// W_YTD of the row at a place, in cents; 0 behind the last row.
fn year_to_date_at(tables: &Tables, position: usize) -> i64
    ensures { result
        ≡ unwrap_or (option_map (λ w. w.ytd) (slice_get tables.now.rows.warehouses position))
        (pos 0) }
{
    match warehouse_at(tables, position) {
        Some(row) => row.ytd.value(),
        None => 0,
    }
}

/// The sum of W_YTD over all WAREHOUSE rows, in cents (3.3.2.1). It fits: a table has fewer than 2^64
/// rows, each with an amount of 64 bits.
pub(crate) fn year_to_date(tables: &Tables) -> i128
    ensures sum { result ≡ total (λ w. w.ytd) tables.now.rows.warehouses }
{
    let mut sum = 0i128;
    for position in 0..tables.count(Table::Warehouse) {
        sum += i128::from(year_to_date_at(tables, position));
    }
    sum
}
