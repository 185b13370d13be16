//! The rows of a table by their places, from 0.
ghost use Rattle.std.specs.Prelude.{◌≡◌, slice_get};
ghost use Rattle.std.specs.Option.{option_copied};

use tpcc_rows::{CustomerRow, DistrictRow, OrderLineRow, OrderRow, RowRef, Table, WarehouseRow};
use tpcc_tables::Tables;

/// The WAREHOUSE row at a place, counted from 0.
#[tactic(auto, unfolding(tpcc_tables::specs::Positions::row_at))]
pub fn warehouse(tables: &Tables, position: usize) -> Option<&WarehouseRow>
    ensures { option_copied result ≡ slice_get tables.now.rows.warehouses position }
{
    match tables.row(Table::Warehouse, position) {
        Some(RowRef::Warehouse(row)) => Some(row),
        _ => None,
    }
}

/// The DISTRICT row at a place.
#[tactic(auto, unfolding(tpcc_tables::specs::Positions::row_at))]
pub fn district(tables: &Tables, position: usize) -> Option<&DistrictRow>
    ensures { option_copied result ≡ slice_get tables.now.rows.districts position }
{
    match tables.row(Table::District, position) {
        Some(RowRef::District(row)) => Some(row),
        _ => None,
    }
}

/// The CUSTOMER row at a place.
#[tactic(auto, unfolding(tpcc_tables::specs::Positions::row_at))]
pub fn customer(tables: &Tables, position: usize) -> Option<&CustomerRow>
    ensures { option_copied result ≡ slice_get tables.now.rows.customers position }
{
    match tables.row(Table::Customer, position) {
        Some(RowRef::Customer(row)) => Some(row),
        _ => None,
    }
}

/// The ORDER row at a place.
#[tactic(auto, unfolding(tpcc_tables::specs::Positions::row_at))]
pub fn order(tables: &Tables, position: usize) -> Option<&OrderRow>
    ensures { option_copied result ≡ slice_get tables.now.rows.orders position }
{
    match tables.row(Table::Order, position) {
        Some(RowRef::Order(row)) => Some(row),
        _ => None,
    }
}

/// The ORDER-LINE row at a place.
#[tactic(auto, unfolding(tpcc_tables::specs::Positions::row_at))]
pub fn line(tables: &Tables, position: usize) -> Option<&OrderLineRow>
    ensures { option_copied result ≡ slice_get tables.now.rows.order_lines position }
{
    match tables.row(Table::OrderLine, position) {
        Some(RowRef::OrderLine(row)) => Some(row),
        _ => None,
    }
}
