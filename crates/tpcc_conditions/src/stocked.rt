//! Whether each item is in stock in each warehouse (1.4).
ghost use Rattle.std.specs.Prelude.{◌≡◌, None, is_some, slice_get};
ghost use Rattle.std.specs.List.{list_all};
ghost use Rattle.std.specs.Option.{option_copied};
ghost use Rattle.tpcc_rows.specs.declared.transactions.requests.Request.{Request};
ghost use Rattle.tpcc_rows.specs.Tables.{State, find_stock};
ghost use Rattle.tpcc_rows.specs.Turn.{refusal, state_after};
ghost use Rattle.tpcc_rows.specs.WellKeyed.{IsStocked, IsWellKeyed};
ghost use Rattle.tpcc_conditions.specs.Stocked.{has_items, are_stocked};
ghost use Rattle.tpcc_conditions.specs.Internal.Stocked.{passes_at};

use crate::places;
use tpcc_rows::{ItemRow, RowRef, Table};
use tpcc_tables::Tables;

#[tactic(auto, unfolding(tpcc_tables::specs::Positions::row_at))]
fn item(tables: &Tables, position: usize) -> Option<&ItemRow>
    ensures { option_copied result ≡ slice_get tables.now.rows.items position }
{
    match tables.row(Table::Item, position) {
        Some(RowRef::Item(row)) => Some(row),
        _ => None,
    }
}

/// Whether a warehouse has a STOCK row for the item at a place; so it has behind the last one.
fn has_item(tables: &Tables, warehouse: u32, position: usize) -> bool
    ensures { result ≡ passes_at
        (λ i. is_some (find_stock tables.now.rows warehouse i.id)) tables.now.rows.items position }
{
    match item(tables, position) {
        Some(row) => tables.stock(warehouse, row.id).is_some(),
        None => true,
    }
}

/// Whether a warehouse has a STOCK row for each item.
fn has_each_item(tables: &Tables, warehouse: u32) -> bool
    ensures { result ≡ has_items tables.now.rows warehouse }
{
    for position in 0..tables.count(Table::Item) {
        if !has_item(tables, warehouse, position) {
            return false;
        }
    }
    true
}

/// Whether the warehouse at a place has a STOCK row for each item; so it is behind the last one.
fn is_stocked_at(tables: &Tables, position: usize) -> bool
    ensures { result
        ≡ passes_at (λ w. has_items tables.now.rows w.id) tables.now.rows.warehouses position }
{
    match places::warehouse(tables, position) {
        Some(row) => has_each_item(tables, row.id),
        None => true,
    }
}

/// Whether each item is in stock in each warehouse, as `enter` of a New-Order asks. Every opening
/// is stocked; tables that were loaded row by row may not be.
pub fn is_stocked(tables: &Tables) -> bool
    ensures { result ≡ are_stocked tables.now.rows }
{
    for position in 0..tables.count(Table::Warehouse) {
        if !is_stocked_at(tables, position) {
            return false;
        }
    }
    true
}

/// A request that nothing refuses leaves well-keyed tables stocked, whatever conditions they break.
pub fn stock_stays()
    ensures { (s : State) (request : Request) → refusal s request ≡ None → IsWellKeyed s.rows
        → IsStocked s.rows → IsStocked (state_after s request).rows }
{}
