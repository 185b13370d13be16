//! Why a row can't be loaded.
ghost use Rattle.std.specs.Prelude.{◌≡◌, not, ◌||◌, is_some};
ghost use Rattle.tpcc_rows.specs.WellKeyed.{has_payer, has_order_and_stock, has_warehouse_and_item, is_numbered_below_next};
ghost use Rattle.tpcc_rows.specs.Tables.{find_district};
ghost use Rattle.tpcc_tables.specs.Loads as loads;

use crate::ranges::*;
use crate::tables::Tables;
use thiserror::Error;
use tpcc_rows::{
    CustomerRow, DistrictRow, HistoryRow, ItemRow, NewOrderRow, OrderLineRow, OrderRow, StockRow,
    WarehouseRow,
};

/// Why a row can't be loaded: the first that applies, in this order.
#[derive(Clone, Copy, Debug, PartialEq, Eq, Error)]
pub enum LoadFault {
    /// A column is out of its range, or an order's number isn't below the next one of its district.
    #[error("Field")]
    Field,
    /// A row that this one refers to is missing.
    #[error("NoParent")]
    NoParent,
    /// The table has a row of that key.
    #[error("Duplicate")]
    Duplicate,
    /// A growth was refused.
    #[error("NoMemory")]
    NoMemory,
}

/// The first fault of a row that is known to be in range or not, to have its parents or not, and to be new or not.
fn first_fault(in_range: bool, has_parents: bool, is_taken: bool) -> Option<LoadFault>
    ensures { result ≡ loads.fault_of in_range has_parents is_taken }
{
    if !in_range {
        Some(LoadFault::Field)
    } else if !has_parents {
        Some(LoadFault::NoParent)
    } else if is_taken {
        Some(LoadFault::Duplicate)
    } else {
        None
    }
}

/// Why a row can't be loaded into WAREHOUSE, if it can't.
pub fn of_warehouse(tables: &Tables, row: &WarehouseRow) -> Option<LoadFault>
    ensures { result ≡ loads.warehouse_fault tables.now.rows row.now }
{
    first_fault(
        is_warehouse_row(row),
        true,
        tables.warehouse(row.id).is_some(),
    )
}

/// Why a row can't be loaded into DISTRICT, if it can't.
pub fn of_district(tables: &Tables, row: &DistrictRow) -> Option<LoadFault>
    ensures { result ≡ loads.district_fault tables.now.rows row.now }
{
    first_fault(
        is_district_row(row),
        tables.warehouse(row.warehouse).is_some(),
        tables.district(row.warehouse, row.id).is_some(),
    )
}

/// Why a row can't be loaded into CUSTOMER, if it can't.
pub fn of_customer(tables: &Tables, row: &CustomerRow) -> Option<LoadFault>
    ensures { result ≡ loads.customer_fault tables.now.rows row.now }
{
    first_fault(
        is_customer_row(row),
        tables.district(row.warehouse, row.district).is_some(),
        tables
            .customer(row.warehouse, row.district, row.id)
            .is_some(),
    )
}

fn has_payer(tables: &Tables, row: &HistoryRow) -> bool
    ensures { result ≡ has_payer tables.now.rows row.now }
{
    tables
        .customer(row.customer_warehouse, row.customer_district, row.customer)
        .is_some()
        && tables.district(row.warehouse, row.district).is_some()
}

/// Why a row can't be loaded into HISTORY, if it can't.
pub fn of_history(tables: &Tables, row: &HistoryRow) -> Option<LoadFault>
    ensures { result ≡ loads.history_fault tables.now.rows row.now }
{
    first_fault(is_history_row(row), has_payer(tables, row), false)
}

/// Whether the order's number is below the next one of its district, where there is that district.
fn is_numbered(tables: &Tables, row: &OrderRow) -> bool
    ensures { result
        ≡ (not (is_some (find_district tables.now.rows row.now.warehouse row.now.district))
        || is_numbered_below_next tables.now.rows row.now) }
{
    match tables.district(row.warehouse, row.district) {
        Some(district) => row.id < district.next_order,
        None => true,
    }
}

/// Why a row can't be loaded into ORDER, if it can't.
pub fn of_order(tables: &Tables, row: &OrderRow) -> Option<LoadFault>
    ensures { result ≡ loads.order_fault tables.now.rows row.now }
{
    first_fault(
        is_order_row(row) && is_numbered(tables, row),
        tables
            .customer(row.warehouse, row.district, row.customer)
            .is_some(),
        tables.order(row.warehouse, row.district, row.id).is_some(),
    )
}

fn has_order_and_stock(tables: &Tables, row: &OrderLineRow) -> bool
    ensures { result ≡ has_order_and_stock tables.now.rows row.now }
{
    tables
        .order(row.warehouse, row.district, row.order)
        .is_some()
        && tables.stock(row.supply, row.item).is_some()
}

/// Why a row can't be loaded into ORDER-LINE, if it can't.
pub fn of_order_line(tables: &Tables, row: &OrderLineRow) -> Option<LoadFault>
    ensures { result ≡ loads.order_line_fault tables.now.rows row.now }
{
    first_fault(
        is_order_line_row(row),
        has_order_and_stock(tables, row),
        tables
            .line(row.warehouse, row.district, row.order, row.number)
            .is_some(),
    )
}

/// Why a row can't be loaded into NEW-ORDER, if it can't.
pub fn of_new_order(tables: &Tables, row: &NewOrderRow) -> Option<LoadFault>
    ensures { result ≡ loads.new_order_fault tables.now.rows row.now }
{
    first_fault(
        is_new_order_row(row),
        tables
            .order(row.warehouse, row.district, row.order)
            .is_some(),
        tables
            .new_order(row.warehouse, row.district, row.order)
            .is_some(),
    )
}

/// Why a row can't be loaded into ITEM, if it can't.
pub fn of_item(tables: &Tables, row: &ItemRow) -> Option<LoadFault>
    ensures { result ≡ loads.item_fault tables.now.rows row.now }
{
    first_fault(is_item_row(row), true, tables.item(row.id).is_some())
}

fn has_warehouse_and_item(tables: &Tables, row: &StockRow) -> bool
    ensures { result ≡ has_warehouse_and_item tables.now.rows row.now }
{
    tables.warehouse(row.warehouse).is_some() && tables.item(row.item).is_some()
}

/// Why a row can't be loaded into STOCK, if it can't.
pub fn of_stock(tables: &Tables, row: &StockRow) -> Option<LoadFault>
    ensures { result ≡ loads.stock_fault tables.now.rows row.now }
{
    first_fault(
        is_stock_row(row),
        has_warehouse_and_item(tables, row),
        tables.stock(row.warehouse, row.item).is_some(),
    )
}
