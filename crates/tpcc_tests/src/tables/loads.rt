//! Rows that are loaded one by one, and why a row is refused.
use crate::tables::changes::Change;
use crate::tables::opening::{AtOpening, at_changed, at_opening, row_at};
use std::alloc::AllocGlobal;
use std::process::Abort;
use tpcc_rows::{
    CustomerRow, DistrictRow, HistoryRow, ItemRow, NewOrderRow, OrderLineRow, OrderRow, Row,
    StockRow, Table, WarehouseRow,
};
use tpcc_tables::{LoadFault, Tables};

/// Why a row is refused that comes back as it was.
fn fault(tables: &mut Tables, row: Row) -> Option<LoadFault> {
    match tables.load(row) {
        Err((given, fault)) if given == row => Some(fault),
        _ => None,
    }
}

/// The row with a number of its key out of range.
fn out_of_range(row: Row) -> Row {
    match row {
        Row::Warehouse(row) => Row::Warehouse(WarehouseRow { id: 101, ..row }),
        Row::District(row) => Row::District(DistrictRow { id: 11, ..row }),
        Row::Customer(row) => Row::Customer(CustomerRow { id: 3001, ..row }),
        Row::History(row) => Row::History(HistoryRow { customer: 0, ..row }),
        Row::Order(row) => Row::Order(OrderRow { id: 11, ..row }),
        Row::OrderLine(row) => Row::OrderLine(OrderLineRow { number: 16, ..row }),
        Row::NewOrder(row) => Row::NewOrder(NewOrderRow { order: 0, ..row }),
        Row::Item(row) => Row::Item(ItemRow { id: 0, ..row }),
        Row::Stock(row) => Row::Stock(StockRow { item: 0, ..row }),
    }
}

#[test]
fn rows_out_of_range_without_owners_or_whose_keys_are_taken_are_refused(rt: HostRuntime) {
    at_opening(&rt, RefuseEach);
    at_opening(&rt, RefuseWithoutOwners)
}

/// Each table's first row, with a number out of range and as it stands there. HISTORY has no key that is taken.
#[derive(Drop)]
struct RefuseEach;

impl AtOpening for RefuseEach {
    fn happens<R: Abort + AllocGlobal>(self, rt: &R, opening: &mut Tables) {
        let tables = opening;
        for table in Table::ALL {
            let taken = if table == Table::History {
                None
            } else {
                Some(LoadFault::Duplicate)
            };
            let outside = out_of_range(row_at(rt, tables, table, 0));
            assert!(rt; fault(tables, outside) == Some(LoadFault::Field));
            let row = row_at(rt, tables, table, 0);
            assert!(rt; fault(tables, row) == taken);
        }
    }
}

/// Where no row was loaded.
#[derive(Drop)]
struct RefuseWithoutOwners;

impl AtOpening for RefuseWithoutOwners {
    fn happens<R: Abort + AllocGlobal>(self, rt: &R, opening: &mut Tables) {
        at_changed(rt, opening, Change::AllLeftOut, |rt, tables| {
            refuse_first(rt, opening, tables)
        })
    }
}

/// The first row of each table whose rows name others, where there are none.
fn refuse_first(rt: &impl Abort, opening: &Tables, tables: &mut Tables) {
    for table in [
        Table::District,
        Table::Customer,
        Table::History,
        Table::Order,
        Table::OrderLine,
        Table::NewOrder,
        Table::Stock,
    ] {
        let row = row_at(rt, opening, table, 0);
        assert!(rt; fault(tables, row) == Some(LoadFault::NoParent));
    }
}
