//! The plain opening: filled at once, and loaded row by row. One function owns the tables of each, and lends them to what
//! happens there.
ghost use Rattle.tpcc_rows.specs.WellKeyed.{IsStocked};

use crate::samples::requests::{BEFORE, let_go, opening};
use crate::tables::changes::{Change, change_row, has_sixth_line};
use std::alloc::AllocGlobal;
use std::process::Abort;
use tpcc_conditions::check;
use tpcc_population::{fill, opening_is_sound};
use tpcc_rows::{OrderLineRow, Row, RowRef, Table};
use tpcc_tables::{LoadFault, Tables};

/// Each table behind those whose rows its own rows name.
const OWNERS_FIRST: [Table; 9] = [
    Table::Warehouse,
    Table::District,
    Table::Customer,
    Table::History,
    Table::Item,
    Table::Stock,
    Table::Order,
    Table::OrderLine,
    Table::NewOrder,
];

/// What happens to the tables of the opening.
pub trait AtOpening: Drop {
    /// It happens.
    fn happens<R: Abort + AllocGlobal>(self, rt: &R, opening: &mut Tables)
        requires stocked { IsStocked opening.old.rows };
}

/// Lends the tables of the opening to what happens to them.
pub fn at_opening<R: Abort + AllocGlobal, W: AtOpening>(rt: &R, what: W) {
    let mut tables = plain_tables(rt);
    what.happens(rt, &mut tables);
    let_go(tables)
}

/// Loads the opening's rows with one change, and lends the tables that they make to what happens to them.
pub fn at_changed<R: Abort + AllocGlobal, F: FnOnce(&R, &mut Tables)>(
    rt: &R,
    opening: &Tables,
    change: Change,
    happens: F,
)
    requires { F.IsAlwaysCallable happens }
{
    let mut tables = Tables::empty(rt.alloc());
    load_changed(rt, opening, change, &mut tables);
    happens(rt, &mut tables);
    let_go(tables)
}

fn plain_tables(rt: &(impl Abort + AllocGlobal)) -> Tables
    ensures stocked { IsStocked result.rows }
{
    let opening = opening(rt);
    opening_is_sound(opening);
    fill(rt.alloc(), &opening).expect(rt, BEFORE)
}

/// All conditions hold, and there are five lines of each of 100 orders.
pub fn is_opening(rt: &impl Abort, tables: &Tables) {
    assert!(rt; check(tables).is_ok() && tables.count(Table::OrderLine) == 500);
}

fn copy_of(row: RowRef<'_>) -> Row {
    match row {
        RowRef::Warehouse(row) => Row::Warehouse(*row),
        RowRef::District(row) => Row::District(*row),
        RowRef::Customer(row) => Row::Customer(*row),
        RowRef::History(row) => Row::History(*row),
        RowRef::Order(row) => Row::Order(*row),
        RowRef::OrderLine(row) => Row::OrderLine(*row),
        RowRef::NewOrder(row) => Row::NewOrder(row),
        RowRef::Item(row) => Row::Item(*row),
        RowRef::Stock(row) => Row::Stock(*row),
    }
}

/// The row at a place of a table.
pub fn row_at(rt: &impl Abort, tables: &Tables, table: Table, place: usize) -> Row {
    copy_of(tables.row(table, place).expect(rt, "a row"))
}

/// Loads a row. One that is refused memory comes back, and its table is as long as before and takes it then.
fn load(rt: &impl Abort, tables: &mut Tables, table: Table, row: Row) {
    let count = tables.count(table);
    if let Err((back, fault)) = tables.load(row) {
        assert!(rt; fault == LoadFault::NoMemory && back == row);
        assert!(rt; tables.count(table) == count);
        assert!(rt; tables.load(back).is_ok());
    }
}

/// The last row goes first, but in HISTORY, whose rows stand as they come.
fn load_table(rt: &impl Abort, from: &Tables, table: Table, change: Change, into: &mut Tables) {
    let count = from.count(table);
    for turn in 0..count {
        let place = if table == Table::History {
            turn
        } else {
            count - 1 - turn
        };
        if let Some(row) = change_row(change, row_at(rt, from, table, place)) {
            load(rt, into, table, row);
        }
    }
}

/// Loads the rows of these tables with one change into empty ones.
fn load_changed(rt: &impl Abort, from: &Tables, change: Change, into: &mut Tables) {
    for table in OWNERS_FIRST {
        load_table(rt, from, table, change, into);
    }
    if has_sixth_line(change) {
        let fifth = *from.line(1, 1, 9, 5).expect(rt, "a line");
        let sixth = OrderLineRow { number: 6, ..fifth };
        load(rt, into, Table::OrderLine, Row::OrderLine(sixth));
    }
}
