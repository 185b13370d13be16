//! Openings, loads, transactions and dumps that are made again where memory was refused.
ghost use Rattle.std.specs.Prelude.{◌≡◌, OnErr};
ghost use Rattle.tpcc_rows.specs.WellKeyed.{IsStocked};

use crate::samples::requests::{let_go, opening, order, scale};
use crate::tables::changes::Change;
use crate::tables::conditions::at;
use crate::tables::opening::{AtOpening, at_changed, at_opening, is_opening, row_at};
use crate::tables::totals::{delivery_is_counted, order_is_counted};
use crate::tables::transactions::{balance, delivered_in};
use crate::texts::dumps::dump_text;
use std::alloc::{AllocGlobal, Global};
use std::process::Abort;
use tpcc_conditions::{check, check_opening};
use tpcc_money::Cents;
use tpcc_new_order::enter;
use tpcc_population::fill;
use tpcc_rows::{Entered, Order, Refusal, Table};
use tpcc_tables::Tables;

#[test]
fn an_opening_is_filled(rt: HostRuntime) {
    let tables = match fill(rt.alloc(), &opening(&rt)) {
        Ok(tables) => tables,
        Err(_) => fill(rt.alloc(), &opening(&rt)).expect(&rt, "an opening"),
    };
    is_opening(&rt, &tables);
    let_go(tables)
}

#[test]
fn rows_are_loaded_at_the_places_of_their_keys(rt: HostRuntime) {
    at_opening(&rt, AreLoaded)
}

/// Tables that were loaded row by row are those of the opening.
#[derive(Drop)]
struct AreLoaded;

impl AtOpening for AreLoaded {
    fn happens<R: Abort + AllocGlobal>(self, rt: &R, opening: &mut Tables) {
        at_changed(rt, opening, Change::Nothing, |rt, tables| {
            are_same(rt, tables, opening)
        })
    }
}

/// All rows of all tables are equal, place by place.
fn are_same(rt: &impl Abort, left: &Tables, right: &Tables) {
    for table in Table::ALL {
        is_same_table(rt, left, right, table);
    }
}

/// The same rows at the same places.
fn is_same_table(rt: &impl Abort, left: &Tables, right: &Tables, table: Table) {
    assert!(rt; left.count(table) == right.count(table));
    for place in 0..left.count(table) {
        assert!(rt; row_at(rt, left, table, place) == row_at(rt, right, table, place));
    }
}

#[test]
fn an_order_is_entered(rt: HostRuntime) {
    at_opening(&rt, EnterOne)
}

/// An order of five lines, which is entered again where it was refused memory and nothing changed.
#[derive(Drop)]
struct EnterOne;

impl AtOpening for EnterOne {
    fn happens<R: Abort + AllocGlobal>(self, rt: &R, opening: &mut Tables) {
        let tables = opening;
        let order = order(rt);
        let total = match total(tables, &order) {
            Ok(total) => Ok(total),
            Err(_) => {
                is_opening(rt, tables);
                total(tables, &order)
            }
        };
        assert!(rt; total == Ok(Cents::new(5495)));
        order_is_counted(rt, tables);
    }
}

/// The total of an order that is entered, or 0 of one that is rolled back.
fn total(tables: &mut Tables, order: &Order) -> Result<Cents, Refusal>
    requires stocked { IsStocked tables.old.rows }
    ensures same { OnErr result (tables.new.rows ≡ tables.old.rows) }
{
    match enter(tables, order) {
        Ok(Entered::Accepted(reply)) => Ok(reply.total),
        Ok(Entered::RolledBack(_)) => Ok(Cents::new(0)),
        Err(refusal) => Err(refusal),
    }
}

#[test]
fn payments_are_made_from_the_least_to_the_greatest_amount(rt: HostRuntime) {
    at_opening(&rt, PayEach)
}

#[derive(Drop)]
struct PayEach;

impl AtOpening for PayEach {
    fn happens<R: Abort + AllocGlobal>(self, rt: &R, opening: &mut Tables) {
        let tables = opening;
        let amounts = [
            (99, Err(Refusal::Amount)),
            (100, Ok(Cents::new(-1_100))),
            (500_000, Ok(Cents::new(-501_100))),
            (500_001, Err(Refusal::Amount)),
        ];
        for (cents, answer) in amounts {
            assert!(rt; balance(rt, tables, 1, cents) == answer);
        }
        assert!(rt; check(tables) == Ok(()));
    }
}

#[test]
fn a_ticket_is_queued_whose_ten_runs_leave_condition_11_behind(rt: HostRuntime) {
    at_opening(&rt, LeaveBehind)
}

#[derive(Drop)]
struct LeaveBehind;

impl AtOpening for LeaveBehind {
    fn happens<R: Abort + AllocGlobal>(self, rt: &R, opening: &mut Tables) {
        let tables = opening;
        let delivered = delivered_in(rt, tables, 10);
        assert!(rt; (delivered, tables.oldest_new(1, 10)) == (Some(8), Some(9)));
        delivery_is_counted(rt, tables);
        let answers = [check(tables), check_opening(tables, scale(rt, 10))];
        assert!(rt; answers == [Ok(()), at(11, 1, 0)]);
    }
}

#[test]
fn a_table_is_dumped(rt: HostRuntime) {
    at_opening(&rt, IsDumped)
}

#[derive(Drop)]
struct IsDumped;

impl AtOpening for IsDumped {
    fn happens<R: Abort + AllocGlobal>(self, rt: &R, opening: &mut Tables) {
        let tables = opening;
        assert!(rt; has_dump(rt.alloc(), tables) || has_dump(rt.alloc(), tables));
    }
}

/// Whether the ITEM table has a dump that isn't empty.
fn has_dump(alloc: Global, tables: &Tables) -> bool {
    match dump_text(alloc, tables, Table::Item) {
        Some(text) => !text.is_empty(),
        None => false,
    }
}
