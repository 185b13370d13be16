//! Each condition broken by one change of the opening, and condition 11 by what comes behind it.
use crate::samples::requests::scale;
use crate::tables::changes::Change;
use crate::tables::opening::{AtOpening, at_changed, at_opening};
use std::alloc::AllocGlobal;
use std::process::Abort;
use tpcc_conditions::{Broken, check, check_opening};
use tpcc_tables::Tables;

/// Condition, district and number.
pub fn at(condition: u32, district: u32, number: u32) -> Result<(), Broken> {
    Err(Broken {
        condition,
        warehouse: 1,
        district,
        number,
    })
}

/// The conditions answer so.
fn is_broken(rt: &impl Abort, tables: &Tables, answer: Result<(), Broken>) {
    assert!(rt; check(tables) == answer);
}

#[test]
fn the_first_broken_condition_is_named(rt: HostRuntime) {
    at_opening(&rt, AreNamed);
    at_opening(&rt, IsOpeningOfTen)
}

#[derive(Drop)]
struct AreNamed;

impl AtOpening for AreNamed {
    fn happens<R: Abort + AllocGlobal>(self, rt: &R, opening: &mut Tables) {
        let changes = [
            (Change::Nothing, Ok(())),
            (Change::WarehouseTotal, at(1, 0, 0)),
            (Change::NewOrderLeftOut(1, 10), at(2, 1, 0)),
            (Change::NewOrderLeftOut(1, 9), at(3, 1, 0)),
            (Change::LineAdded, at(4, 1, 0)),
            (Change::NewOrderLeftOut(1, 8), at(5, 1, 8)),
            (Change::LineCounts, at(6, 1, 4)),
            (Change::LineUndelivered, at(7, 1, 2)),
            (Change::BothTotals, at(8, 0, 0)),
            (Change::CentInAnotherDistrict, at(9, 1, 0)),
            (Change::Balance, at(10, 1, 3)),
            (Change::YtdPayment, at(12, 1, 3)),
        ];
        for (change, answer) in changes {
            at_changed(
                rt,
                opening,
                change,
                |rt, tables| is_broken(rt, tables, answer),
            );
        }
    }
}

/// Ten customers of each district, and not twenty.
#[derive(Drop)]
struct IsOpeningOfTen;

impl AtOpening for IsOpeningOfTen {
    fn happens<R: Abort + AllocGlobal>(self, rt: &R, opening: &mut Tables) {
        let tables = opening;
        let ten = check_opening(tables, scale(rt, 10));
        let twenty = check_opening(tables, scale(rt, 20));
        assert!(rt; [ten, twenty] == [Ok(()), at(11, 1, 0)]);
    }
}
