//! Turns that are made again where they were refused memory.
use crate::samples::purses::Settlement::Totals;
use crate::samples::purses::{Back, Purses};
use crate::turns::{AtTurns, at_turns, serve_three};
use std::alloc::Global;
use std::process::Abort;
use std::sync::Wait;
use tpcc_book::Naming;
use tpcc_turns::{Seating, Turns};

#[test]
fn all_purses_are_settled_and_the_first_counts_among_them(rt: HostRuntime) {
    let wanted = Totals(3, 350);
    assert!(rt;
        at_turns(&rt, rt.alloc(), EachPurse, wanted).is_ok()
            || at_turns(&rt, rt.alloc(), EachPurse, wanted).is_ok()
    );
}

/// Each purse comes back.
#[derive(Drop)]
struct EachPurse;

impl AtTurns for EachPurse {
    fn happens<N: Naming, T: Seating, R: Wait + Abort>(
        self,
        rt: &R,
        alloc: Global,
        turns: &Turns<N, T>,
        purses: Purses<N, T>,
    ) -> Back<N, T> {
        serve_three(rt, turns, purses).all(rt, alloc)
    }
}
