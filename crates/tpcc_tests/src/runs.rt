//! Runs whose calls are refused memory. Other runs are cases of the built program.
ghost use Rattle.std.specs.Prelude.{◌≡◌, ◌≤◌};

mod progress;

use crate::samples::plain_turn::PlainTurn;
use crate::samples::requests::opening;
use std::alloc::{AllocError, Global};
use std::process::Abort;
use std::sync::Wait;
use std::sync::atomic::{AtomicU64, Ordering};
use std::thread::Threads;
use tpcc_money::Moment;
use tpcc_run::{Plan, RunFault, Service, run};

/// Whether a run of 23 cards wants memory, where the calls behind the first ones are refused it.
fn is_refused_after<R: Threads + Wait + Abort + Sync>(rt: &R, alloc: Global, granted: u64) -> bool {
    let asked = AtomicU64::new(0);
    let count = &asked;
    let make = |_alloc: Global| -> Result<PlainTurn, AllocError> {
        if count.fetch_add(1, Ordering::SeqCst) < granted {
            Ok(PlainTurn)
        } else {
            Err(AllocError)
        }
    };
    let plan = Plan {
        terminals: 2,
        service: Service::Servers {
            count: 2,
            retire: 0,
        },
        cards: 23,
        seed: 1,
        moment: Moment::new(0),
    };
    let ended = run(rt, alloc, &opening(rt), &plan, Vec::new(alloc), make);
    matches!(ended, Err(RunFault::NoMemory))
}

/// At the first call of all, at that of a terminal or the delivery runner, and at the first one behind
/// the 69 of their cards, which is the runner's when all others are joined.
#[test]
fn a_run_whose_calls_are_refused_memory_says_so(rt: HostRuntime) {
    for granted in [0, 1, 40, 69] {
        assert!(rt; is_refused_after(&rt, rt.alloc(), granted));
    }
}
