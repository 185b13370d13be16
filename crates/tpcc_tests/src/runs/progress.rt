//! When progress is told, and what its lines say.
use crate::samples::plain_turn::PlainTurn;
use crate::samples::requests::opening;
use std::fmt::Display;
use std::io;
use std::io::Eprint;
use std::sync::atomic::{AtomicU64, Ordering};
use std::time::{Clock, Duration};
use tpcc_book::Register;
use tpcc_money::Moment;
use tpcc_program::{Progress, ProgressLine};
use tpcc_rows::{Request, StockQuery};
use tpcc_run::{Plan, Service};
use tpcc_server::OneTurn;

/// A clock that stands at a millisecond, and a count of the lines that were written.
#[derive(Drop)]
struct Watch {
    now: AtomicU64,
    lines: AtomicU64,
}

impl Watch {
    fn lines_at(&self, progress: &Progress, millisecond: u64) -> u64 {
        self.now.store(millisecond, Ordering::SeqCst);
        progress.tell(self);
        self.lines.load(Ordering::SeqCst)
    }
}

impl Clock for Watch {
    fn monotonic(&self) -> io::Result<Duration> {
        Ok(Duration::from_millis(self.now.load(Ordering::SeqCst)))
    }

    fn since_1970(&self) -> io::Result<Duration> {
        self.monotonic()
    }
}

impl Eprint for Watch {
    fn eprint<D: Display + Drop>(&self, _value: D) -> io::Result<()> {
        Ok(())
    }

    fn eprintln<D: Display + Drop>(&self, _value: D) -> io::Result<()> {
        self.lines.fetch_add(1, Ordering::SeqCst);
        Ok(())
    }
}

fn plan() -> Plan {
    Plan {
        terminals: 45,
        service: Service::Direct,
        cards: 100,
        seed: 1,
        moment: Moment::new(0),
    }
}

#[test]
fn a_line_is_written_once_a_second(rt: HostRuntime) {
    let watch = Watch {
        now: AtomicU64::new(5_000),
        lines: AtomicU64::new(0),
    };
    let progress = Progress::begin(&watch, &plan());
    for (millisecond, lines) in [
        (5_000, 0),
        (5_999, 0),
        (6_000, 1),
        (6_500, 1),
        (6_999, 1),
        (9_000, 2),
        (8_000, 2),
        (10_000, 3),
    ] {
        assert!(rt;
            watch.lines_at(&progress, millisecond) == lines,
            "at {millisecond}"
        );
    }
}

#[test]
fn a_line_says_how_many_are_done(rt: HostRuntime) {
    let line = ProgressLine {
        done: 120,
        asked: 4_600,
    };
    let text = line.to_string(rt.alloc()).expect(&rt, "memory for a line");
    let is_so = text.as_str() == "120 of 4600 requests";
    drop(text);
    assert!(rt; is_so);
}

/// Makes a turn that is counted.
fn turn_counted(register: &mut Register, progress: &Progress) -> Option<u64> {
    let request = Request::Stock(StockQuery {
        warehouse: 1,
        district: 1,
        threshold: 10,
    });
    let call = progress.counting_call(PlainTurn);
    call.turn_once(register, request, 1, 0).place
}

/// How many are done and how many are asked.
fn told(progress: &Progress) -> (u64, u64) {
    let line = progress.line();
    (line.done, line.asked)
}

#[test]
fn a_turn_is_counted_as_done(rt: HostRuntime) {
    let started = Register::start(rt.alloc(), &opening(&rt));
    let mut register = started.expect(&rt, "memory for a register");
    let progress = Progress::begin(&rt, &plan());
    let before = told(&progress);
    let place = turn_counted(&mut register, &progress);
    drop(register);
    assert!(rt; (before, place, told(&progress)) == ((0, 4_600), Some(0), (1, 4_600)));
}
