//! How far a run has come, for whoever watches it at a terminal.
ghost use Rattle.std.specs.Prelude.{◌≡◌, ◌+◌, ◌≤◌, ◌↔◌, true};

use std::fmt::{self, Display, Formatter};
use std::io::{self, Eprint, Write};
use std::sync::atomic::{AtomicU64, Ordering};
use std::time::Clock;
use tpcc_book::{Register, Turned};
use tpcc_rows::Request;
use tpcc_run::Plan;
use tpcc_server::OneTurn;

// Goes to the line above at a terminal, and clears it.
const LINE_BEFORE: &str = "\x1b[1A\x1b[2K";

/// How many requests of a run are done, told on standard error once a second at most.
#[derive(Drop)]
pub struct Progress {
    /// How many requests the terminals and the delivery runner ask.
    asked: u64,
    /// How many of them are done, refused ones too.
    done: AtomicU64,
    /// When the last line was written, in milliseconds of the monotonic clock.
    told: AtomicU64,
    /// How many lines were written.
    lines: AtomicU64,
}

impl Progress {
    /// The progress of a run that begins now, with nothing done.
    pub fn begin<R: Clock>(rt: &R, plan: &Plan) -> Progress {
        let threads = u64::from(plan.terminals) + 1;
        Progress {
            asked: threads.saturating_mul(u64::from(plan.cards)),
            done: AtomicU64::new(0),
            told: AtomicU64::new(milliseconds(rt).unwrap_or(u64::MAX)),
            lines: AtomicU64::new(0),
        }
    }

    /// Writes a line in place of the last one, where that is a second old. Of threads that come at once one writes
    /// it. A clock that can't be read and a line that can't be written are passed over.
    pub fn tell<R: Clock + Eprint>(&self, rt: &R) {
        let Some(now) = milliseconds(rt) else {
            return;
        };
        let told = self.told.load(Ordering::SeqCst);
        let first = is_second_later(told, now)
            && self
                .told
                .compare_exchange(told, now, Ordering::SeqCst, Ordering::SeqCst)
                .is_ok();
        if first {
            let again = self.lines.fetch_add(1, Ordering::SeqCst) > 0;
            let line = self.line();
            let _ = rt.eprintln(ToldProgress { again, line });
        }
    }

    /// Takes the last line away, where there is one, once.
    pub fn end<R: Eprint>(&self, rt: &R) {
        if self.lines.swap(0, Ordering::SeqCst) > 0 {
            let _ = rt.eprint(LINE_BEFORE);
        }
    }

    /// The same writer, whose first call ends the progress: a terminal that shows both has no line between those written.
    pub fn end_at_first_write<'a, R: Eprint, W: Write>(
        &'a self,
        rt: &'a R,
        out: W,
    ) -> AfterProgress<'a, R, W>
        ensures contents { ⟦<AfterProgress<'a, R, W> as Write>⟧.contents result ≡ W.contents out }
    {
        AfterProgress {
            out,
            rt,
            progress: self,
        }
    }

    /// How far the run has come. What empties the queue of deliveries at the end is asked beyond the plan.
    pub fn line(&self) -> ProgressLine
        ensures most { result.done ≤ result.asked }
    {
        let done = self.done.load(Ordering::SeqCst);
        ProgressLine {
            done,
            asked: self.asked.max(done),
        }
    }

    /// A call that counts its turn as done.
    pub fn counting_call<C: OneTurn>(&self, call: C) -> CountedTurn<'_, C> {
        CountedTurn {
            call,
            done: &self.done,
        }
    }
}

/// A line of progress, such as `120 of 4600 requests`.
#[derive(Clone, Copy, Debug, PartialEq, Eq)]
pub struct ProgressLine {
    /// How many requests were served, refused ones among them.
    pub done: u64,
    /// How many are asked in all.
    pub asked: u64,
}

impl Display for ProgressLine {
    fn fmt<W: fmt::Write>(&self, f: &mut Formatter<W>) -> fmt::Result {
        write!(f, "{} of {} requests", self.done, self.asked)
    }
}

// A line in place of the one before, if there is one.
#[derive(Clone, Copy, Drop)]
struct ToldProgress {
    // Whether a line was told before, whose place it takes.
    again: bool,
    // What is told.
    line: ProgressLine,
}

impl Display for ToldProgress {
    fn fmt<W: fmt::Write>(&self, f: &mut Formatter<W>) -> fmt::Result {
        if self.again {
            f.write_str(LINE_BEFORE)?;
        }
        write!(f, "{}", self.line)
    }
}

/// A writer whose first call takes the last line of progress away.
#[derive(Drop)]
pub struct AfterProgress<'a, R, W> {
    /// The writer that is written.
    out: W,
    /// Where the line was written.
    rt: &'a R,
    /// What is ended.
    progress: &'a Progress,
}

impl<'a, R: Eprint, W: Write> AfterProgress<'a, R, W> {
    /// The writer that was written.
    pub fn into_inner(self) -> W
        ensures contents { W.contents result ≡ ⟦<AfterProgress<'a, R, W> as Write>⟧.contents self.entry }
    {
        self.out
    }
}

impl<R: Eprint, W: Write> Write for AfterProgress<'_, R, W> {
    ghost contents = { λ w. W.contents w.out };

    fn write(&mut self, buf: &[u8]) -> io::Result<usize> {
        self.progress.end(self.rt);
        self.out.write(buf)
    }

    fn flush(&mut self) -> io::Result<()> {
        self.out.flush()
    }
}

/// A call that makes one turn, and counts it.
#[derive(Drop)]
pub struct CountedTurn<'a, C> {
    /// The call that makes the turn.
    call: C,
    /// How many turns were made, of all threads.
    done: &'a AtomicU64,
}

impl<C: OneTurn> OneTurn for CountedTurn<'_, C> {
    fn turn_once(
        self,
        register: &mut Register,
        request: Request,
        terminal: u32,
        number: u64,
    ) -> Turned {
        let CountedTurn { call, done } = self;
        let turned = call.turn_once(register, request, terminal, number);
        done.fetch_add(1, Ordering::SeqCst);
        turned
    }
}

// Whether a line told at one millisecond leaves room for another at the other.
fn is_second_later(told: u64, now: u64) -> bool
    ensures later { (result ≡ true) ↔ (told + 1000 ≤ now) }
{
    now.checked_sub(told).is_some_and(|since| since >= 1000)
}

// What the monotonic clock shows, in milliseconds.
fn milliseconds<R: Clock>(rt: &R) -> Option<u64> {
    let since_start = rt.monotonic().ok()?;
    u64::try_from(since_start.as_millis()).ok()
}
