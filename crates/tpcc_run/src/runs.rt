//! Runs, from an opening to what is written of the settled book.
ghost use Rattle.std.specs.Prelude.{◌≡◌, IfOk, OnErr};
ghost use Rattle.tpcc_population.specs.Opening.{opening_scale};
ghost use Rattle.tpcc_population.specs.declared.opening.Opening.{Opening};
ghost use Rattle.tpcc_run.specs.Outcome.{HasReported, HasShown, HasShownPrefix, HasSettled};
ghost use Rattle.tpcc_run.specs.Plans.{IsPlan};

use crate::plan::Plan;
use crate::run_context::RunContext;
use crate::settled_book::{SettledBook, end_run, show_settled};
use crate::threads::RunThreads;
use crate::threads::fault::RunFault;
use std::alloc::{AllocError, Global};
use std::io::Write;
use std::marker::Brand;
use std::sync::Wait;
use std::thread::Threads;
use tpcc_book::{Blanks, Naming};
use tpcc_population::{Opening, Scale};
use tpcc_server::OneTurn;
use tpcc_show::Part;
use tpcc_text::Report;
use tpcc_turns::{Seating, UnnamedTurns};

/// Runs terminals, a delivery runner and the plan's servers on the book of an opening, each in a thread of its own;
/// `make` gives the call of each request. Where the plan has no servers each thread makes its own turns. Once all
/// are joined it settles the book with the purses and writes the report: the entries, and what was paid and the
/// rise of W_YTD, which are equal. It waits.
///
/// NoMemory where a growth or a thread was refused, Missing where a purse did not come back, Write where
/// the writer fails.
#[tactic(auto, using(crate::proofs::Reported::report_of_totals))]
pub fn run<
    W: Write + Drop,
    C: OneTurn + Send,
    F: Fn(Global) -> Result<C, AllocError> + Sync,
    R: Threads + Wait + Sync,
>(rt: &R, alloc: Global, opening: &Opening, plan: &Plan, out: W, make: F) -> Result<W, RunFault>
    requires plan { IsPlan plan.now }
    requires make { F.IsAlwaysCallable make }
    ensures reported { IfOk result (λ w. HasReported opening.now plan.now (W.contents out) (W.contents w)) }
{
    let mut out = out;
    run_shown(rt, alloc, opening, plan, &[Part::Report], &mut out, make)?;
    Ok(out)
}

/// Runs terminals, a delivery runner and the plan's servers as [`run`] does, and writes parts of the settled book in
/// place of the report, the receipts that its terminals kept among them: one part alone as it is, several each under a
/// line `== PART`. Answers the totals that the report would have told.
///
/// Faults as of [`run`]; NoMemory also where a growth was refused while a part was written.
pub fn run_shown<
    W: Write,
    C: OneTurn + Send,
    F: Fn(Global) -> Result<C, AllocError> + Sync,
    R: Threads + Wait + Sync,
>(
    rt: &R,
    alloc: Global,
    opening: &Opening,
    plan: &Plan,
    parts: &[Part],
    out: &mut W,
    make: F,
) -> Result<Report, RunFault>
    requires plan { IsPlan plan.now }
    requires make { F.IsAlwaysCallable make }
    ensures shown { IfOk result (λ report.
        HasShown opening.now plan.now parts.now report (W.contents out.old) (W.contents out.new)) }
    ensures part { OnErr result
        (HasShownPrefix opening.now plan.now parts.now (W.contents out.old) (W.contents out.new)) }
{
    let lent = RunContext {
        rt,
        alloc,
        make: &make,
        plan: *plan,
    };
    lent.run_named::<Brand, W>(opening, parts, out, Blanks::new())
}

impl<
    'r,
    C: OneTurn + Send,
    F: Fn(Global) -> Result<C, AllocError> + Sync,
    R: Threads + Wait + Sync,
> RunContext<'r, F, R> {
    // Runs with a name for the book, and writes parts of what it comes to.
    #[tactic(auto, using(crate::proofs::Reported::nothing_shown, crate::proofs::Reported::cut_shown))]
    fn run_named<N: Naming + Send + Sync, W: Write>(
        &self,
        opening: &Opening,
        parts: &[Part],
        out: &mut W,
        blanks: Blanks,
    ) -> Result<Report, RunFault>
        requires make { F.IsAlwaysCallable self.now.make.now }
        requires entries { blanks.entries.name ≡ N.entries }
        requires cents { blanks.cents.name ≡ N.cents }
        ensures shown { IfOk result (λ report.
            HasShown opening.now self.now.plan parts.now report
            (W.contents out.old) (W.contents out.new)) }
        ensures part { OnErr result
            (HasShownPrefix opening.now self.now.plan parts.now
            (W.contents out.old) (W.contents out.new)) }
    {
        let settled = self.settle_book::<N>(opening, blanks)?;
        let shown = show_settled(self.alloc, &settled, parts, out, opening, &self.plan);
        // Let go by a call, which keeps the book's parts out of this function's proof.
        drop(settled);
        shown
    }

    // The book at the end of a run of all threads.
    fn settle_book<N: Naming + Send + Sync>(
        &self,
        opening: &Opening,
        blanks: Blanks,
    ) -> Result<SettledBook<N>, RunFault>
        requires make { F.IsAlwaysCallable self.now.make.now }
        requires entries { blanks.entries.name ≡ N.entries }
        requires cents { blanks.cents.name ≡ N.cents }
        ensures settled { IfOk result (λ s.
            HasSettled opening.now self.now.plan s.book s.receipts.items s.report) }
    {
        let Ok(turns) = UnnamedTurns::<N>::start(self.alloc, opening, blanks) else {
            return Err(RunFault::NoMemory);
        };
        self.run_seated::<N, Brand>(scale_of(opening), turns)
    }

    // What the run comes to, with a name for the seats.
    fn run_seated<N: Naming + Send + Sync, T: Seating + Send + Sync>(
        &self,
        scale: Scale,
        turns: UnnamedTurns<N>,
    ) -> Result<SettledBook<N>, RunFault>
        requires make { F.IsAlwaysCallable self.now.make.now }
        requires name { turns.table ≡ T.table }
        requires scale { scale ≡ opening_scale turns.opening }
        ensures settled { IfOk result (λ s.
            HasSettled turns.opening self.now.plan s.book s.receipts.items s.report) }
    {
        let (turns, first) = turns.name::<T>();
        let threads = RunThreads {
            rt: self.rt,
            alloc: self.alloc,
            turns: &turns,
            make: self.make,
            scale,
            plan: self.plan,
        };
        let all = threads.run(first);
        end_run(turns, all, &self.plan)
    }
}

fn scale_of(opening: &Opening) -> Scale
    ensures scale { result ≡ opening_scale opening.now }
{
    match *opening {
        Opening::Plain { scale } | Opening::Seeded { scale, .. } => scale,
    }
}
