//! A run that the words ask for.
ghost use Rattle.std.specs.Prelude.{◌≡◌, Err, IfErr, IsOk, OnErr, OnOk};
ghost use Rattle.tpcc_run.specs.Outcome.{HasShownPrefix};
ghost use Rattle.tpcc_run.specs.Plans.{IsPlan};
ghost use Rattle.tpcc_run.specs.Internal.Plans.{plan_once};
ghost use Rattle.tpcc_program.specs.Commands.{HasRunPlan, HasToldRun, parts_or_report};

use crate::fault::ProgramFault;
use crate::progress::{CountedTurn, Progress};
use crate::timing::Timing;
use std::alloc::{AllocError, Global};
use std::io::{Eprint, Write};
use std::sync::Wait;
use std::thread::Threads;
use std::time::Clock;
use tpcc_population::Opening;
use tpcc_run::{Plan, RunFault, run_shown};
use tpcc_server::OneTurn;
use tpcc_show::Part;
use tpcc_text::Report;

/// A run that is asked for: what it runs on, its opening and plan, and the parts of its book that are written,
/// or none, which is the report alone.
#[derive(Drop)]
pub(crate) struct RunCommand<'r, R> {
    /// Threads, clock, waiting and standard error.
    pub rt: &'r R,
    /// Where it takes memory.
    pub alloc: Global,
    /// The opening of its book.
    pub opening: &'r Opening,
    /// How many of what it has.
    pub plan: &'r Plan,
    /// What is written.
    pub parts: &'r [Part],
    /// The plan is in its ranges.
    pub ghost planned: { IsPlan plan.now } by { plan_once plan.now },
}

impl<'r, R: Eprint + Clock + Threads + Wait + Sync> RunCommand<'r, R> {
    /// Writes what is asked for, and tells on standard error how far the run has come or how long it
    /// took. Gives the writer back.
    pub(crate) fn write<W: Write, C: OneTurn + Send, F: Fn(Global) -> Result<C, AllocError> + Sync>(
        &self,
        timed: bool,
        watched: bool,
        out: W,
        make: F,
    ) -> (W, Result<(), ProgramFault>)
        requires make { F.IsAlwaysCallable make }
        ensures ran { HasRunPlan self.now.opening.now self.now.plan.now self.now.parts.now
            (W.contents out) (W.contents result.0) result.1 }
    {
        if timed {
            return self.write_timed(out, make);
        }
        if watched {
            return self.write_watched(out, make);
        }
        self.write_parts(out, make)
    }

    fn write_parts<W: Write, C: OneTurn + Send, F: Fn(Global) -> Result<C, AllocError> + Sync>(
        &self,
        out: W,
        make: F,
    ) -> (W, Result<(), ProgramFault>)
        requires make { F.IsAlwaysCallable make }
        ensures ran { HasRunPlan self.now.opening.now self.now.plan.now self.now.parts.now
            (W.contents out) (W.contents result.0) result.1 }
    {
        let mut out = out;
        let ended = self.show(&mut out, make);
        (out, self.end(ended))
    }

    // Tells how far the run has come whenever a terminal asks its next request, up to the first byte that is written.
    fn write_watched<W: Write, C: OneTurn + Send, F: Fn(Global) -> Result<C, AllocError> + Sync>(
        &self,
        out: W,
        make: F,
    ) -> (W, Result<(), ProgramFault>)
        requires make { F.IsAlwaysCallable make }
        ensures ran { HasRunPlan self.now.opening.now self.now.plan.now self.now.parts.now
            (W.contents out) (W.contents result.0) result.1 }
    {
        let rt = self.rt;
        let begun = Progress::begin(rt, self.plan);
        let progress = &begun;
        let mut watched = progress.end_at_first_write(rt, out);
        let ended = self.show(
            &mut watched,
            |alloc: Global| -> Result<CountedTurn<'_, C>, AllocError> {
                progress.tell(rt);
                Ok(progress.counting_call(make(alloc)?))
            },
        );
        progress.end(rt);
        (watched.into_inner(), self.end(ended))
    }

    // Tells how long the opening and the requests took.
    fn write_timed<W: Write, C: OneTurn + Send, F: Fn(Global) -> Result<C, AllocError> + Sync>(
        &self,
        out: W,
        make: F,
    ) -> (W, Result<(), ProgramFault>)
        requires make { F.IsAlwaysCallable make }
        ensures ran { HasRunPlan self.now.opening.now self.now.plan.now self.now.parts.now
            (W.contents out) (W.contents result.0) result.1 }
    {
        let rt = self.rt;
        let begun = Timing::begin(rt);
        let timing = &begun;
        let mut timed = timing.time_writer(rt, out);
        let ended = self.show(&mut timed, |alloc: Global| -> Result<C, AllocError> {
            timing.mark_opened(rt);
            make(alloc)
        });
        let out = timed.into_inner();
        match ended {
            Ok(report) => {
                self.tell_report(&report);
                let _ = rt.eprint(timing.times(rt, report.entries));
                (out, Ok(()))
            }
            Err(fault) => (out, Err(ProgramFault::Run(fault))),
        }
    }

    // The run, with its report or the parts that are asked for.
    #[tactic(auto, using(crate::proofs::ToldRuns::has_told))]
    fn show<W: Write, C: OneTurn + Send, F: Fn(Global) -> Result<C, AllocError> + Sync>(
        &self,
        out: &mut W,
        make: F,
    ) -> Result<Report, RunFault>
        requires make { F.IsAlwaysCallable make }
        ensures shown { OnOk result (HasToldRun self.now.opening.now self.now.plan.now
            self.now.parts.now (W.contents out.old) (W.contents out.new)) }
        ensures part { OnErr result (HasShownPrefix self.now.opening.now self.now.plan.now
            (parts_or_report self.now.parts.now) (W.contents out.old) (W.contents out.new)) }
    {
        let parts = parts_or_report(self.parts);
        run_shown(
            self.rt,
            self.alloc,
            self.opening,
            self.plan,
            parts,
            out,
            make,
        )
    }

    // How the program ends where the run ended so.
    fn end(&self, ended: Result<Report, RunFault>) -> Result<(), ProgramFault>
        ensures ok { OnOk ended (IsOk result) }
        ensures err { IfErr ended (λ fault. result ≡ Err (ProgramFault.Run fault)) }
    {
        match ended {
            Ok(report) => {
                self.tell_report(&report);
                Ok(())
            }
            Err(fault) => Err(ProgramFault::Run(fault)),
        }
    }

    // Tells a report that is not among the parts. One that can't be written is passed over.
    fn tell_report(&self, report: &Report) {
        if !parts_or_report(self.parts).contains(&Part::Report) {
            let _ = eprint!(self.rt; "{report}");
        }
    }
}

// The report where no part is asked for.
fn parts_or_report(parts: &[Part]) -> &[Part]
    ensures parts { result.now ≡ parts_or_report parts.now }
{
    if parts.is_empty() {
        &[Part::Report]
    } else {
        parts
    }
}
