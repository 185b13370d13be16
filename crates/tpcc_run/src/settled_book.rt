//! The book of a run at its end.
ghost use Rattle.std.specs.Prelude.{◌≡◌, IfErr, IfOk, IsErrOf, None, OnErr, Some};
ghost use Rattle.tpcc_population.specs.Opening.{opening_scale};
ghost use Rattle.tpcc_audit.specs.Settlement.{AllSeen, all_receipts};
ghost use Rattle.tpcc_run.specs.Outcome.{HasCut, HasShown, HasSettled, opening_purse};
ghost use Rattle.tpcc_run.specs.Returned.{HaveAllComeBack};
ghost use Rattle.tpcc_run.specs.ShownRun.{run_part};
ghost use Rattle.tpcc_run.specs.declared.threads.fault.RunFault.{RunFault};
ghost use Rattle.tpcc_run.specs.declared.threads.fault.RunFault.TheVariants.{Missing};

use crate::plan::Plan;
use crate::receipt_lines::put_receipts;
use crate::threads::fault::RunFault;
use crate::threads::results::ThreadResults;
use std::alloc::Global;
use std::io::Write;
use tpcc_audit::settle;
use tpcc_book::{Book, Naming};
use tpcc_population::Opening;
use tpcc_rows::recall;
use tpcc_show::{OutputFault, Part, ShownBook, show};
use tpcc_terminal::Receipt;
use tpcc_text::{Blocks, Report};
use tpcc_turns::{SeatedPurse, Seating, Turns};

/// The book of a run at its end, and what it comes to.
pub(crate) struct SettledBook<N: Naming> {
    /// The book, all purses of it handed in.
    pub book: Book<N>,
    /// The receipts of each purse's terminal, in the order of the terminals' numbers; a server's has none.
    pub receipts: Vec<Vec<Receipt>>,
    /// Its entries, what was paid, and the rise.
    pub report: Report,
}

// By hand, so that who lets it go proves nothing of how the book goes.
impl<N: Naming> Drop for SettledBook<N> {
    fn drop(self) {
        let SettledBook {
            book: _,
            receipts: _,
            report: _,
        } = self;
    }
}

impl<N: Naming> ShownBook for SettledBook<N> {
    ghost text = { λ settled part.
        run_part settled.book (all_receipts settled.receipts.items) part };

    fn put_part<W: Write>(
        &self,
        alloc: Global,
        part: Part,
        blocks: &mut Blocks,
        out: &mut W,
    ) -> Result<(), OutputFault> {
        match part {
            Part::Receipts => put_receipts(alloc, self.receipts.as_slice(), blocks, out),
            _ => self.book.put_part(alloc, part, blocks, out),
        }
    }
}

/// The totals of a run that nothing stopped. The plan is lent for the clauses alone, which say whose purses these are.
pub(crate) fn end_run<N: Naming, T: Seating>(
    turns: Turns<N, T>,
    all: ThreadResults<N, T>,
    plan: &Plan,
) -> Result<SettledBook<N>, RunFault>
    requires seen { AllSeen all.purses.items (all_receipts all.receipts.items) }
    requires back { all.fault ≡ None
        → HaveAllComeBack (opening_scale turns) plan.now (opening_purse turns)
        all.purses.items all.receipts.items }
    ensures settled { IfOk result (λ s. HasSettled turns plan.now s.book s.receipts.items s.report) }
    ensures fault { (fault : RunFault) → all.fault ≡ Some fault → IsErrOf result fault }
{
    let ThreadResults {
        purses,
        receipts,
        fault,
    } = all;
    match fault {
        Some(fault) => Err(fault),
        None => totals_of(turns, purses, receipts, plan),
    }
}

fn totals_of<N: Naming, T: Seating>(
    turns: Turns<N, T>,
    purses: Vec<SeatedPurse<N, T>>,
    receipts: Vec<Vec<Receipt>>,
    plan: &Plan,
) -> Result<SettledBook<N>, RunFault>
    requires seen { AllSeen purses.items (all_receipts receipts.items) }
    requires back { HaveAllComeBack (opening_scale turns) plan.now (opening_purse turns)
        purses.items receipts.items }
    ensures settled { IfOk result (λ s. HasSettled turns plan.now s.book s.receipts.items s.report) }
    ensures missing { IfErr result (λ fault. fault ≡ Missing) }
{
    // For the proof: whose purses these are.
    recall!(plan);
    match settle(turns, purses) {
        Ok((book, report)) => Ok(SettledBook {
            book,
            receipts,
            report,
        }),
        Err(_left) => Err(RunFault::Missing),
    }
}

/// Writes parts of a settled book. The opening and the plan are lent for the clauses alone, which say whose totals these are.
pub(crate) fn show_settled<N: Naming, W: Write>(
    alloc: Global,
    settled: &SettledBook<N>,
    parts: &[Part],
    out: &mut W,
    opening: &Opening,
    plan: &Plan,
) -> Result<Report, RunFault>
    requires totals { HasSettled opening.now plan.now settled.now.book settled.now.receipts.items
        settled.now.report }
    ensures shown { IfOk result (λ report.
        HasShown opening.now plan.now parts.now report (W.contents out.old) (W.contents out.new)) }
    ensures part { OnErr result
        (HasCut opening.now plan.now parts.now (W.contents out.old) (W.contents out.new)) }
{
    // For the proof: whose totals these are.
    recall!(opening);
    recall!(plan);
    let report = settled.report;
    match show(alloc, settled, parts, out) {
        Ok(()) => Ok(report),
        Err(OutputFault::Write) => Err(RunFault::Write),
        Err(OutputFault::NoMemory) => Err(RunFault::NoMemory),
    }
}
