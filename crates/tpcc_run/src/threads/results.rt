//! What the threads of a run give back.
ghost use Rattle.std.specs.Prelude.{◌≡◌, ◌<◌, ◌≤◌, ◌⊎◌, ◌∷◌, [], None, Some, true};
ghost use Rattle.tpcc_terminal.specs.Receipts.{AllStand};
ghost use Rattle.tpcc_audit.specs.Settlement.{AllSeen, all_receipts};
ghost use Rattle.tpcc_run.specs.Internal.Faults.{HasNoted, noted};
ghost use Rattle.tpcc_run.specs.Returned.{HasKept, returned_of};
ghost use Rattle.tpcc_run.specs.Internal.Returned.{HasKeptBack};
ghost use Rattle.tpcc_run.specs.declared.threads.fault.RunFault.TheVariants.{NoMemory};

use crate::threads::fault::RunFault;
use crate::threads::operator::Operator;
use crate::threads::operator_work::OperatorBack;
use std::alloc::Global;
use tpcc_book::Naming;
use tpcc_terminal::Receipt;
use tpcc_turns::{SeatedPurse, Seating};

/// The purses that came back, with their receipts, and the fault that the run is to end with.
#[derive(Drop)]
pub struct ThreadResults<N: Naming, T: Seating> {
    /// The terminals' purses in the order of their numbers, the delivery runner's, the book's first, and the servers'.
    pub purses: Vec<SeatedPurse<N, T>>,
    /// The receipts of each purse's terminal; a server's has none.
    pub receipts: Vec<Vec<Receipt>>,
    /// Want of memory where there was some, else the last fault that was noted.
    pub fault: Option<RunFault>,
}

impl<N: Naming, T: Seating> ThreadResults<N, T> {
    /// Nothing came back yet.
    pub(crate) fn new(alloc: Global) -> ThreadResults<N, T>
        ensures purses { result.purses.items ≡ [] }
        ensures receipts { result.receipts.items ≡ [] }
        ensures fault { result.fault ≡ None }
    {
        ThreadResults {
            purses: Vec::new(alloc),
            receipts: Vec::new(alloc),
            fault: None,
        }
    }

    /// What comes of a run that was refused memory before any thread was started: no purse, and the fault NoMemory.
    pub(crate) fn without_memory(alloc: Global) -> ThreadResults<N, T>
        ensures purses { result.purses.items ≡ [] }
        ensures receipts { result.receipts.items ≡ [] }
        ensures told { result.fault ≡ Some NoMemory }
    {
        ThreadResults {
            purses: Vec::new(alloc),
            receipts: Vec::new(alloc),
            fault: Some(RunFault::NoMemory),
        }
    }

    /// Notes a fault; want of memory comes before a purse that is missing.
    pub(crate) fn note(&mut self, fault: RunFault)
        requires seen { AllSeen self.old.purses.items (all_receipts self.old.receipts.items) }
        ensures seen { AllSeen self.new.purses.items (all_receipts self.new.receipts.items) }
        ensures noted { self.new.fault ≡ noted self.old.fault fault }
        ensures purses { self.new.purses ≡ self.old.purses }
        ensures receipts { self.new.receipts ≡ self.old.receipts }
    {
        if self.fault != Some(RunFault::NoMemory) {
            self.fault = Some(fault);
        }
    }

    /// Notes want of memory where fewer threads were started than are wanted: one that can't be made counts as that.
    pub(crate) fn note_started(&mut self, started: usize, wanted: u32)
        requires seen { AllSeen self.old.purses.items (all_receipts self.old.receipts.items) }
        ensures seen { AllSeen self.new.purses.items (all_receipts self.new.receipts.items) }
        ensures noted { started < wanted → self.new.fault ≡ Some NoMemory }
        ensures enough { self.new.fault ≡ None → wanted ≤ started }
        ensures before { self.new.fault ≡ None → self.old.fault ≡ None }
        ensures purses { self.new.purses ≡ self.old.purses }
        ensures receipts { self.new.receipts ≡ self.old.receipts }
        ensures same { wanted ≤ started → self.new ≡ self.old }
    {
        if started < wanted as usize {
            self.note(RunFault::NoMemory);
        }
    }

    /// Keeps what a terminal's thread gave back.
    pub(crate) fn take_in<C>(&mut self, back: OperatorBack<'_, N, T, C>)
        requires seen { AllSeen self.old.purses.items (all_receipts self.old.receipts.items) }
        ensures seen { AllSeen self.new.purses.items (all_receipts self.new.receipts.items) }
        ensures noted { HasNoted back.entry self.old.fault self.new.fault }
        ensures kept { self.new.fault ≡ None → HasKeptBack back.entry
            self.old.purses.items self.old.receipts.items
            self.new.purses.items self.new.receipts.items }
        ensures before { self.new.fault ≡ None → self.old.fault ≡ None }
    {
        match back {
            OperatorBack::All(operator) => self.keep_operator(operator),
            OperatorBack::Short(operator) => {
                self.note(RunFault::NoMemory);
                self.keep_operator(operator);
            }
            OperatorBack::Missing => self.note(RunFault::Missing),
        }
    }

    fn keep_operator<C>(&mut self, operator: Operator<'_, N, T, C>)
        requires seen { AllSeen self.old.purses.items (all_receipts self.old.receipts.items) }
        ensures seen { AllSeen self.new.purses.items (all_receipts self.new.receipts.items) }
        ensures noted { (self.new.fault ≡ self.old.fault) ⊎ (self.new.fault ≡ Some NoMemory) }
        ensures kept { self.new.fault ≡ None → HasKept (returned_of operator.entry ∷ [])
            self.old.purses.items self.old.receipts.items
            self.new.purses.items self.new.receipts.items }
    {
        let (purse, receipts) = operator.into_parts();
        self.keep(purse, receipts);
    }

    /// Keeps a purse with its receipts. Where there is no room it lets one or both go, and notes want of memory.
    pub(crate) fn keep(&mut self, purse: SeatedPurse<N, T>, receipts: Vec<Receipt>)
        requires receipts { AllStand purse.front receipts.items }
        requires seen { AllSeen self.old.purses.items (all_receipts self.old.receipts.items) }
        ensures seen { AllSeen self.new.purses.items (all_receipts self.new.receipts.items) }
        ensures noted { (self.new.fault ≡ self.old.fault) ⊎ (self.new.fault ≡ Some NoMemory) }
        ensures kept { self.new.fault ≡ None
            → HasKept (record { purse = purse; receipts = receipts.items } ∷ [])
            self.old.purses.items self.old.receipts.items
            self.new.purses.items self.new.receipts.items }
    {
        if !hold(&mut self.purses, &mut self.receipts, purse, receipts) {
            self.note(RunFault::NoMemory);
        }
    }
}

// Adds a purse and its receipts; whether there was room for both.
fn hold<N: Naming, T: Seating>(
    purses: &mut Vec<SeatedPurse<N, T>>,
    kept: &mut Vec<Vec<Receipt>>,
    purse: SeatedPurse<N, T>,
    receipts: Vec<Receipt>,
) -> bool
    requires receipts { AllStand purse.front receipts.items }
    requires seen { AllSeen purses.old.items (all_receipts kept.old.items) }
    ensures seen { AllSeen purses.new.items (all_receipts kept.new.items) }
    ensures kept { result ≡ true
        → HasKept (record { purse = purse; receipts = receipts.items } ∷ [])
        purses.old.items kept.old.items purses.new.items kept.new.items }
{
    if purses.reserve(1).is_err() {
        return false;
    }
    purses.push_reserved(purse);
    kept.push(receipts).is_ok()
}
