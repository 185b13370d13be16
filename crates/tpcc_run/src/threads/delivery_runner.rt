//! The delivery runner, a terminal that asks for deliveries alone (2.7.2).
ghost use Rattle.std.specs.Prelude.{◌≡◌, IfSome, IsSome, None};
ghost use Rattle.tpcc_audit.specs.Settlement.{AllSeen, all_receipts};
ghost use Rattle.tpcc_run.specs.Internal.Answered.{HasDrained, IfAll};
ghost use Rattle.tpcc_run.specs.Internal.Started.{HasJoinedRunner, IsPromised};
ghost use Rattle.tpcc_run.specs.declared.threads.duty.Duty.TheVariants.{Deliveries};

use crate::threads::RunThreads;
use crate::threads::duty::Duty;
use crate::threads::fault::RunFault;
use crate::threads::operator_work::OperatorBack;
use crate::threads::promises::TerminalHandle;
use crate::threads::results::ThreadResults;
use std::alloc::{AllocError, Global};
use std::sync::Wait;
use std::thread::Threads;
use tpcc_book::Naming;
use tpcc_server::OneTurn;
use tpcc_turns::Seating;

impl<
    's,
    N: Naming + Send + Sync,
    T: Seating + Send + Sync,
    C: OneTurn + Send,
    F: Fn(Global) -> Result<C, AllocError> + Sync,
    R: Threads + Wait + Sync,
> RunThreads<'s, N, T, F, R> {
    /// Joins the delivery runner, which then asks for what is still queued; notes where there is none.
    pub(crate) fn join_runner(
        &self,
        runner: Option<TerminalHandle<'s, N, T, C>>,
        all: &mut ThreadResults<N, T>,
    )
        requires make { F.IsAlwaysCallable self.now.make.now }
        requires seen { AllSeen all.old.purses.items (all_receipts all.old.receipts.items) }
        requires promised { IfSome runner (λ handle.
            IsPromised Deliveries self.now.scale self.now.plan handle.promise) }
        ensures seen { AllSeen all.new.purses.items (all_receipts all.new.receipts.items) }
        ensures before { all.new.fault ≡ None → all.old.fault ≡ None }
        ensures made { all.new.fault ≡ None → IsSome runner.entry }
        ensures joined { all.new.fault ≡ None
            → IfSome runner.entry (λ handle. HasJoinedRunner handle.promise
            all.old.purses.items all.old.receipts.items
            all.new.purses.items all.new.receipts.items) }
    {
        match runner {
            Some(runner) => all.take_in(self.drain_back(runner.join(self.rt))),
            None => all.note(RunFault::NoMemory),
        }
    }

    // What a runner that nothing stopped still asks.
    fn drain_back(&self, back: OperatorBack<'s, N, T, C>) -> OperatorBack<'s, N, T, C>
        requires make { F.IsAlwaysCallable self.now.make.now }
        ensures drained { IfAll result (HasDrained self.now.plan.moment back.entry) }
    {
        match back {
            OperatorBack::All(operator) => self.ask_all(operator, Duty::Rest, u32::MAX),
            other => other,
        }
    }
}
