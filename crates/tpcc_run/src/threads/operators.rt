//! All that ask in a run: its terminals and its delivery runner.
ghost use Rattle.std.specs.Prelude.{◌≡◌, ◌<◌, None};
ghost use Rattle.tpcc_audit.specs.Settlement.{AllSeen, all_receipts};
ghost use Rattle.tpcc_run.specs.Returned.{HaveComeBack};

use crate::threads::RunThreads;
use crate::threads::duty::Duty;
use crate::threads::results::ThreadResults;
use crate::threads::route::Route;
use crate::threads::terminal_threads::join_terminals;
use std::alloc::{AllocError, Global};
use std::sync::Wait;
use std::thread::{Scope, Threads};
use tpcc_book::Naming;
use tpcc_server::OneTurn;
use tpcc_turns::{SeatedPurse, Seating};

impl<
    's,
    N: Naming + Send + Sync,
    T: Seating + Send + Sync,
    C: OneTurn + Send,
    F: Fn(Global) -> Result<C, AllocError> + Sync,
    R: Threads + Wait + Sync,
> RunThreads<'s, N, T, F, R> {
    /// Starts the threads of the plan's terminals and of the delivery runner, each by a route of its own, and waits for their ends. What
    /// the runner finds queued at the end it asks for on this thread. Gives the purses and receipts that came back, and `first` last;
    /// each receipt stands in one of these purses.
    ///
    /// The fault, if any: NoMemory where a growth or a thread was refused or there were too few routes, else Missing where a purse did
    /// not come back.
    pub(crate) fn run_terminals<E>(
        &'s self,
        scope: &Scope<'s, E>,
        routes: Vec<Route<'s, N, T, C>>,
        first: SeatedPurse<N, T>,
    ) -> ThreadResults<N, T>
        requires room { self.now.plan.terminals < first.purse.room }
        requires make { F.IsAlwaysCallable self.now.make.now }
        ensures seen { AllSeen result.purses.items (all_receipts result.receipts.items) }
        ensures back { result.fault ≡ None → HaveComeBack 0 self.now.scale self.now.plan first
            result.purses.items result.receipts.items }
    {
        let mut routes = routes;
        let mut first = first;
        let mut all = ThreadResults::new(self.alloc);
        let number = self.plan.terminals + 1;
        let route = routes.pop();
        let runner = self.start_next(scope, route, &mut first, number, Duty::Deliveries);
        let terminals = self.start_terminals(scope, routes, &mut first);
        all.note_started(terminals.len(), self.plan.terminals);
        join_terminals(self.rt, terminals, &mut all);
        self.join_runner(runner, &mut all);
        all.keep(first, Vec::new(self.alloc));
        all
    }
}
