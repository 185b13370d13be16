//! The threads of terminals: how they are started and joined.
ghost use Rattle.std.specs.Prelude.{◌≡◌, ◌≤◌, ◌<◌, IfSome, None, length, map};
ghost use Rattle.std.specs.List.{range_with_len};
ghost use Rattle.tpcc_terminal.specs.Terminals.{IsStarted};
ghost use Rattle.tpcc_audit.specs.Settlement.{AllSeen, all_receipts};
ghost use Rattle.tpcc_run.specs.Internal.Answered.{IfAll};
ghost use Rattle.tpcc_run.specs.Purses.{empty_purse, with_rooms};
ghost use Rattle.tpcc_run.specs.Internal.Started.{HasAdded, HaveJoined, HaveStarted, IsPromised};
ghost use Rattle.tpcc_run.specs.Working.{HasWorked};

use crate::threads::RunThreads;
use crate::threads::duty::Duty;
use crate::threads::operator::Operator;
use crate::threads::operator_work::OperatorBack;
use crate::threads::promises::{ComesBack, TerminalHandle};
use crate::threads::results::ThreadResults;
use crate::threads::route::Route;
use std::alloc::{AllocError, Global};
use std::sync::Wait;
use std::thread::{Scope, Threads};
use tpcc_book::Naming;
use tpcc_server::OneTurn;
use tpcc_terminal::Terminal;
use tpcc_turns::{SeatedPurse, Seating};

impl<
    's,
    N: Naming + Send + Sync,
    T: Seating + Send + Sync,
    C: OneTurn + Send,
    F: Fn(Global) -> Result<C, AllocError> + Sync,
    R: Threads + Wait + Sync,
> RunThreads<'s, N, T, F, R> {
    // Asks all cards of the plan, as the thread promises.
    fn work<'o>(&self, operator: Operator<'o, N, T, C>, duty: Duty) -> OperatorBack<'o, N, T, C>
        requires started { IsStarted operator.purse.purse.terminal
            self.now.scale self.now.plan.seed operator.station }
        requires make { F.IsAlwaysCallable self.now.make.now }
        requires empty { operator.purse.purse ≡ empty_purse operator.purse.purse.terminal }
        ensures worked { IfAll result (HasWorked duty self.now.scale self.now.plan
            operator.entry.purse.purse.terminal) }
    {
        self.ask_all(operator, duty, self.plan.cards)
    }

    // Starts the thread of one terminal; None where it can't be made.
    fn start_thread<E>(
        &'s self,
        scope: &Scope<'s, E>,
        operator: Operator<'s, N, T, C>,
        promise: ComesBack,
    ) -> Option<TerminalHandle<'s, N, T, C>>
        requires started { IsStarted operator.purse.purse.terminal
            self.now.scale self.now.plan.seed operator.station }
        requires make { F.IsAlwaysCallable self.now.make.now }
        requires promised { IsPromised promise.duty self.now.scale self.now.plan promise }
        requires empty { operator.purse.purse ≡ empty_purse promise.number }
        ensures promise { IfSome result (λ handle. handle.promise ≡ promise) }
    {
        let duty = promise.duty;
        scope
            .spawn_with(
                promise,
                move || -> OperatorBack<'_, N, T, C>
                    requires started { IsStarted operator.purse.purse.terminal
                        self.now.scale self.now.plan.seed operator.station }
                    requires make { F.IsAlwaysCallable self.now.make.now }
                    requires empty { operator.purse.purse ≡ empty_purse operator.purse.purse.terminal }
                { self.work(operator, duty) },
            )
            .ok()
    }

    /// Starts the thread of one terminal of this number, with an empty purse of its own; None where there is no route, or
    /// the terminal or its thread can't be made.
    pub(crate) fn start_next<E>(
        &'s self,
        scope: &Scope<'s, E>,
        route: Option<Route<'s, N, T, C>>,
        first: &mut SeatedPurse<N, T>,
        number: u32,
        duty: Duty,
    ) -> Option<TerminalHandle<'s, N, T, C>>
        requires number { 1 ≤ number }
        requires room { 0 < first.old.purse.room }
        requires make { F.IsAlwaysCallable self.now.make.now }
        ensures rest { first.old ≡ with_rooms first.new 1 }
        ensures promised { IfSome result (λ handle.
            IsPromised duty self.now.scale self.now.plan handle.promise) }
        ensures number { IfSome result (λ handle. handle.promise.number ≡ number) }
    {
        let purse = first.split(self.turns, number);
        let route = route?;
        let Ok(terminal) = Terminal::new(self.alloc, number, self.scale, self.plan.seed) else {
            return None;
        };
        let promise = ComesBack {
            duty,
            scale: self.scale,
            plan: self.plan,
            number,
        };
        self.start_thread(scope, Operator::new(route, purse, terminal), promise)
    }

    /// Starts the plan's terminals, as many as can be made.
    pub(crate) fn start_terminals<E>(
        &'s self,
        scope: &Scope<'s, E>,
        routes: Vec<Route<'s, N, T, C>>,
        first: &mut SeatedPurse<N, T>,
    ) -> Vec<TerminalHandle<'s, N, T, C>>
        requires room { self.now.plan.terminals ≤ first.old.purse.room }
        requires make { F.IsAlwaysCallable self.now.make.now }
        ensures most { length result.items ≤ self.now.plan.terminals }
        ensures rest { length result.items ≡ self.now.plan.terminals
            → first.old ≡ with_rooms first.new self.now.plan.terminals }
        ensures all { length result.items ≡ self.now.plan.terminals
            → HaveStarted self.now.scale self.now.plan
            (range_with_len 1 self.now.plan.terminals)
            (map (λ handle. handle.promise) result.items) }
    {
        let mut routes = routes;
        let mut handles = Vec::new(self.alloc);
        for number in 0..self.plan.terminals {
            let route = routes.pop();
            let Some(handle) = self.start_next(scope, route, first, number + 1, Duty::Cards) else {
                return handles;
            };
            keep_handle(&mut handles, handle);
        }
        handles
    }
}

/// Adds the handle of a thread to others. One that finds no room is let go: the scope joins its thread, and the caller sees that one is
/// missing.
pub(crate) fn keep_handle<H: Drop>(handles: &mut Vec<H>, handle: H)
    ensures added { HasAdded handle handles.old.items handles.new.items }
{
    let _ = handles.push(handle);
}

/// Joins the threads of all terminals, and keeps their purses and receipts, in this order.
pub(crate) fn join_terminals<N: Naming, T: Seating, C, R: Threads>(
    rt: &R,
    handles: Vec<TerminalHandle<'_, N, T, C>>,
    all: &mut ThreadResults<N, T>,
)
    requires seen { AllSeen all.old.purses.items (all_receipts all.old.receipts.items) }
    ensures seen { AllSeen all.new.purses.items (all_receipts all.new.receipts.items) }
    ensures before { all.new.fault ≡ None → all.old.fault ≡ None }
    ensures joined { all.new.fault ≡ None
        → HaveJoined (map (λ handle. handle.promise) handles.entry.items)
        all.old.purses.items all.old.receipts.items
        all.new.purses.items all.new.receipts.items }
{
    let mut handles = handles;
    handles.reverse();
    while let Some(handle) = handles.pop() {
        all.take_in(handle.join(rt));
    }
}
