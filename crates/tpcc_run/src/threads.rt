//! All threads of a run: of its terminals, of its delivery runner, and of its servers, if any.
ghost use Rattle.std.specs.Prelude.{◌≡◌, ◌+◌, ◌≤◌, ◌<◌, All, IfNone, IfSome, None};
ghost use Rattle.tpcc_book.specs.Purses.{most_purses};
ghost use Rattle.tpcc_mailbox.specs.Tokens.{identity, idle_origin, serving_origin};
ghost use Rattle.tpcc_audit.specs.Settlement.{AllSeen, all_receipts};
ghost use Rattle.tpcc_run.specs.Plans.{IsPlan, IsService};
ghost use Rattle.tpcc_run.specs.Internal.Plans.{plan_once};
ghost use Rattle.tpcc_run.specs.Returned.{HaveAllComeBack, HaveComeBack, servers_in};
ghost use Rattle.tpcc_run.specs.declared.plan.TheConstants.{MOST_SERVERS};

mod delivery_runner;
mod duty;
pub(crate) mod fault;
mod operator;
mod operator_work;
mod operators;
mod promises;
pub(crate) mod results;
mod route;
mod routes;
mod server_task;
mod server_threads;
mod terminal_threads;

use crate::plan::{Plan, Service};
use crate::threads::results::ThreadResults;
use crate::threads::route::Route;
use crate::threads::routes::{by_mailboxes, by_turns};
use crate::threads::server_threads::{Servers, join_servers};
use std::alloc::{AllocError, Global};
use std::sync::Wait;
use std::thread;
use std::thread::{Scope, Threads};
use tpcc_book::Naming;
use tpcc_mailbox::Mailboxes;
use tpcc_population::Scale;
use tpcc_server::{Job, JobAnswer, JobIdle, JobMailboxes, JobServing, OneTurn};
use tpcc_turns::{SeatedPurse, Seating, Turns};

/// All threads of a run, and what each of them is lent: the turns are those of the run's book, and `make` gives the call of
/// each request. That it may always be called no ghost field can say of a type parameter, so each method asks for it.
#[derive(Drop)]
pub struct RunThreads<'r, N: Naming, T: Seating, F, R> {
    /// Threads, clock and waiting.
    pub rt: &'r R,
    /// Where the run takes memory.
    pub alloc: Global,
    /// The turns of the run's book.
    pub turns: &'r Turns<N, T>,
    /// Makes the call of each request.
    pub make: &'r F,
    /// The scale of the opening.
    pub scale: Scale,
    /// How many terminals, servers and cards, and from which seed.
    pub plan: Plan,
    /// The plan is in its ranges.
    pub ghost planned: { IsPlan plan } by { plan_once plan },
}

impl<
    's,
    N: Naming + Send + Sync,
    T: Seating + Send + Sync,
    C: OneTurn + Send,
    F: Fn(Global) -> Result<C, AllocError> + Sync,
    R: Threads + Wait + Sync,
> RunThreads<'s, N, T, F, R> {
    /// Starts all threads, waits for their ends, and gives the purses and receipts that came back. Each receipt stands in one of these
    /// purses. The fault, if any: NoMemory where a growth or a thread was refused, else Missing where a purse did not come back.
    pub fn run(&self, first: SeatedPurse<N, T>) -> ThreadResults<N, T>
        requires make { F.IsAlwaysCallable self.now.make.now }
        requires room { first.purse.room ≡ most_purses }
        ensures seen { AllSeen result.purses.items (all_receipts result.receipts.items) }
        ensures back { result.fault ≡ None → HaveAllComeBack self.now.scale self.now.plan first
            result.purses.items result.receipts.items }
    {
        let Some(servers) = servers_of(self.plan.service) else {
            return self.serve_directly(first);
        };
        let boxes = self.plan.terminals as usize + 1;
        match Mailboxes::<Job<N, T, C>, JobAnswer<N, T>>::new(self.alloc, boxes) {
            Ok((mailboxes, idles, serving)) => {
                self.serve_by_servers(&mailboxes, idles, serving, first, servers)
            }
            Err(_) => ThreadResults::without_memory(self.alloc),
        }
    }

    // Runs all terminals, the delivery runner and the servers to their end.
    fn serve_by_servers(
        &self,
        mailboxes: &JobMailboxes<N, T, C>,
        idles: Vec<JobIdle<N, T, C>>,
        serving: JobServing<N, T, C>,
        first: SeatedPurse<N, T>,
        servers: Servers,
    ) -> ThreadResults<N, T>
        requires idles { All (λ idle. idle_origin idle ≡ identity mailboxes.now) idles.items }
        requires serving { serving_origin serving ≡ identity mailboxes.now }
        requires room { self.now.plan.terminals + servers.count < first.purse.room }
        requires most { servers.count ≤ MOST_SERVERS }
        requires make { F.IsAlwaysCallable self.now.make.now }
        ensures seen { AllSeen result.purses.items (all_receipts result.receipts.items) }
        ensures back { result.fault ≡ None → HaveComeBack servers.count self.now.scale self.now.plan first
            result.purses.items result.receipts.items }
    {
        let Ok(routes) = by_mailboxes(self.alloc, mailboxes, idles) else {
            return ThreadResults::without_memory(self.alloc);
        };
        thread::scope(
            thread::scope_env(),
            self.rt,
            |scope| -> ThreadResults<N, T>
                requires serving { serving_origin serving ≡ identity mailboxes.now }
                requires room { self.now.plan.terminals + servers.count < first.purse.room }
                requires most { servers.count ≤ MOST_SERVERS }
                requires make { F.IsAlwaysCallable self.now.make.now }
                ensures seen { AllSeen result.purses.items (all_receipts result.receipts.items) }
                ensures back { result.fault ≡ None
                    → HaveComeBack servers.count self.entry.now.scale self.entry.now.plan first
                    result.purses.items result.receipts.items }
            { self.drive(scope, mailboxes, routes, serving, first, servers) },
        )
    }

    // Starts the servers, lets the terminals ask them, and joins them once the mailboxes are closed.
    fn drive<E>(
        &'s self,
        scope: &Scope<'s, E>,
        mailboxes: &'s JobMailboxes<N, T, C>,
        routes: Vec<Route<'s, N, T, C>>,
        serving: JobServing<N, T, C>,
        first: SeatedPurse<N, T>,
        servers: Servers,
    ) -> ThreadResults<N, T>
        requires serving { serving_origin serving ≡ identity mailboxes.now }
        requires room { self.now.plan.terminals + servers.count < first.purse.room }
        requires most { servers.count ≤ MOST_SERVERS }
        requires make { F.IsAlwaysCallable self.now.make.now }
        ensures seen { AllSeen result.purses.items (all_receipts result.receipts.items) }
        ensures back { result.fault ≡ None → HaveComeBack servers.count self.now.scale self.now.plan first
            result.purses.items result.receipts.items }
    {
        let mut serving = serving;
        let mut first = first;
        let handles = self.start_servers(scope, mailboxes, &mut serving, &mut first, servers);
        let started = handles.len();
        close_unserved(mailboxes, &mut serving, started);
        let mut all = self.run_terminals(scope, routes, first);
        all.note_started(started, servers.count);
        mailboxes.close(&mut serving);
        join_servers(self.rt, self.alloc, handles, &mut all);
        all
    }

    // Runs all terminals and the delivery runner to their end, each making its own turns.
    fn serve_directly(&self, first: SeatedPurse<N, T>) -> ThreadResults<N, T>
        requires room { self.now.plan.terminals < first.purse.room }
        requires make { F.IsAlwaysCallable self.now.make.now }
        ensures seen { AllSeen result.purses.items (all_receipts result.receipts.items) }
        ensures back { result.fault ≡ None → HaveComeBack 0 self.now.scale self.now.plan first
            result.purses.items result.receipts.items }
    {
        let count = self.plan.terminals as usize + 1;
        let Ok(routes) = by_turns::<N, T, C>(self.alloc, self.turns, count) else {
            return ThreadResults::without_memory(self.alloc);
        };
        thread::scope(
            thread::scope_env(),
            self.rt,
            |scope| -> ThreadResults<N, T>
                requires room { self.now.plan.terminals < first.purse.room }
                requires make { F.IsAlwaysCallable self.now.make.now }
                ensures seen { AllSeen result.purses.items (all_receipts result.receipts.items) }
                ensures back { result.fault ≡ None
                    → HaveComeBack 0 self.entry.now.scale self.entry.now.plan first
                    result.purses.items result.receipts.items }
            { self.run_terminals(scope, routes, first) },
        )
    }
}

// Closes mailboxes that no server looks at, so that nobody waits for an answer.
fn close_unserved<N: Naming, T: Seating, C>(
    mailboxes: &JobMailboxes<N, T, C>,
    serving: &mut JobServing<N, T, C>,
    servers: usize,
)
    requires origin { serving_origin serving.old ≡ identity mailboxes.now }
    ensures origin { serving_origin serving.new ≡ identity mailboxes.now }
{
    if servers == 0 {
        mailboxes.close(serving);
    }
}

// How many serve; None where terminals make their own turns.
fn servers_of(service: Service) -> Option<Servers>
    requires service { IsService service }
    ensures most { IfSome result (λ servers. servers.count ≤ MOST_SERVERS) }
    ensures count { IfSome result (λ servers. servers.count ≡ servers_in service) }
    ensures none { IfNone result (servers_in service ≡ 0) }
{
    match service {
        Service::Servers { count, retire } => Some(Servers { count, retire }),
        Service::Direct => None,
    }
}
