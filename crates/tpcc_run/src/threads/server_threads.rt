//! The threads of servers: how they are started and joined.
ghost use Rattle.std.specs.Prelude.{◌≡◌, ◌+◌, ◌≤◌, IfSome, None, length, map};
ghost use Rattle.std.specs.List.{range_with_len};
ghost use Rattle.tpcc_mailbox.specs.Tokens.{identity, serving_origin, serving_hand};
ghost use Rattle.tpcc_audit.specs.Settlement.{AllSeen, all_receipts};
ghost use Rattle.tpcc_run.specs.declared.plan.TheConstants.{MOST_SERVERS};
ghost use Rattle.tpcc_run.specs.Purses.{with_rooms};
ghost use Rattle.tpcc_run.specs.Internal.Started.{HasAddedSome, HaveJoinedServers, HaveStartedServers};

use crate::threads::RunThreads;
use crate::threads::promises::{KeepsPurse, ServerHandle};
use crate::threads::results::ThreadResults;
use crate::threads::server_task::ServerTask;
use crate::threads::terminal_threads::keep_handle;
use std::alloc::{AllocError, Global};
use std::snapshot::Snapshot;
use std::sync::Wait;
use std::thread::{Scope, Threads};
use tpcc_book::Naming;
use tpcc_server::{JobMailboxes, JobServing, OneTurn};
use tpcc_turns::{SeatedPurse, Seating};

/// How many serve, and how many jobs each but the first serves before it ends; 0 is without end.
#[derive(Clone, Copy)]
pub(crate) struct Servers {
    /// How many threads serve.
    pub count: u32,
    /// After how many jobs each but the first ends; 0 is never.
    pub retire: u32,
}

impl Servers {
    // How many jobs a server serves at most. The first has no limit, so jobs are served until the mailboxes are closed.
    fn limit(self, is_first: bool) -> u64 {
        if is_first || self.retire == 0 {
            u64::MAX
        } else {
            u64::from(self.retire)
        }
    }
}

impl<
    's,
    N: Naming + Send + Sync,
    T: Seating + Send + Sync,
    C: OneTurn + Send,
    F: Fn(Global) -> Result<C, AllocError> + Sync,
    R: Threads + Wait + Sync,
> RunThreads<'s, N, T, F, R> {
    /// Starts so many servers, each with an empty purse of its own, as many as can be made. The purses' numbers are behind
    /// the delivery runner's, so no terminal has one of them.
    pub(crate) fn start_servers<E>(
        &'s self,
        scope: &Scope<'s, E>,
        mailboxes: &'s JobMailboxes<N, T, C>,
        serving: &mut JobServing<N, T, C>,
        first: &mut SeatedPurse<N, T>,
        servers: Servers,
    ) -> Vec<ServerHandle<N, T>>
        requires origin { serving_origin serving.old ≡ identity mailboxes.now }
        requires room { servers.count ≤ first.old.purse.room }
        requires most { servers.count ≤ MOST_SERVERS }
        ensures origin { serving_origin serving.new ≡ identity mailboxes.now }
        ensures rest { first.old ≡ with_rooms first.new servers.count }
        ensures most { length result.items ≤ servers.count }
        ensures all { length result.items ≡ servers.count
            → HaveStartedServers first.old
            (range_with_len (self.now.plan.terminals + 2) servers.count)
            (map (λ handle. handle.promise) result.items) }
    {
        let mut handles = Vec::new(self.alloc);
        let behind = self.plan.terminals + 2;
        for number in 0..servers.count {
            let limit = servers.limit(handles.is_empty());
            let purse = first.split(self.turns, behind + number);
            let one = serving.split(mailboxes);
            let started = self.start_server(scope, mailboxes, one, purse, limit);
            keep_started(&mut handles, started);
        }
        handles
    }

    // Starts one server; None where its thread can't be made.
    fn start_server<E>(
        &'s self,
        scope: &Scope<'s, E>,
        mailboxes: &'s JobMailboxes<N, T, C>,
        serving: JobServing<N, T, C>,
        purse: SeatedPurse<N, T>,
        limit: u64,
    ) -> Option<ServerHandle<N, T>>
        requires origin { serving_origin serving ≡ identity mailboxes.now }
        requires free { serving_hand serving ≡ None }
        ensures purse { IfSome result (λ handle. handle.promise.purse.value ≡ purse) }
    {
        let promise = KeepsPurse {
            purse: Snapshot::of(&purse),
        };
        let task = ServerTask {
            mailboxes,
            serving,
            limit,
            purse,
        };
        scope
            .spawn_with(promise, move || task.serve(self.turns, self.rt))
            .ok()
    }
}

// Adds the handle of a thread to others, if it could be made.
fn keep_started<H: Drop>(handles: &mut Vec<H>, started: Option<H>)
    ensures added { HasAddedSome started handles.old.items handles.new.items }
{
    if let Some(handle) = started {
        keep_handle(handles, handle);
    }
}

/// Joins the threads of all servers, and keeps their purses, in this order.
pub(crate) fn join_servers<N: Naming, T: Seating, R: Threads>(
    rt: &R,
    alloc: Global,
    handles: Vec<ServerHandle<N, T>>,
    all: &mut ThreadResults<N, T>,
)
    requires seen { AllSeen all.old.purses.items (all_receipts all.old.receipts.items) }
    ensures seen { AllSeen all.new.purses.items (all_receipts all.new.receipts.items) }
    ensures before { all.new.fault ≡ None → all.old.fault ≡ None }
    ensures joined { all.new.fault ≡ None
        → HaveJoinedServers (map (λ handle. handle.promise) handles.items)
        all.old.purses.items all.old.receipts.items
        all.new.purses.items all.new.receipts.items }
{
    for handle in handles {
        all.keep(handle.join(rt), Vec::new(alloc));
    }
}
