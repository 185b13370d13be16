//! Two servers in threads of their own, at gates that hold one job.
ghost use Rattle.std.specs.Prelude.{◌≡◌, None};
ghost use Rattle.std.specs.Thread.{IsSync};
ghost use Rattle.tpcc_mailbox.specs.Tokens.{identity, serving_origin, serving_hand};

use crate::samples::plain_turn::PlainTurn;
use crate::samples::requests::let_go;
use std::process::Abort;
use std::sync::Wait;
use std::sync::atomic::{AtomicU64, Ordering};
use std::thread::{self, Threads, join};
use std::time::{Clock, Duration};
use tpcc_book::Naming;
use tpcc_server::{Gate, JobMailboxes, JobServing, serve_until_closed};
use tpcc_turns::{SeatedPurse, Seating, Turns};

/// How many jobs were taken, and how many were answered, by two servers.
#[derive(Drop)]
pub(super) struct Jobs {
    pub taken: AtomicU64,
    pub answered: AtomicU64,
}

impl Jobs {
    pub fn new() -> Jobs {
        Jobs {
            taken: AtomicU64::new(0),
            answered: AtomicU64::new(0),
        }
    }
}

/// Which job is held: the one that is taken behind so many others. The second server begins once so many are taken.
#[derive(Clone, Copy)]
pub(super) struct Hold {
    others: u64,
    second_begins: u64,
}

/// The first job of all, by whichever server takes it.
pub(super) const FIRST: Hold = Hold {
    others: 0,
    second_begins: 0,
};

/// The second job of the first server, which alone serves before it.
pub(super) const SECOND: Hold = Hold {
    others: 1,
    second_begins: 2,
};

/// Whether a count comes to this many within some ten seconds.
pub(super) fn comes_to<R: Clock>(rt: &R, count: &AtomicU64, wanted: u64) -> bool {
    for _ in 0..10_000u32 {
        if count.load(Ordering::SeqCst) >= wanted {
            return true;
        }
        thread::sleep(rt, Duration::from_millis(1));
    }
    false
}

/// Holds the job that is taken behind so many others until one more than these has been answered, or the limit is met.
#[derive(Drop)]
struct HeldGate<'a, R: Clock> {
    rt: &'a R,
    jobs: &'a Jobs,
    others: u64,
    limit_met: bool,
}

impl<'a, R: Clock> Gate for HeldGate<'a, R> {
    fn is_open(&self) -> bool {
        false
    }

    fn before(&mut self, _mailbox: usize) {
        if self.jobs.taken.fetch_add(1, Ordering::SeqCst) == self.others {
            let wanted = self.others.saturating_add(1);
            self.limit_met = !comes_to(self.rt, &self.jobs.answered, wanted);
        }
    }

    fn after(&mut self, _mailbox: usize) {
        self.jobs.answered.fetch_add(1, Ordering::SeqCst);
    }
}

/// The right to take jobs, and a server's own purse.
pub(super) type Server<N, T> = (JobServing<N, T, PlainTurn>, SeatedPurse<N, T>);

/// How many jobs each server has answered, and their purses; no gate's limit is met.
pub(super) fn both_serve<
    N: Naming + Send + Sync,
    T: Seating + Send + Sync,
    R: Threads + Wait + Clock + Abort + Sync,
>(
    rt: &R,
    mailboxes: &JobMailboxes<N, T, PlainTurn>,
    turns: &Turns<N, T>,
    first: Server<N, T>,
    second: Server<N, T>,
    jobs: &Jobs,
    hold: Hold,
) -> ((u64, u64), SeatedPurse<N, T>, SeatedPurse<N, T>)
    requires { (serving_origin first.0 ≡ identity mailboxes.now)
        × (serving_hand first.0 ≡ None)
        × (serving_origin second.0 ≡ identity mailboxes.now)
        × (serving_hand second.0 ≡ None) }
{
    let (one, two) = join(
        rt,
        || -> Tally<N, T>
            requires { IsSync R.row
                × (serving_origin first.0 ≡ identity mailboxes.now)
                × (serving_hand first.0 ≡ None) }
        { serve_all(rt, mailboxes, turns, first, jobs, hold.others) },
        || -> Tally<N, T>
            requires { IsSync R.row
                × (serving_origin second.0 ≡ identity mailboxes.now)
                × (serving_hand second.0 ≡ None) }
        { serve_from(rt, mailboxes, turns, second, jobs, hold) },
    );
    assert!(rt; !one.limit_met && !two.limit_met);
    ((one.jobs, two.jobs), one.purse, two.purse)
}

/// What a server has done.
#[derive(Drop)]
struct Tally<N: Naming, T: Seating> {
    limit_met: bool,
    jobs: u64,
    purse: SeatedPurse<N, T>,
}

/// Serves once so many jobs are taken.
fn serve_from<N: Naming, T: Seating, R: Wait + Clock>(
    rt: &R,
    mailboxes: &JobMailboxes<N, T, PlainTurn>,
    turns: &Turns<N, T>,
    server: Server<N, T>,
    jobs: &Jobs,
    hold: Hold,
) -> Tally<N, T>
    requires { (serving_origin server.0 ≡ identity mailboxes.now) × (serving_hand server.0 ≡ None) }
{
    comes_to(rt, &jobs.taken, hold.second_begins);
    serve_all(rt, mailboxes, turns, server, jobs, hold.others)
}

/// Serves behind a held gate.
fn serve_all<N: Naming, T: Seating, R: Wait + Clock>(
    rt: &R,
    mailboxes: &JobMailboxes<N, T, PlainTurn>,
    turns: &Turns<N, T>,
    server: Server<N, T>,
    jobs: &Jobs,
    others: u64,
) -> Tally<N, T>
    requires { (serving_origin server.0 ≡ identity mailboxes.now) × (serving_hand server.0 ≡ None) }
{
    let (serving, keeper) = server;
    let gate = HeldGate {
        rt,
        jobs,
        others,
        limit_met: false,
    };
    let (serving, gate, served, purse) = serve_until_closed(
        rt,
        mailboxes,
        serving,
        turns,
        gate,
        u64::MAX,
        keeper,
    );
    let_go(serving);
    Tally {
        limit_met: gate.limit_met,
        jobs: served,
        purse,
    }
}
