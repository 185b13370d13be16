//! Rounds on one thread, with limits and without: which jobs they find, how many, and when they pass a gate.
ghost use Rattle.std.specs.Prelude.{◌≡◌, None};
ghost use Rattle.tpcc_mailbox.specs.Tokens.{identity, serving_origin, serving_hand};

use super::posted::serve_open;
use super::two_jobs::{ServesTwoJobs, TwoJobs};
use crate::samples::purses::Settlement::Totals;
use crate::samples::requests::{BEFORE, let_go};
use crate::turns::at_turns;
use std::process::Abort;
use std::sync::Wait;
use std::sync::atomic::{AtomicU64, Ordering};
use tpcc_book::Naming;
use tpcc_server::{Gate, JobMailboxes, JobServing, OneTurn, serve_round, serve_until_closed};
use tpcc_turns::{SeatedPurse, Seating, Turns};

/// A gate that sees whether each job is turned between its two calls, in the order of the mailboxes.
#[derive(Drop)]
struct Watch<'a> {
    made: &'a AtomicU64,
    inside: Option<usize>,
    last: Option<usize>,
    jobs: u64,
    right: bool,
}

impl<'a> Gate for Watch<'a> {
    fn is_open(&self) -> bool {
        false
    }

    fn before(&mut self, mailbox: usize) {
        let not_turned = self.made.load(Ordering::SeqCst) == self.jobs;
        let is_next = self.inside.is_none() && self.last < Some(mailbox);
        self.right = self.right && is_next && not_turned;
        self.inside = Some(mailbox);
    }

    fn after(&mut self, mailbox: usize) {
        self.jobs = self.jobs.saturating_add(1);
        let turned = self.made.load(Ordering::SeqCst) == self.jobs;
        self.right = self.right && self.inside == Some(mailbox) && turned;
        self.inside = None;
        self.last = Some(mailbox);
    }
}

impl<'a> Watch<'a> {
    /// Nothing was turned yet.
    fn new(made: &'a AtomicU64) -> Watch<'a> {
        Watch {
            made,
            inside: None,
            last: None,
            jobs: 0,
            right: true,
        }
    }

    /// So many jobs were turned as they should, the last one of them in this mailbox.
    fn has_seen(&self, jobs: u64, last: usize) -> bool {
        self.right && self.jobs == jobs && self.last == Some(last)
    }
}

#[test]
fn limits_are_kept_and_no_job_is_passed_over(rt: HostRuntime) {
    at_turns(&rt, rt.alloc(), TwoJobs(LimitedRounds), Totals(2, 200)).expect(&rt, BEFORE)
}

/// The limit 0 answers none, the limit 1 the first job, a round of another server the last one, and another round none.
/// None of them closes the mailboxes.
#[derive(Drop)]
struct LimitedRounds;

impl ServesTwoJobs for LimitedRounds {
    fn serve<N: Naming, T: Seating, C: OneTurn, R: Wait + Abort>(
        self,
        rt: &R,
        mailboxes: &JobMailboxes<N, T, C>,
        turns: &Turns<N, T>,
        serving: JobServing<N, T, C>,
        keeper: SeatedPurse<N, T>,
        made: &AtomicU64,
    ) -> SeatedPurse<N, T> {
        let watch = Watch::new(made);
        let (serving, watch, none, keeper) = serve_until_closed(
            rt, mailboxes, serving, turns, watch, 0, keeper,
        );
        let (serving, watch, one, keeper) = serve_until_closed(
            rt, mailboxes, serving, turns, watch, 1, keeper,
        );
        assert!(rt; (none, one) == (0, 1) && watch.has_seen(1, 0));
        let mut serving = serving;
        let other = serving.split(mailboxes);
        let keeper = rounds(rt, mailboxes, turns, other, keeper, watch);
        assert!(rt; !mailboxes.is_closed(&mut serving));
        let_go(serving);
        keeper
    }
}

fn rounds<N: Naming, T: Seating, C: OneTurn, R: Wait + Abort>(
    rt: &R,
    mailboxes: &JobMailboxes<N, T, C>,
    turns: &Turns<N, T>,
    serving: JobServing<N, T, C>,
    keeper: SeatedPurse<N, T>,
    watch: Watch<'_>,
) -> SeatedPurse<N, T>
    requires { (serving_origin serving ≡ identity mailboxes.now) × (serving_hand serving ≡ None) }
{
    let mut serving = serving;
    let mut watch = watch;
    let (one, keeper) = serve_round(rt, mailboxes, &mut serving, turns, &mut watch, keeper);
    let (none, keeper) = serve_round(rt, mailboxes, &mut serving, turns, &mut watch, keeper);
    let_go(serving);
    assert!(rt; (one, none) == (1, 0) && watch.has_seen(2, 2));
    keeper
}

#[test]
fn a_round_answers_each_job_that_waits(rt: HostRuntime) {
    at_turns(&rt, rt.alloc(), TwoJobs(OneRound), Totals(2, 200)).expect(&rt, BEFORE)
}

/// One round finds the jobs in the first and the last of three mailboxes.
#[derive(Drop)]
struct OneRound;

impl ServesTwoJobs for OneRound {
    fn serve<N: Naming, T: Seating, C: OneTurn, R: Wait + Abort>(
        self,
        rt: &R,
        mailboxes: &JobMailboxes<N, T, C>,
        turns: &Turns<N, T>,
        serving: JobServing<N, T, C>,
        keeper: SeatedPurse<N, T>,
        made: &AtomicU64,
    ) -> SeatedPurse<N, T> {
        let mut serving = serving;
        let mut watch = Watch::new(made);
        let (served, keeper) = serve_round(rt, mailboxes, &mut serving, turns, &mut watch, keeper);
        let_go(serving);
        assert!(rt; served == 2 && watch.has_seen(2, 2));
        keeper
    }
}

#[test]
fn the_round_behind_a_close_answers_each_job_that_waits(rt: HostRuntime) {
    at_turns(&rt, rt.alloc(), TwoJobs(RoundBehindAClose), Totals(2, 200)).expect(&rt, BEFORE)
}

/// A server that sees the mailboxes closed before its first round ends with it, and leaves no job.
#[derive(Drop)]
struct RoundBehindAClose;

impl ServesTwoJobs for RoundBehindAClose {
    fn serve<N: Naming, T: Seating, C: OneTurn, R: Wait + Abort>(
        self,
        rt: &R,
        mailboxes: &JobMailboxes<N, T, C>,
        turns: &Turns<N, T>,
        serving: JobServing<N, T, C>,
        keeper: SeatedPurse<N, T>,
        _made: &AtomicU64,
    ) -> SeatedPurse<N, T> {
        let mut serving = serving;
        mailboxes.close(&mut serving);
        serve_open(rt, mailboxes, turns, serving, keeper, 2)
    }
}
