//! Mailboxes with payments of 1.00 in them, and what comes of these.
ghost use Rattle.std.specs.Prelude.{◌≡◌, All, None};
ghost use Rattle.tpcc_mailbox.specs.Tokens.{identity, idle_origin, waiting_origin, serving_origin, serving_hand};

use crate::samples::requests::{let_go, payment, purse_of};
use std::alloc::Global;
use std::process::Abort;
use std::sync::Wait;
use tpcc_book::Naming;
use tpcc_money::Cents;
use tpcc_server::{
    Job, JobIdle, JobMailboxes, JobServing, JobWaiting, OneTurn, OpenGate, serve_until_closed,
};
use tpcc_turns::{SeatedPurse, Seating, Turns};

/// The token of the last client of these. The mailboxes are lent for the clauses alone, which name their identity.
fn last_of<N: Naming, T: Seating, C, R: Abort>(
    rt: &R,
    idles: &mut Vec<JobIdle<N, T, C>>,
    mailboxes: &JobMailboxes<N, T, C>,
) -> JobIdle<N, T, C>
    requires { All (λ x. idle_origin x ≡ identity mailboxes.now) idles.old.items }
    ensures rest { All (λ x. idle_origin x ≡ identity mailboxes.now) idles.new.items }
    ensures last { idle_origin result ≡ identity mailboxes.now }
{
    let _ = mailboxes;
    idles.pop().expect(rt, "one more client")
}

/// One mailbox, with its client and a server.
#[derive(Drop)]
pub(super) struct OneMailbox<N: Naming, T: Seating, C> {
    pub mailboxes: JobMailboxes<N, T, C>,
    pub idle: JobIdle<N, T, C>,
    pub serving: JobServing<N, T, C>,
    pub ghost origin: { (idle_origin idle ≡ identity mailboxes) × (serving_origin serving ≡ identity mailboxes) },
    pub ghost hand: { serving_hand serving ≡ None },
}

pub(super) fn make_one<N: Naming, T: Seating, C: Drop, R: Abort>(
    rt: &R,
    alloc: Global,
) -> OneMailbox<N, T, C> {
    let made = JobMailboxes::<N, T, C>::new(alloc, 1);
    let (mailboxes, mut idles, serving) = made.expect(rt, "memory for a mailbox");
    let idle = last_of(rt, &mut idles, &mailboxes);
    let_go(idles);
    OneMailbox {
        mailboxes,
        idle,
        serving,
    }
}

/// Posts a payment that is turned by this call.
pub(super) fn post<N: Naming, T: Seating, C: OneTurn>(
    mailboxes: &JobMailboxes<N, T, C>,
    idle: JobIdle<N, T, C>,
    purse: SeatedPurse<N, T>,
    call: C,
) -> JobWaiting<N, T, C>
    requires { idle_origin idle ≡ identity mailboxes.now }
    ensures { waiting_origin result ≡ identity mailboxes.now }
{
    mailboxes.post(idle, Job::of(payment(100), purse, call))
}

/// Three mailboxes, with payments in the first and in the last one, and a server.
#[derive(Drop)]
pub(super) struct JobPair<N: Naming, T: Seating, C> {
    pub mailboxes: JobMailboxes<N, T, C>,
    pub first: JobWaiting<N, T, C>,
    pub middle: JobIdle<N, T, C>,
    pub last: JobWaiting<N, T, C>,
    pub serving: JobServing<N, T, C>,
    pub ghost first_origin: { waiting_origin first ≡ identity mailboxes },
    pub ghost middle_origin: { idle_origin middle ≡ identity mailboxes },
    pub ghost last_origin: { waiting_origin last ≡ identity mailboxes },
    pub ghost origin: { serving_origin serving ≡ identity mailboxes },
    pub ghost hand: { serving_hand serving ≡ None },
}

/// Posts a payment for each of these purses.
pub(super) fn post_both<N: Naming, T: Seating, C: OneTurn, R: Abort>(
    rt: &R,
    alloc: Global,
    one: SeatedPurse<N, T>,
    two: SeatedPurse<N, T>,
    calls: (C, C),
) -> JobPair<N, T, C> {
    let made = JobMailboxes::<N, T, C>::new(alloc, 3);
    let (mailboxes, mut idles, serving) = made.expect(rt, "memory for three mailboxes");
    let last = last_of(rt, &mut idles, &mailboxes);
    let middle = last_of(rt, &mut idles, &mailboxes);
    let first = last_of(rt, &mut idles, &mailboxes);
    let_go(idles);
    let (call, other) = calls;
    let first = post(&mailboxes, first, one, call);
    let last = post(&mailboxes, last, two, other);
    JobPair {
        mailboxes,
        first,
        middle,
        last,
        serving,
    }
}

/// Serves until the mailboxes are closed, behind this many jobs, and gives the server's purse back.
pub(super) fn serve_open<N: Naming, T: Seating, C: OneTurn, R: Wait + Abort>(
    rt: &R,
    mailboxes: &JobMailboxes<N, T, C>,
    turns: &Turns<N, T>,
    serving: JobServing<N, T, C>,
    keeper: SeatedPurse<N, T>,
    jobs: u64,
) -> SeatedPurse<N, T>
    requires { (serving_origin serving ≡ identity mailboxes.now) × (serving_hand serving ≡ None) }
{
    let (serving, _, served, keeper) = serve_until_closed(
        rt,
        mailboxes,
        serving,
        turns,
        OpenGate,
        u64::MAX,
        keeper,
    );
    let_go(serving);
    assert!(rt; served == jobs);
    keeper
}

/// The purses of both answers, which are there.
pub(super) fn paid_purses<N: Naming, T: Seating, C: Drop, R: Abort>(
    rt: &R,
    mailboxes: JobMailboxes<N, T, C>,
    first: JobWaiting<N, T, C>,
    last: JobWaiting<N, T, C>,
) -> (SeatedPurse<N, T>, SeatedPurse<N, T>)
    requires first { waiting_origin first ≡ identity mailboxes }
    requires last { waiting_origin last ≡ identity mailboxes }
{
    let one = paid_purse(rt, &mailboxes, first);
    let two = paid_purse(rt, &mailboxes, last);
    let_go(mailboxes);
    (one, two)
}

/// The purse of an answer, which is there: it has paid 1.00 by one entry.
pub(super) fn paid_purse<N: Naming, T: Seating, C: Drop, R: Abort>(
    rt: &R,
    mailboxes: &JobMailboxes<N, T, C>,
    waiting: JobWaiting<N, T, C>,
) -> SeatedPurse<N, T>
    requires { waiting_origin waiting ≡ identity mailboxes.now }
{
    let collected = mailboxes.collect(waiting).ok();
    let (idle, answer) = collected.expect(rt, "a job was not answered");
    let_go(idle);
    let purse = purse_of(answer);
    assert!(rt; (purse.entries(), purse.paid()) == (1, Cents::new(100)));
    purse
}
