//! A job that is left in closed mailboxes.
ghost use Rattle.std.specs.Prelude.{◌≡◌, [], ◌∷◌};
ghost use Rattle.tpcc_mailbox.specs.Tokens.{identity, client_origin, idle_origin, waiting_origin, serving_origin};

use super::posted::{OneMailbox, make_one, post};
use crate::samples::counted_turn::CountedTurn;
use crate::samples::purses::Settlement::Totals;
use crate::samples::purses::{Back, Purses};
use crate::samples::requests::{BEFORE, let_go, payment, purse_of};
use crate::turns::{AtTurns, at_turns};
use std::alloc::Global;
use std::process::Abort;
use std::sync::Wait;
use std::sync::atomic::{AtomicU64, Ordering};
use tpcc_book::Naming;
use tpcc_mailbox::{Client, Left};
use tpcc_server::{
    Job, JobAnswer, JobIdle, JobMailboxes, JobServing, JobWaiting, OneTurn, OpenGate, ask,
    serve_round,
};
use tpcc_turns::{SeatedPurse, Seating, Turns};

#[test]
fn a_job_at_closed_mailboxes_is_given_back_uncalled(rt: HostRuntime) {
    at_turns(&rt, rt.alloc(), JobInVain, Totals(0, 0)).expect(&rt, BEFORE)
}

#[derive(Drop)]
struct JobInVain;

impl AtTurns for JobInVain {
    fn happens<N: Naming, T: Seating, R: Wait + Abort>(
        self,
        rt: &R,
        alloc: Global,
        _turns: &Turns<N, T>,
        purses: Purses<N, T>,
    ) -> Back<N, T> {
        let made = AtomicU64::new(0);
        let job = Job::of(payment(100), purses.one, CountedTurn { made: &made });
        let (request, one) = no_answer(rt, alloc, job).give_back();
        assert!(rt; request == payment(100) && made.load(Ordering::SeqCst) == 0);
        let purses = Purses { one, ..purses };
        purses.all(rt, alloc)
    }
}

/// Closes new mailboxes, asks the job there, and reclaims it.
fn no_answer<N: Naming, T: Seating, C: OneTurn, R: Wait + Abort>(
    rt: &R,
    alloc: Global,
    job: Job<N, T, C>,
) -> Job<N, T, C> {
    let OneMailbox {
        mailboxes,
        idle,
        mut serving,
    } = make_one(rt, alloc);
    mailboxes.close(&mut serving);
    let waiting = ask_in_vain(rt, &mailboxes, idle, job);
    letter_of(rt, reclaim(rt, alloc, mailboxes, waiting, serving))
}

fn ask_in_vain<N: Naming, T: Seating, C: Drop, R: Wait + Abort>(
    rt: &R,
    mailboxes: &JobMailboxes<N, T, C>,
    idle: JobIdle<N, T, C>,
    job: Job<N, T, C>,
) -> JobWaiting<N, T, C>
    requires { idle_origin idle ≡ identity mailboxes.now }
    ensures { waiting_origin result ≡ identity mailboxes.now }
{
    ask(rt, mailboxes, idle, job)
        .err()
        .expect(rt, "no server is there")
}

#[test]
fn an_answer_is_reclaimed_whose_call_was_made_once(rt: HostRuntime) {
    at_turns(&rt, rt.alloc(), AnswerLeft, Totals(1, 100)).expect(&rt, BEFORE)
}

/// A round answers a job, whose client collects no answer.
#[derive(Drop)]
struct AnswerLeft;

impl AtTurns for AnswerLeft {
    fn happens<N: Naming, T: Seating, R: Wait + Abort>(
        self,
        rt: &R,
        alloc: Global,
        turns: &Turns<N, T>,
        purses: Purses<N, T>,
    ) -> Back<N, T> {
        let Purses { keeper, one, .. } = purses;
        let made = AtomicU64::new(0);
        let call = CountedTurn { made: &made };
        let (keeper, answer) = answer_left(rt, alloc, turns, one, keeper, call);
        assert!(rt; (answer.place(), made.load(Ordering::SeqCst)) == (Some(0), 1));
        let one = purse_of(answer);
        let purses = Purses {
            keeper,
            one,
            ..purses
        };
        purses.all(rt, alloc)
    }
}

/// Serves a round, and takes the only job's answer out of the mailboxes that are taken apart.
fn answer_left<N: Naming, T: Seating, C: OneTurn, R: Wait + Abort>(
    rt: &R,
    alloc: Global,
    turns: &Turns<N, T>,
    purse: SeatedPurse<N, T>,
    keeper: SeatedPurse<N, T>,
    call: C,
) -> (SeatedPurse<N, T>, JobAnswer<N, T>) {
    let OneMailbox {
        mailboxes,
        idle,
        mut serving,
    } = make_one(rt, alloc);
    let waiting = post(&mailboxes, idle, purse, call);
    let (served, keeper) = serve_round(rt, &mailboxes, &mut serving, turns, &mut OpenGate, keeper);
    let left = reclaim(rt, alloc, mailboxes, waiting, serving);
    assert!(rt; served == 1);
    (keeper, reply_of(rt, left))
}

type JobLeft<N, T, C> = Left<Job<N, T, C>, JobAnswer<N, T>>;

/// What is left for the only client.
fn reclaim<N: Naming, T: Seating, C: Drop, R: Abort>(
    rt: &R,
    alloc: Global,
    mailboxes: JobMailboxes<N, T, C>,
    waiting: JobWaiting<N, T, C>,
    serving: JobServing<N, T, C>,
) -> JobLeft<N, T, C>
    requires { (client_origin (Client.Waiting waiting) ≡ identity mailboxes)
        × (serving_origin serving ≡ identity mailboxes) }
{
    let clients = only(rt, alloc, Client::Waiting(waiting));
    let servings = only(rt, alloc, serving);
    let lefts = mailboxes.reclaim(clients, servings).ok();
    last_left(rt, lefts.expect(rt, "memory for what is left"))
}

/// A list of one.
fn only<X, R: Abort>(rt: &R, alloc: Global, value: X) -> Vec<X>
    ensures { result.items ≡ value ∷ [] }
{
    let mut values = Vec::with_capacity(alloc, 1).expect(rt, "memory for one");
    values.push_reserved(value);
    values
}

/// What is left for the last client.
fn last_left<X: Drop, R: Abort>(rt: &R, lefts: Vec<X>) -> X {
    let mut lefts = lefts;
    lefts.pop().expect(rt, "there is one")
}

/// The letter that was never taken.
pub(super) fn letter_of<J: Drop, A: Drop, R: Abort>(rt: &R, left: Left<J, A>) -> J {
    match left {
        Left::Letter(letter) => letter,
        other => {
            let_go(other);
            panic!(rt; "the letter was not there")
        }
    }
}

/// The answer that was never collected.
pub(super) fn reply_of<J: Drop, A: Drop, R: Abort>(rt: &R, left: Left<J, A>) -> A {
    match left {
        Left::Reply(reply) => reply,
        other => {
            let_go(other);
            panic!(rt; "the answer was not there")
        }
    }
}
