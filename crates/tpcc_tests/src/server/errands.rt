//! Jobs that are run, and jobs that are asked of a server in a thread of its own.
ghost use Rattle.std.specs.Prelude.{◌≡◌, None};
ghost use Rattle.std.specs.Thread.{IsSync};
ghost use Rattle.tpcc_mailbox.specs.Tokens.{identity, idle_origin, serving_origin, serving_hand};

use super::posted::{OneMailbox, make_one, serve_open};
use crate::samples::counted_turn::CountedTurn;
use crate::samples::plain_turn::PlainTurn;
use crate::samples::purses::Settlement::Totals;
use crate::samples::purses::{Back, Purses, settles};
use crate::samples::requests::{BEFORE, balance, let_go, payment, purse_of, status};
use crate::turns::{AtTurns, at_turns, name_turns, start_turns};
use std::alloc::Global;
use std::marker::Brand;
use std::process::Abort;
use std::sync::Wait;
use std::sync::atomic::{AtomicU64, Ordering};
use std::thread::{Threads, join};
use tpcc_book::{Blanks, Naming};
use tpcc_money::Cents;
use tpcc_rows::Request;
use tpcc_server::{Errand, Job, JobAnswer, JobIdle, JobMailboxes, JobServing, ask};
use tpcc_turns::{SeatedPurse, Seating, Turns, UnnamedTurns};

#[test]
fn a_job_that_is_run_makes_its_own_call_once(rt: HostRuntime) {
    at_turns(&rt, rt.alloc(), LoneJob, Totals(1, 100)).expect(&rt, BEFORE)
}

#[derive(Drop)]
struct LoneJob;

impl AtTurns for LoneJob {
    fn happens<N: Naming, T: Seating, R: Wait + Abort>(
        self,
        rt: &R,
        alloc: Global,
        turns: &Turns<N, T>,
        purses: Purses<N, T>,
    ) -> Back<N, T> {
        let made = AtomicU64::new(0);
        let job = Job::of(payment(100), purses.one, CountedTurn { made: &made });
        let one = paid_at(rt, job.run(turns, rt), 0);
        assert!(rt; made.load(Ordering::SeqCst) == 1 && one.entries() == 1);
        let purses = Purses { one, ..purses };
        purses.all(rt, alloc)
    }
}

/// The purse of an answer whose entry is at this place, and which tells the balance behind a payment of 1.00.
fn paid_at<N: Naming, T: Seating, R: Abort>(
    rt: &R,
    answer: JobAnswer<N, T>,
    place: u64,
) -> SeatedPurse<N, T> {
    let told = match answer.outcome() {
        Ok(reply) => balance(reply),
        Err(_) => None,
    };
    assert!(rt; answer.place() == Some(place) && told == Some(Cents::new(-1_100)));
    purse_of(answer)
}

#[test]
fn a_server_in_a_thread_answers_who_asks(rt: HostRuntime) {
    ask_at_a_book::<Brand, _>(&rt, rt.alloc(), Blanks::new())
}

/// Asks at a book of the plain opening.
fn ask_at_a_book<N: Naming + Send + Sync, R: Threads + Wait + Abort + Sync>(
    rt: &R,
    alloc: Global,
    blanks: Blanks,
)
    requires entries { blanks.entries.name ≡ N.entries }
    requires cents { blanks.cents.name ≡ N.cents }
{
    let turns = start_turns::<N, R>(rt, alloc, blanks);
    ask_at_its_turns::<N, Brand, R>(rt, alloc, turns)
}

/// Two entries are settled, of which the payment is one.
fn ask_at_its_turns<
    N: Naming + Send + Sync,
    T: Seating + Send + Sync,
    R: Threads + Wait + Abort + Sync,
>(rt: &R, alloc: Global, turns: UnnamedTurns<N>)
    requires name { turns.table ≡ T.table }
{
    let (turns, purses) = name_turns::<N, T, R>(rt, turns);
    let purses = ask_twice(rt, alloc, &turns, purses);
    settles(rt, turns, purses.all(rt, alloc), Totals(2, 100))
}

/// A payment and a query are asked one after the other, while a server serves in another thread.
fn ask_twice<N: Naming + Send + Sync, T: Seating + Send + Sync, R: Threads + Wait + Abort + Sync>(
    rt: &R,
    alloc: Global,
    turns: &Turns<N, T>,
    purses: Purses<N, T>,
) -> Purses<N, T> {
    let Purses { keeper, one, .. } = purses;
    let OneMailbox {
        mailboxes,
        idle,
        mut serving,
    } = make_one(rt, alloc);
    let closer = serving.split(&mailboxes);
    let boxes = &mailboxes;
    let (keeper, one) = join(
        rt,
        || -> SeatedPurse<N, T>
            requires { IsSync R.row
                × (serving_origin serving ≡ identity boxes.now)
                × (serving_hand serving ≡ None) }
        { serve_open(rt, boxes, turns, serving, keeper, 2) },
        || -> SeatedPurse<N, T>
            requires { IsSync R.row
                × (idle_origin idle ≡ identity boxes.now)
                × (serving_origin closer ≡ identity boxes.now) }
        { pay_and_look(rt, boxes, idle, closer, one) },
    );
    let_go(mailboxes);
    Purses {
        keeper,
        one,
        ..purses
    }
}

/// The purse that paid 1.00 and asked for the status, with the mailboxes closed behind it.
fn pay_and_look<N: Naming, T: Seating, R: Wait + Abort>(
    rt: &R,
    mailboxes: &JobMailboxes<N, T, PlainTurn>,
    idle: JobIdle<N, T, PlainTurn>,
    closer: JobServing<N, T, PlainTurn>,
    purse: SeatedPurse<N, T>,
) -> SeatedPurse<N, T>
    requires { (idle_origin idle ≡ identity mailboxes.now)
        × (serving_origin closer ≡ identity mailboxes.now) }
{
    let mut closer = closer;
    let (idle, paid) = ask_for(rt, mailboxes, idle, payment(100), purse);
    let purse = paid_at(rt, paid, 0);
    let (idle, seen) = ask_for(rt, mailboxes, idle, status(), purse);
    let purse = paid_at(rt, seen, 1);
    mailboxes.close(&mut closer);
    let_go((idle, closer));
    assert!(rt; (purse.entries(), purse.paid()) == (2, Cents::new(100)));
    purse
}

fn ask_for<N: Naming, T: Seating, R: Wait + Abort>(
    rt: &R,
    mailboxes: &JobMailboxes<N, T, PlainTurn>,
    idle: JobIdle<N, T, PlainTurn>,
    request: Request,
    purse: SeatedPurse<N, T>,
) -> (JobIdle<N, T, PlainTurn>, JobAnswer<N, T>)
    requires { idle_origin idle ≡ identity mailboxes.now }
    ensures { idle_origin result.0 ≡ identity mailboxes.now }
{
    let asked = ask(rt, mailboxes, idle, Job::of(request, purse, PlainTurn)).ok();
    asked.expect(rt, "a server answers until the mailboxes are closed")
}
