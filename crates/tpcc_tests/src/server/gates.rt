//! Servers at gates that may hold them: one that is held while another goes on, and whether the book is free meanwhile.
ghost use Rattle.std.specs.Prelude.{◌≡◌, None};
ghost use Rattle.std.specs.Thread.{IsSync};
ghost use Rattle.tpcc_mailbox.specs.Tokens.{identity, serving_origin, serving_hand};

use super::held::{FIRST, Jobs, SECOND, Server, both_serve, comes_to};
use super::posted::{JobPair, paid_purse, paid_purses, post, post_both};
use super::two_jobs::{ServesTwoJobs, TwoJobs};
use crate::samples::plain_turn::PlainTurn;
use crate::samples::purses::Settlement::{BookLeft, Totals};
use crate::samples::purses::{HandIn, Purses, Settlement, settles};
use crate::samples::requests::{BEFORE, let_go};
use crate::turns::{at_turns, name_turns, start_turns};
use std::alloc::Global;
use std::marker::Brand;
use std::process::Abort;
use std::sync::Wait;
use std::sync::atomic::AtomicU64;
use std::thread::{Threads, join};
use std::time::Clock;
use tpcc_book::{Blanks, Naming};
use tpcc_server::{Gate, JobMailboxes, JobServing, OneTurn, serve_until_closed};
use tpcc_turns::{SeatedPurse, Seating, Turns, UnnamedTurns};

#[test]
fn a_held_server_is_stood_in_for(rt: HostRuntime) {
    hold_first::<Brand, _>(&rt, rt.alloc(), Blanks::new(), HandIn::All, Totals(2, 200))
}

#[test]
fn a_book_is_left_where_the_purse_of_a_thread_is_missing(rt: HostRuntime) {
    hold_first::<Brand, _>(
        &rt,
        rt.alloc(),
        Blanks::new(),
        HandIn::AllButTwo,
        BookLeft(2),
    )
}

/// Holds the server of the first job at a book of the plain opening.
fn hold_first<N: Naming + Send + Sync, R: Threads + Wait + Clock + Abort + Sync>(
    rt: &R,
    alloc: Global,
    blanks: Blanks,
    hand_in: HandIn,
    wanted: Settlement,
)
    requires entries { blanks.entries.name ≡ N.entries }
    requires cents { blanks.cents.name ≡ N.cents }
{
    let turns = start_turns::<N, R>(rt, alloc, blanks);
    hold_first_at::<N, Brand, R>(rt, alloc, turns, hand_in, wanted)
}

/// At turns whose table is named.
fn hold_first_at<
    N: Naming + Send + Sync,
    T: Seating + Send + Sync,
    R: Threads + Wait + Clock + Abort + Sync,
>(rt: &R, alloc: Global, turns: UnnamedTurns<N>, hand_in: HandIn, wanted: Settlement)
    requires name { turns.table ≡ T.table }
{
    let (turns, purses) = name_turns::<N, T, R>(rt, turns);
    let purses = hold_up_first(rt, alloc, &turns, purses);
    settles(rt, turns, purses.back(rt, alloc, hand_in), wanted)
}

/// Two jobs lie in closed mailboxes, and the server that takes the first one is held until the other has answered.
fn hold_up_first<
    N: Naming + Send + Sync,
    T: Seating + Send + Sync,
    R: Threads + Wait + Clock + Abort + Sync,
>(rt: &R, alloc: Global, turns: &Turns<N, T>, purses: Purses<N, T>) -> Purses<N, T> {
    let Purses {
        keeper,
        one,
        two,
        other,
        ..
    } = purses;
    let JobPair {
        mailboxes,
        first,
        middle,
        last,
        mut serving,
    } = post_both(rt, alloc, one, two, (PlainTurn, PlainTurn));
    let_go(middle);
    mailboxes.close(&mut serving);
    let second = serving.split(&mailboxes);
    let (keeper, other) = serve_one_each(rt, &mailboxes, turns, (serving, keeper), (second, other));
    let (one, two) = paid_purses(rt, mailboxes, first, last);
    Purses {
        keeper,
        one,
        two,
        other,
        ..purses
    }
}

/// The purses of both servers, which have answered one job each.
fn serve_one_each<
    N: Naming + Send + Sync,
    T: Seating + Send + Sync,
    R: Threads + Wait + Clock + Abort + Sync,
>(
    rt: &R,
    mailboxes: &JobMailboxes<N, T, PlainTurn>,
    turns: &Turns<N, T>,
    first: Server<N, T>,
    second: Server<N, T>,
) -> (SeatedPurse<N, T>, SeatedPurse<N, T>)
    requires { (serving_origin first.0 ≡ identity mailboxes.now)
        × (serving_hand first.0 ≡ None)
        × (serving_origin second.0 ≡ identity mailboxes.now)
        × (serving_hand second.0 ≡ None) }
{
    let jobs = Jobs::new();
    let (served, keeper, other) = both_serve(rt, mailboxes, turns, first, second, &jobs, FIRST);
    assert!(rt; served == (1, 1));
    (keeper, other)
}

#[test]
fn a_server_that_is_held_at_its_second_job_has_given_the_book_back(rt: HostRuntime) {
    hold_second::<Brand, _>(&rt, rt.alloc(), Blanks::new(), Totals(3, 300))
}

/// Holds the first server at its second job, at a book of the plain opening.
fn hold_second<N: Naming + Send + Sync, R: Threads + Wait + Clock + Abort + Sync>(
    rt: &R,
    alloc: Global,
    blanks: Blanks,
    wanted: Settlement,
)
    requires entries { blanks.entries.name ≡ N.entries }
    requires cents { blanks.cents.name ≡ N.cents }
{
    let turns = start_turns::<N, R>(rt, alloc, blanks);
    hold_second_at::<N, Brand, R>(rt, alloc, turns, wanted)
}

/// At turns whose table is named.
fn hold_second_at<
    N: Naming + Send + Sync,
    T: Seating + Send + Sync,
    R: Threads + Wait + Clock + Abort + Sync,
>(rt: &R, alloc: Global, turns: UnnamedTurns<N>, wanted: Settlement)
    requires name { turns.table ≡ T.table }
{
    let (turns, purses) = name_turns::<N, T, R>(rt, turns);
    let purses = hold_up_second(rt, alloc, &turns, purses);
    settles(rt, turns, purses.all(rt, alloc), wanted)
}

/// Three jobs wait. The first server is held at its second one until the other server, which begins then, has answered
/// the third. The mailboxes are closed once all are answered.
fn hold_up_second<
    N: Naming + Send + Sync,
    T: Seating + Send + Sync,
    R: Threads + Wait + Clock + Abort + Sync,
>(rt: &R, alloc: Global, turns: &Turns<N, T>, purses: Purses<N, T>) -> Purses<N, T> {
    let Purses {
        keeper,
        one,
        two,
        three,
        other,
    } = purses;
    let JobPair {
        mailboxes,
        first,
        middle,
        last,
        serving,
    } = post_both(rt, alloc, one, three, (PlainTurn, PlainTurn));
    let middle = post(&mailboxes, middle, two, PlainTurn);
    let mut serving = serving;
    let second = (serving.split(&mailboxes), other);
    let closer = serving.split(&mailboxes);
    let (keeper, other) = serve_until_all(rt, &mailboxes, turns, (serving, keeper), second, closer);
    let two = paid_purse(rt, &mailboxes, middle);
    let (one, three) = paid_purses(rt, mailboxes, first, last);
    Purses {
        keeper,
        one,
        two,
        three,
        other,
    }
}

/// The purses of both servers, of which the first has answered two jobs, and the second the third.
fn serve_until_all<
    N: Naming + Send + Sync,
    T: Seating + Send + Sync,
    R: Threads + Wait + Clock + Abort + Sync,
>(
    rt: &R,
    mailboxes: &JobMailboxes<N, T, PlainTurn>,
    turns: &Turns<N, T>,
    first: Server<N, T>,
    second: Server<N, T>,
    closer: JobServing<N, T, PlainTurn>,
) -> (SeatedPurse<N, T>, SeatedPurse<N, T>)
    requires first { (serving_origin first.0 ≡ identity mailboxes.now) × (serving_hand first.0 ≡ None) }
    requires second { (serving_origin second.0 ≡ identity mailboxes.now) × (serving_hand second.0 ≡ None) }
    requires closer { serving_origin closer ≡ identity mailboxes.now }
{
    let jobs = Jobs::new();
    let seen = &jobs;
    let ((served, keeper, other), ()) = join(
        rt,
        || -> ((u64, u64), SeatedPurse<N, T>, SeatedPurse<N, T>)
            requires { IsSync R.row
                × (serving_origin first.0 ≡ identity mailboxes.now)
                × (serving_hand first.0 ≡ None)
                × (serving_origin second.0 ≡ identity mailboxes.now)
                × (serving_hand second.0 ≡ None) }
        { both_serve(rt, mailboxes, turns, first, second, seen, SECOND) },
        ||
            requires { IsSync R.row × (serving_origin closer ≡ identity mailboxes.now) }
        { close_behind(rt, mailboxes, closer, seen, 3) },
    );
    assert!(rt; served == (2, 1));
    (keeper, other)
}

/// Closes the mailboxes once so many jobs are answered.
fn close_behind<N: Naming, T: Seating, R: Clock + Abort>(
    rt: &R,
    mailboxes: &JobMailboxes<N, T, PlainTurn>,
    closer: JobServing<N, T, PlainTurn>,
    jobs: &Jobs,
    wanted: u64,
)
    requires { serving_origin closer ≡ identity mailboxes.now }
{
    let are_answered = comes_to(rt, &jobs.answered, wanted);
    let mut closer = closer;
    mailboxes.close(&mut closer);
    let_go(closer);
    assert!(rt; are_answered);
}

#[test]
fn a_gate_that_may_hold_is_passed_without_the_book(rt: HostRuntime) {
    at_turns(&rt, rt.alloc(), TwoJobs(LookingServer), Totals(2, 200)).expect(&rt, BEFORE)
}

/// A lone server passes its gate before and behind each of two jobs.
#[derive(Drop)]
struct LookingServer;

impl ServesTwoJobs for LookingServer {
    fn serve<N: Naming, T: Seating, C: OneTurn, R: Wait + Abort>(
        self,
        rt: &R,
        mailboxes: &JobMailboxes<N, T, C>,
        turns: &Turns<N, T>,
        serving: JobServing<N, T, C>,
        keeper: SeatedPurse<N, T>,
        _made: &AtomicU64,
    ) -> SeatedPurse<N, T> {
        let gate = LookingGate {
            turns,
            looks: 0,
            is_free: true,
        };
        let (serving, gate, served, keeper) = serve_until_closed(
            rt, mailboxes, serving, turns, gate, 2, keeper,
        );
        let_go(serving);
        assert!(rt; (served, gate.looks, gate.is_free) == (2, 4, true));
        keeper
    }
}

/// A gate that looks whether anybody has the book.
#[derive(Drop)]
struct LookingGate<'a, N: Naming, T: Seating> {
    turns: &'a Turns<N, T>,
    looks: u64,
    is_free: bool,
}

impl<'a, N: Naming, T: Seating> LookingGate<'a, N, T> {
    fn look(&mut self) {
        self.looks = self.looks.saturating_add(1);
        self.is_free = self.is_free && !self.turns.is_busy();
    }
}

impl<'a, N: Naming, T: Seating> Gate for LookingGate<'a, N, T> {
    fn is_open(&self) -> bool {
        false
    }

    fn before(&mut self, _mailbox: usize) {
        self.look()
    }

    fn after(&mut self, _mailbox: usize) {
        self.look()
    }
}
