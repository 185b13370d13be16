//! Mailboxes that are closed and taken apart with an answer and a letter in them.
ghost use Rattle.std.specs.Prelude.{◌≡◌, None};
ghost use Rattle.tpcc_mailbox.specs.Tokens.{identity, waiting_origin, serving_origin, serving_hand};

use super::left::{letter_of, reply_of};
use super::posted::{JobPair, post_both};
use crate::samples::plain_turn::PlainTurn;
use crate::samples::purses::Settlement::Totals;
use crate::samples::purses::{Back, Purses};
use crate::samples::requests::{BEFORE, let_go, payment, purse_of};
use crate::turns::{AtTurns, at_turns};
use std::alloc::Global;
use std::process::Abort;
use std::sync::Wait;
use tpcc_book::Naming;
use tpcc_mailbox::Client;
use tpcc_money::Cents;
use tpcc_server::{Errand, JobMailboxes, JobServing, JobWaiting};
use tpcc_turns::{SeatedPurse, Seating, Turns};

#[test]
fn an_answer_and_a_letter_are_reclaimed_with_their_purses(rt: HostRuntime) {
    at_turns(&rt, rt.alloc(), OneAnswer, Totals(1, 100)).expect(&rt, BEFORE)
}

/// Two jobs are posted, one of them is taken and answered, and the mailboxes are closed.
#[derive(Drop)]
struct OneAnswer;

impl AtTurns for OneAnswer {
    fn happens<N: Naming, T: Seating, R: Wait + Abort>(
        self,
        rt: &R,
        alloc: Global,
        turns: &Turns<N, T>,
        purses: Purses<N, T>,
    ) -> Back<N, T> {
        let Purses { one, two, .. } = purses;
        let JobPair {
            mailboxes,
            first,
            middle,
            last,
            mut serving,
        } = post_both(rt, alloc, one, two, (PlainTurn, PlainTurn));
        let_go(middle);
        answer_first(rt, &mailboxes, &mut serving, turns);
        mailboxes.close(&mut serving);
        let (one, two) = reclaim_both(rt, alloc, mailboxes, first, last, serving);
        let purses = Purses { one, two, ..purses };
        purses.all(rt, alloc)
    }
}

/// A server takes the job of the first mailbox, runs it and answers.
fn answer_first<N: Naming, T: Seating, R: Wait + Abort>(
    rt: &R,
    mailboxes: &JobMailboxes<N, T, PlainTurn>,
    serving: &mut JobServing<N, T, PlainTurn>,
    turns: &Turns<N, T>,
)
    requires origin { serving_origin serving.old ≡ identity mailboxes.now }
    requires free { serving_hand serving.old ≡ None }
    ensures origin { serving_origin serving.new ≡ identity mailboxes.now }
{
    let Some((taken, job)) = mailboxes.take(serving, 0) else {
        panic!(rt; "a job was posted")
    };
    let answer = job.run(turns, rt);
    mailboxes.answer(serving, taken, answer);
}

/// The purses of the answer and of the letter that are left.
fn reclaim_both<N: Naming, T: Seating, R: Abort>(
    rt: &R,
    alloc: Global,
    mailboxes: JobMailboxes<N, T, PlainTurn>,
    first: JobWaiting<N, T, PlainTurn>,
    last: JobWaiting<N, T, PlainTurn>,
    serving: JobServing<N, T, PlainTurn>,
) -> (SeatedPurse<N, T>, SeatedPurse<N, T>)
    requires { (waiting_origin first ≡ identity mailboxes)
        × (waiting_origin last ≡ identity mailboxes)
        × (serving_origin serving ≡ identity mailboxes) }
{
    let mut clients = Vec::with_capacity(alloc, 2).expect(rt, BEFORE);
    clients.push_reserved(Client::Waiting(first));
    clients.push_reserved(Client::Waiting(last));
    let mut servings = Vec::with_capacity(alloc, 1).expect(rt, BEFORE);
    servings.push_reserved(serving);
    let reclaimed = mailboxes.reclaim(clients, servings).ok();
    let mut lefts = reclaimed.expect(rt, "memory for what is left");
    let letter = letter_of(
        rt,
        lefts.pop().expect(rt, "what is left for the last client"),
    );
    let answer = reply_of(
        rt,
        lefts.pop().expect(rt, "what is left for the first client"),
    );
    assert!(rt; lefts.is_empty());
    let (request, two) = letter.give_back();
    let one = purse_of(answer);
    assert!(rt; request == payment(100) && value_of(&two) == (2, 0, Cents::new(0)));
    assert!(rt; value_of(&one) == (1, 1, Cents::new(100)));
    (one, two)
}

/// The terminal, entries and cents of a purse.
fn value_of<N: Naming, T: Seating>(purse: &SeatedPurse<N, T>) -> (u32, u64, Cents) {
    (purse.terminal(), purse.entries(), purse.paid())
}
