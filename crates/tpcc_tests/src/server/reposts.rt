//! Mailboxes that are closed in the middle of a round.
ghost use Rattle.std.specs.Prelude.{◌≡◌};
ghost use Rattle.tpcc_mailbox.specs.Tokens.{identity, serving_origin, waiting_origin};

use super::posted::{OneMailbox, make_one, post};
use crate::samples::plain_turn::PlainTurn;
use crate::samples::purses::Settlement::BookLeft;
use crate::samples::purses::{Back, Purses};
use crate::samples::requests::{BEFORE, let_go, purse_of};
use crate::turns::{AtTurns, at_turns};
use std::alloc::Global;
use std::process::Abort;
use std::sync::Wait;
use tpcc_book::Naming;
use tpcc_server::{Gate, JobMailboxes, JobServing, JobWaiting, serve_until_closed};
use tpcc_turns::{Seating, Turns};

#[test]
fn a_round_is_made_behind_a_flag_that_was_seen(rt: HostRuntime) {
    at_turns(&rt, rt.alloc(), CloseInARound, BookLeft(2)).expect(&rt, BEFORE)
}

/// Behind the first job its client collects, posts again and closes: the next round finds that job, since a
/// server reads the flag before its round. The client's purse stays in its mailbox, and goes with it.
#[derive(Drop)]
struct CloseInARound;

impl AtTurns for CloseInARound {
    fn happens<N: Naming, T: Seating, R: Wait + Abort>(
        self,
        rt: &R,
        alloc: Global,
        turns: &Turns<N, T>,
        purses: Purses<N, T>,
    ) -> Back<N, T> {
        let Purses { keeper, one, .. } = purses;
        let OneMailbox {
            mailboxes,
            idle,
            mut serving,
        } = make_one(rt, alloc);
        let closer = serving.split(&mailboxes);
        let waiting = post(&mailboxes, idle, one, PlainTurn);
        let gate = RepostGate {
            client: Some(Reposter {
                mailboxes: &mailboxes,
                closer,
                waiting,
            }),
        };
        let (serving, gate, served, keeper) = serve_until_closed(
            rt, &mailboxes, serving, turns, gate, 9, keeper,
        );
        let_go(keeper);
        let_go(serving);
        let_go(gate);
        let_go(mailboxes);
        assert!(rt; served == 2);
        Vec::new(alloc)
    }
}

/// A gate behind which the client of the first job posts again.
#[derive(Drop)]
struct RepostGate<'a, N: Naming, T: Seating> {
    client: Option<Reposter<'a, N, T>>,
}

impl<'a, N: Naming, T: Seating> Gate for RepostGate<'a, N, T> {
    fn is_open(&self) -> bool {
        false
    }

    fn before(&mut self, _mailbox: usize) {}

    fn after(&mut self, _mailbox: usize) {
        if let Some(client) = self.client.take() {
            client.post_again()
        }
    }
}

/// The client, and the right to close.
#[derive(Drop)]
struct Reposter<'a, N: Naming, T: Seating> {
    mailboxes: &'a JobMailboxes<N, T, PlainTurn>,
    closer: JobServing<N, T, PlainTurn>,
    waiting: JobWaiting<N, T, PlainTurn>,
    ghost closes: { serving_origin closer ≡ identity mailboxes.now },
    ghost waits: { waiting_origin waiting ≡ identity mailboxes.now },
}

impl<'a, N: Naming, T: Seating> Reposter<'a, N, T> {
    /// Collects the answer, which is there behind the gate, posts again, and closes.
    fn post_again(self) {
        let Reposter {
            mailboxes,
            closer,
            waiting,
        } = self;
        let mut closer = closer;
        if let Some((idle, answer)) = mailboxes.collect(waiting).ok() {
            let_go(post(mailboxes, idle, purse_of(answer), PlainTurn));
        }
        mailboxes.close(&mut closer);
        let_go(closer)
    }
}
