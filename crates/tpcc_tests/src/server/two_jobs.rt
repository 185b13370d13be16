//! Two jobs that wait in the first and the last of three mailboxes, which one function posts, lends and collects.
ghost use Rattle.std.specs.Prelude.{◌≡◌, None};
ghost use Rattle.tpcc_mailbox.specs.Tokens.{identity, serving_origin, serving_hand};

use super::posted::{JobPair, paid_purses, post_both};
use crate::samples::counted_turn::CountedTurn;
use crate::samples::purses::{Back, Purses};
use crate::samples::requests::let_go;
use crate::turns::AtTurns;
use std::alloc::Global;
use std::process::Abort;
use std::sync::Wait;
use std::sync::atomic::AtomicU64;
use tpcc_book::Naming;
use tpcc_server::{JobMailboxes, JobServing, OneTurn};
use tpcc_turns::{SeatedPurse, Seating, Turns};

/// What a server does with the two jobs.
pub(super) trait ServesTwoJobs: Drop {
    /// Gives the server's purse back. What was made of the two calls is counted in `made`.
    fn serve<N: Naming, T: Seating, C: OneTurn, R: Wait + Abort>(
        self,
        rt: &R,
        mailboxes: &JobMailboxes<N, T, C>,
        turns: &Turns<N, T>,
        serving: JobServing<N, T, C>,
        keeper: SeatedPurse<N, T>,
        made: &AtomicU64,
    ) -> SeatedPurse<N, T>
        requires { (serving_origin serving ≡ identity mailboxes.now) × (serving_hand serving ≡ None) };
}

/// The payments of terminals 1 and 2, 1.00 each, which this server serves.
#[derive(Drop)]
pub(super) struct TwoJobs<S>(pub S);

impl<S: ServesTwoJobs> AtTurns for TwoJobs<S> {
    fn happens<N: Naming, T: Seating, R: Wait + Abort>(
        self,
        rt: &R,
        alloc: Global,
        turns: &Turns<N, T>,
        purses: Purses<N, T>,
    ) -> Back<N, T> {
        let TwoJobs(server) = self;
        let Purses {
            keeper,
            one,
            two,
            ..
        } = purses;
        let made = AtomicU64::new(0);
        let calls = (CountedTurn { made: &made }, CountedTurn { made: &made });
        let JobPair {
            mailboxes,
            first,
            middle,
            last,
            serving,
        } = post_both(rt, alloc, one, two, calls);
        let_go(middle);
        let keeper = server.serve(rt, &mailboxes, turns, serving, keeper, &made);
        let (one, two) = paid_purses(rt, mailboxes, first, last);
        let purses = Purses {
            keeper,
            one,
            two,
            ..purses
        };
        purses.all(rt, alloc)
    }
}
