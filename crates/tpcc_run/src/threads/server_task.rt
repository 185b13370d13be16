//! What a server does in its thread.
ghost use Rattle.std.specs.Prelude.{◌≡◌, None};
ghost use Rattle.tpcc_mailbox.specs.Tokens.{identity, serving_origin, serving_hand};
ghost use Rattle.tpcc_turns.specs.Seats.{keeper_of};

use std::sync::Wait;
use tpcc_book::Naming;
use tpcc_server::{JobMailboxes, JobServing, OneTurn, OpenGate, serve_until_closed};
use tpcc_turns::{SeatedPurse, Seating, Turns};

/// Mailboxes to be served until they are closed, or until `limit` jobs are answered.
#[derive(Drop)]
pub(crate) struct ServerTask<'s, N: Naming, T: Seating, C> {
    /// The mailboxes that are looked at.
    pub mailboxes: &'s JobMailboxes<N, T, C>,
    /// The right to take jobs.
    pub serving: JobServing<N, T, C>,
    /// How many jobs are answered at most.
    pub limit: u64,
    /// The server's own purse, which makes no entry and pays nothing.
    pub purse: SeatedPurse<N, T>,
    /// The right is one of these mailboxes'.
    pub ghost origin: { serving_origin serving ≡ identity mailboxes.now },
    /// No letter is in its hand.
    pub ghost free: { serving_hand serving ≡ None },
}

impl<'s, N: Naming, T: Seating, C: OneTurn> ServerTask<'s, N, T, C> {
    /// Serves, and gives the server's purse back.
    pub(crate) fn serve<R: Wait>(self, turns: &Turns<N, T>, rt: &R) -> SeatedPurse<N, T>
        ensures keeper { keeper_of result ≡ keeper_of self.entry.purse }
    {
        let ServerTask {
            mailboxes,
            serving,
            limit,
            purse,
        } = self;
        let (_, _, _, purse) = serve_until_closed(
            rt, mailboxes, serving, turns, OpenGate, limit, purse,
        );
        purse
    }
}
