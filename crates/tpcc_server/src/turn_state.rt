//! Whether a server has the turn.
ghost use Rattle.std.specs.Prelude.{◌≡◌};
ghost use Rattle.tpcc_turns.specs.Seats.{keeper_of};
ghost use Rattle.tpcc_server.specs.Internal.TurnStates.{keeper_in};

use crate::job::JobMailboxes;
use crate::lull::Lull;
use std::sync::Wait;
use tpcc_book::Naming;
use tpcc_turns::{HeldTurn, Pause, SeatedPurse, Seating, Turns};

/// How often a server that stands by looks again whether the book is free.
const LOOKS: u32 = 10;

/// Among how many it stands by, as its pauses count them.
const STANDING_BY: u64 = 1_000;

/// A server's purse: without a turn, or with one that it keeps. It is not `Drop`, since a turn has to be ended.
pub(crate) enum TurnState<N: Naming, T: Seating> {
    /// It has none.
    Free(SeatedPurse<N, T>),
    /// It has one, and the book with it.
    Holding(HeldTurn<N, T>),
}

impl<N: Naming, T: Seating> TurnState<N, T> {
    /// With the turn, for which it waits where it has none.
    pub(crate) fn hold<R: Wait>(self, rt: &R, turns: &Turns<N, T>) -> HeldTurn<N, T>
        ensures keeper { keeper_of result ≡ keeper_in self }
    {
        match self {
            TurnState::Free(purse) => turns.begin(rt, purse),
            TurnState::Holding(held) => held,
        }
    }

    /// Without a turn.
    pub(crate) fn rest(self, turns: &Turns<N, T>) -> SeatedPurse<N, T>
        ensures keeper { keeper_of result ≡ keeper_in self }
    {
        match self {
            TurnState::Free(purse) => purse,
            TurnState::Holding(held) => turns.end(held),
        }
    }

    /// Without a turn where somebody else waits for one, and else as it was.
    pub(crate) fn give_way(self, turns: &Turns<N, T>) -> TurnState<N, T>
        ensures keeper { keeper_in result ≡ keeper_in self }
    {
        match self {
            TurnState::Free(purse) => TurnState::Free(purse),
            TurnState::Holding(held) => {
                if turns.is_awaited(&held) {
                    TurnState::Free(turns.end(held))
                } else {
                    TurnState::Holding(held)
                }
            }
        }
    }

    /// Waits a while, where it has no turn and somebody else has: a server that comes at once would take the turn
    /// from the one that keeps it, at each of its jobs.
    pub(crate) fn stand_by<R: Wait>(&self, rt: &R, turns: &Turns<N, T>) {
        let mut pause = Pause::among(STANDING_BY);
        for _ in 0..LOOKS {
            if matches!(self, TurnState::Holding(_)) || !turns.is_busy() {
                return;
            }
            pause.wait(rt);
        }
    }

    /// Waits until there may be a job again. Where there was none for long it gives the turn up first, so that a client that
    /// finds the book free serves itself.
    pub(crate) fn pause<C, R: Wait>(
        self,
        rt: &R,
        turns: &Turns<N, T>,
        mailboxes: &JobMailboxes<N, T, C>,
        lull: &mut Lull,
    ) -> TurnState<N, T>
        ensures keeper { keeper_in result ≡ keeper_in self }
    {
        if !lull.is_long(mailboxes.len()) {
            return self;
        }
        let state = TurnState::Free(self.rest(turns));
        lull.wait(rt, mailboxes);
        state
    }
}
