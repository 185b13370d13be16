//! Splitting a seated purse.
ghost use Rattle.std.specs.Prelude.{◌≡◌, ◌+◌, ◌<◌, pos};

use crate::turns::Turns;
use crate::turns::knows::Knows;
use crate::turns::seated::{SeatedPurse, Seating};
use atomic_table::{Badge, Split};
use std::mem::replace;
use tpcc_book::{Book, Naming};

/// One part goes to a new seat, which has seen as much.
pub struct OneShare;

impl Split<Knows> for OneShare {
    ghost use Rattle.tpcc_turns.specs.Internal.Shares.{kept_of, given_of};

    ghost left = { kept_of };

    ghost right = { given_of };
}

/// Who was joined last goes, with its parts, and has seen as much.
pub struct LastJoined;

impl Split<Knows> for LastJoined {
    ghost use Rattle.tpcc_turns.specs.Internal.Shares.{freed_of, back_of};

    ghost left = { freed_of };

    ghost right = { back_of };
}

impl<N: Naming, T: Seating> SeatedPurse<N, T> {
    /// An empty purse of a terminal, which takes one of the rooms, and has seen as much. It does not wait.
    pub fn split(&mut self, turns: &Turns<N, T>, terminal: u32) -> SeatedPurse<N, T>
        requires room { 0 < self.old.purse.room }
        ensures new { result
            ≡ record {
              purse = record { terminal = terminal; entries = 0; paid = pos 0; room = 0 };
              start = self.old.start;
              front = self.old.front;
            } }
        ensures rest { self.old
            ≡ record {
              purse = record self.new.purse { room = self.new.purse.room + 1 };
              start = self.new.start;
              front = self.new.front;
            } }
    {
        let board = &turns.table.shared;
        let badge = replace(&mut self.badge, Badge::blank());
        let mut seat = badge.into_seat::<Option<Book<N>>>();
        let given = board.split_seat::<OneShare>(&mut seat);
        self.badge = seat.into_badge();
        SeatedPurse::seated(self.purse.split(terminal), given)
    }
}
