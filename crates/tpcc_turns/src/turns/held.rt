//! A turn that is kept over the requests of many purses.
ghost use Rattle.std.specs.Prelude.{◌≡◌};
ghost use mathlib.Core.List.{IsPrefix};
ghost use Rattle.tpcc_turns.specs.Seats.{IsTurned, keeper_of};
ghost use Rattle.tpcc_book.specs.Turn.{TakesTurn, MakesTurn};

use crate::turns::Turns;
use crate::turns::seated::{SeatedPurse, Seating};
use crate::turns::steps::{BoardSeat, adopt, end, free, grow, serve, take};
use std::marker::{Model, PhantomData};
use std::sync::Wait;
use tpcc_book::{Answer, Naming, Purse, Register, Turned};
use tpcc_rows::Request;

/// The turn of one purse, its keeper, with the book. Each request that is served in it is a turn of the book for the
/// purse that asks. It is seen as the keeper's purse will be once the turn ends: with the opening, and the journal as
/// it stands. It is not `Drop`, since its book would go with it, and no other turn could come: `Turns::end` has to
/// spend it.
pub struct HeldTurn<N: Naming, T: Seating> {
    /// The keeper's own purse; requests are served by those of others.
    purse: Purse<N>,
    /// The keeper's seat, which has the book to itself.
    seat: BoardSeat<N>,
    /// The ticket that is served, modulo 2^64.
    ticket: u64,
    /// Which table it is, for its type alone.
    of: PhantomData<T>,
}

impl<N: Naming, T: Seating> Model for HeldTurn<N, T> {
    ghost use Rattle.std.specs.Prelude.{◌+◌};
    ghost use Rattle.tpcc_turns.specs.Seats.{SeatedView};
    ghost use Rattle.tpcc_turns.specs.Internal.Seats.{IsHeldTurn};

    ghost Value = { SeatedView };

    ghost view = { λ h.
        record { purse = h.purse; start = h.seat.me.0.start; front = h.seat.me.0.front } };

    ghost invariant = { λ h. IsHeldTurn T.table h.seat (h.purse.room + 1) h.ticket };
}

impl<N: Naming, T: Seating> Turns<N, T> {
    /// Waits for the purse's turn, and keeps it.
    pub fn begin<R: Wait>(&self, rt: &R, purse: SeatedPurse<N, T>) -> HeldTurn<N, T>
        ensures keeper { keeper_of result ≡ keeper_of purse }
        ensures begins { IsPrefix purse.front result.front }
    {
        let (purse, mut seat) = purse.into_seat();
        let ticket = take(rt, &self.table.shared, &mut seat);
        HeldTurn {
            purse,
            seat,
            ticket,
            of: PhantomData,
        }
    }

    /// Whether somebody else has drawn a turn since this one.
    pub fn is_awaited(&self, held: &HeldTurn<N, T>) -> bool {
        self.table.shared.peek(0) != held.ticket.wrapping_add(1)
    }

    /// Whether somebody has a turn, or waits for one.
    pub fn is_busy(&self) -> bool {
        self.table.shared.peek(0) != self.table.shared.peek(1)
    }

    /// Serves a request for a purse in a turn that is kept, by a call that makes a turn of the book.
    pub fn serve_held<F: FnOnce(&mut Register, Request, u32, u64) -> Turned>(
        &self,
        held: HeldTurn<N, T>,
        request: Request,
        purse: SeatedPurse<N, T>,
        turn: F,
    ) -> (HeldTurn<N, T>, Answer<SeatedPurse<N, T>>)
        requires takes { TakesTurn (F.pre turn) }
        requires turns { MakesTurn (F.post turn) }
        ensures keeper { keeper_of result.0 ≡ keeper_of held }
        ensures grows { IsPrefix held.front result.0.front }
        ensures seen { result.1.purse.front ≡ result.0.front }
        ensures turned { IsTurned request purse result.1 }
    {
        let HeldTurn {
            purse: keeper,
            mut seat,
            ticket,
            of,
        } = held;
        let (purse, other) = purse.into_seat();
        let board = &self.table.shared;
        adopt(board, &mut seat, other);
        let answer = serve(board, &mut seat, request, purse, turn);
        grow(board, &mut seat);
        let back = free(board, &mut seat);
        let held = HeldTurn {
            purse: keeper,
            seat,
            ticket,
            of,
        };
        (held, answer.carried_with(back))
    }

    /// Ends a turn that was kept, and gives the keeper's purse, which has seen the whole journal as this turn left it:
    /// so its front begins with each front that it had before, and with that of each request that was served meanwhile.
    pub fn end(&self, held: HeldTurn<N, T>) -> SeatedPurse<N, T>
        ensures purse { result ≡ held }
    {
        let HeldTurn {
            purse,
            mut seat,
            ticket,
            of: _,
        } = held;
        end(&self.table.shared, &mut seat, ticket.wrapping_add(1));
        SeatedPurse::seated(purse, seat)
    }
}
