//! Turns at a book: a ticket word, a serving word, and the book in a slot.
//!
//! Threads share `Turns` and each has a `SeatedPurse`. To serve a request a thread draws a ticket, waits
//! until it is served, has the book for itself, and gives it back and serves the next ticket. So requests
//! are served in the order of their tickets, one at a time.
ghost use Rattle.std.specs.Prelude.{◌≡◌};
ghost use Rattle.tpcc_turns.specs.Seats.{IsTurned};
ghost use Rattle.tpcc_book.specs.Turn.{TakesTurn, MakesTurn};

mod gather;
mod held;
mod knows;
mod rule;
mod seated;
mod split;
mod steps;
mod unnamed;

use crate::pause::Pause;
use crate::turns::knows::Knows;
use crate::turns::rule::TurnRule;
use crate::turns::steps::{end, serve, take};
use atomic_table::Table;
pub use held::HeldTurn;
pub use seated::{SeatedPurse, Seating};
use std::alloc::Global;
use std::marker::{Model, PhantomData};
use std::sync::Wait;
use tpcc_book::{Answer, Book, Naming, Register, Turned};
use tpcc_population::Opening;
use tpcc_rows::Request;
pub use unnamed::UnnamedTurns;

/// How often a thread looks whether the book is free before it draws a ticket all the same.
const LOOKS: u32 = 100;

/// Among how many it waits for that, as its pauses count them.
const WAITING: u64 = 100;

/// A book that is served one request at a time, in the order in which turns were drawn. It is seen as
/// the book's opening; what purses have seen of the journal stands in them.
pub struct Turns<N: Naming, T: Seating> {
    /// Both words, the book's slot and the seats' rule.
    table: Table<Option<Book<N>>, Knows, Opening, TurnRule<N>, Global>,
    /// Which table it is, for its type alone.
    of: PhantomData<T>,
}

// By hand, as of a book.
impl<N: Naming, T: Seating> Drop for Turns<N, T> {
    fn drop(self) {
        let Turns { table: _, of: _ } = self;
    }
}

impl<N: Naming, T: Seating> Model for Turns<N, T> {
    ghost use Rattle.tpcc_population.specs.declared.opening.Opening.{Opening};
    ghost use Rattle.tpcc_turns.specs.Internal.Seats.{IsTurnTable};

    ghost Value = { Opening };

    ghost view = { λ t. t.table.shared.key };

    ghost invariant = { λ t. IsTurnTable T.table t.table.shared.table_id };
}

impl<N: Naming, T: Seating> Turns<N, T> {
    pub(crate) fn of(
        table: Table<Option<Book<N>>, Knows, Opening, TurnRule<N>, Global>,
    ) -> Turns<N, T>
        requires name { table.shared.table_id ≡ T.table }
        requires counts { (table.shared.table_id.words ≡ 2) × (table.shared.table_id.slots ≡ 1) }
        ensures opening { result ≡ table.shared.key }
    {
        Turns {
            table,
            of: PhantomData,
        }
    }

    /// Waits for the purse's turn and serves a request for it: one transaction and one entry at its
    /// place, or the first refusal and nothing.
    pub fn serve<R: Wait>(
        &self,
        rt: &R,
        request: Request,
        purse: SeatedPurse<N, T>,
    ) -> Answer<SeatedPurse<N, T>>
        ensures turned { IsTurned request purse result }
    {
        self.serve_by(
            rt,
            request,
            purse,
            |register: &mut Register, request: Request, terminal: u32, number: u64| {
                register.turn(request, terminal, number)
            },
        )
    }

    /// The same by a call that makes a turn.
    pub fn serve_by<R: Wait, F: FnOnce(&mut Register, Request, u32, u64) -> Turned>(
        &self,
        rt: &R,
        request: Request,
        purse: SeatedPurse<N, T>,
        turn: F,
    ) -> Answer<SeatedPurse<N, T>>
        requires takes { TakesTurn (F.pre turn) }
        requires turns { MakesTurn (F.post turn) }
        ensures turned { IsTurned request purse result }
    {
        self.wait_until_free(rt);
        let (purse, mut seat) = purse.into_seat();
        let board = &self.table.shared;
        let ticket = take(rt, board, &mut seat);
        let answer = serve(board, &mut seat, request, purse, turn);
        end(board, &mut seat, ticket.wrapping_add(1));
        answer.carried_with(seat)
    }

    // Waits for a moment in which nobody has a turn, though not for ever. Tickets are served in the order in which they were
    // drawn, so that each turn costs a change of threads once many are out; where none is, the thread at work goes on.
    fn wait_until_free<R: Wait>(&self, rt: &R) {
        let mut pause = Pause::among(WAITING);
        for _ in 0..LOOKS {
            if !self.is_busy() {
                return;
            }
            pause.wait(rt);
        }
    }
}
