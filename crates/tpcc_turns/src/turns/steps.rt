//! The steps of a turn: a ticket is drawn, looked for, and ended.
ghost use Rattle.std.specs.Prelude.{◌≡◌, ◌<◌, ℕ, List, [], ◌∷◌, Option, Some};
ghost use Rattle.tpcc_turns.specs.Knows.{Idle, Out, Holds};
ghost use Rattle.tpcc_turns.specs.Knows.{knows};
ghost use Rattle.tpcc_turns.specs.Internal.TurnRule.{HasBook, HasGrown};
ghost use Rattle.tpcc_turns.specs.Internal.TurnSteps.{HasDrawn, Awaits, HasTaken, HasServedHere, CanEnd, CanGrow};
ghost use Rattle.tpcc_turns.specs.Internal.Shares.{both_of, last_parts, freed_of, back_of};
ghost use Rattle.tpcc_rows.specs.declared.transactions.entry.Entry.{Entry};
ghost use Rattle.tpcc_book.specs.Past.{Past};
ghost use Rattle.tpcc_book.specs.Turn.{TakesTurn, MakesTurn};

use crate::pause::Pause;
use crate::turns::gather::Joining;
use crate::turns::knows::Knows;
use crate::turns::rule::{Draw, End, Grow, Look, TurnRule};
use crate::turns::split::LastJoined;
use atomic_table::{Seat, Shared};
use std::sync::Wait;
use tpcc_book::{Answer, Book, Naming, Purse, Register, Turned};
use tpcc_population::Opening;
use tpcc_rows::{Request, recall};

/// The words and the slot that all seats share.
pub type Board<N> = Shared<Option<Book<N>>, Knows, Opening, TurnRule<N>>;

/// A seat at the board.
pub type BoardSeat<N> = Seat<Option<Book<N>>, Knows>;

// Draws a ticket.
fn draw<N: Naming>(board: &Board<N>, seat: &mut BoardSeat<N>) -> u64
    requires fits { (seat.old.table_id ≡ board.now.table_id) × (board.now.table_id.words ≡ 2) }
    requires idle { (seat.old.me.0.stage ≡ Idle) × (0 < seat.old.me.0.parts) }
    ensures same { (seat.new.table_id ≡ seat.old.table_id) × (seat.new.id ≡ seat.old.id) }
    ensures drawn { HasDrawn seat.old.me result seat.new.me }
{
    board.fetch_add::<Draw>(seat, 0, 1)
}

// Looks until the ticket is served, and takes the book.
fn wait<N: Naming, R: Wait>(rt: &R, board: &Board<N>, seat: &mut BoardSeat<N>, ticket: u64)
    requires fits { (seat.old.table_id ≡ board.now.table_id) × (board.now.table_id.words ≡ 2) }
    requires out { Awaits seat.old.me ticket }
    ensures same { (seat.new.table_id ≡ seat.old.table_id) × (seat.new.id ≡ seat.old.id) }
    ensures called { (number : ℕ) → seat.old.me.0.stage ≡ Out number
        → HasBook seat.old.me number seat.new.me }
{
    let mut pause = Pause::among(1);
    for _ in rt.forever() {
        let serving = board.load::<Look>(seat, 1);
        if serving == ticket {
            return;
        }
        pause.wait_behind(rt, ticket.wrapping_sub(serving));
    }
    unreachable!()
}

/// Ends the turn: the book is free for the next ticket, which is `next`.
pub(crate) fn end<N: Naming>(board: &Board<N>, seat: &mut BoardSeat<N>, next: u64)
    requires fits { (seat.old.table_id ≡ board.now.table_id) × (board.now.table_id.words ≡ 2) }
    requires holds { CanEnd seat.old.me next }
    ensures same { (seat.new.table_id ≡ seat.old.table_id) × (seat.new.id ≡ seat.old.id) }
    ensures ended { (book : Past) → seat.old.me.1 ≡ (0, Some book) ∷ []
        → seat.new.me
        ≡ (knows seat.old.me.0.start book.entries seat.old.me.0.parts Idle seat.old.me.0.told, []) }
{
    board.store::<End>(seat, 1, next);
}

/// Draws a ticket, and waits until it is served: then the seat has the turn, and the book in its slot.
pub(crate) fn take<N: Naming, R: Wait>(rt: &R, board: &Board<N>, seat: &mut BoardSeat<N>) -> u64
    requires fits { (seat.old.table_id ≡ board.now.table_id) × (board.now.table_id.words ≡ 2) }
    requires idle { (seat.old.me.0.stage ≡ Idle) × (0 < seat.old.me.0.parts)
        × (seat.old.me.1 ≡ []) }
    ensures same { (seat.new.table_id ≡ seat.old.table_id) × (seat.new.id ≡ seat.old.id) }
    ensures taken { HasTaken seat.old.me result seat.new.me }
{
    let ticket = draw(board, seat);
    wait(rt, board, seat, ticket);
    ticket
}

/// Serves a request for a purse at the book of the seat that has the turn, where the book lies.
pub(crate) fn serve<N: Naming, F: FnOnce(&mut Register, Request, u32, u64) -> Turned>(
    board: &Board<N>,
    seat: &mut BoardSeat<N>,
    request: Request,
    purse: Purse<N>,
    turn: F,
) -> Answer<Purse<N>>
    requires fits { seat.old.table_id ≡ board.now.table_id }
    requires has { (book : Past) × (seat.old.me.1 ≡ (0, Some book) ∷ []) }
    requires takes { TakesTurn (F.pre turn) }
    requires turns { MakesTurn (F.post turn) }
    ensures same { (seat.new.table_id ≡ seat.old.table_id) × (seat.new.id ≡ seat.old.id) }
    ensures served { HasServedHere seat.old.me request purse result seat.new.me }
{
    let Some(book) = seat.slot_mut(board, 0) else {
        unreachable!()
    };
    let answer = book.serve_by(request, purse, turn);
    // For the proof: the book is kept.
    recall!(book.journal());
    answer
}

/// Joins an idle seat into one that has the turn.
pub(crate) fn adopt<N: Naming>(board: &Board<N>, seat: &mut BoardSeat<N>, other: BoardSeat<N>)
    requires fits { (seat.old.table_id ≡ board.now.table_id) × (board.now.table_id.words ≡ 2) }
    requires other { (other.table_id ≡ board.now.table_id) × (other.me.0.stage ≡ Idle)
        × (other.me.1 ≡ []) }
    requires parts { (0 < seat.old.me.0.parts) × (0 < other.me.0.parts) }
    ensures same { (seat.new.table_id ≡ seat.old.table_id) × (seat.new.id ≡ seat.old.id) }
    ensures adopted { seat.new.me ≡ (both_of seat.old.me.0 other.me.0, seat.old.me.1) }
{
    board.join_seat::<Joining>(seat, other);
}

/// Tells the turn's seat that the journal is that of the book in its slot.
pub(crate) fn grow<N: Naming>(board: &Board<N>, seat: &mut BoardSeat<N>)
    requires fits { (seat.old.table_id ≡ board.now.table_id) × (board.now.table_id.words ≡ 2) }
    requires grows { CanGrow seat.old.me }
    ensures same { (seat.new.table_id ≡ seat.old.table_id) × (seat.new.id ≡ seat.old.id) }
    ensures grown { (number : ℕ) (base : List Entry) (book : Past)
        → seat.old.me.0.stage ≡ Holds number base
        → seat.old.me.1 ≡ (0, Some book) ∷ [] → HasGrown seat.old.me number base book seat.new.me }
{
    board.load::<Grow>(seat, 0);
}

/// Splits off the seat that was joined last.
pub(crate) fn free<N: Naming>(board: &Board<N>, seat: &mut BoardSeat<N>) -> BoardSeat<N>
    requires fits { (seat.old.table_id ≡ board.now.table_id) × (board.now.table_id.words ≡ 2) }
    requires parts { (0 < last_parts seat.old.me.0.told)
        × (last_parts seat.old.me.0.told < seat.old.me.0.parts) }
    ensures same { (seat.new.table_id ≡ seat.old.table_id) × (seat.new.id ≡ seat.old.id) }
    ensures left { seat.new.me ≡ (freed_of seat.old.me.0, seat.old.me.1) }
    ensures back { (result.table_id ≡ seat.old.table_id)
        × (result.me ≡ (back_of seat.old.me.0, [])) }
{
    board.split_seat::<LastJoined>(seat)
}
