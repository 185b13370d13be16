//! The end of the turns: all purses put together, and the book.
ghost use Rattle.std.specs.Prelude.{◌≡◌, ◌+◌, ◌<◌, ◌↔◌, [], IsOk, IfOk, IfErr, IfSome, IfNone, None, Some};
ghost use Rattle.std.specs.Slots.{slots_items, slots_len, IsFull};
ghost use Rattle.tpcc_turns.specs.Knows.{Idle};
ghost use Rattle.tpcc_turns.specs.Closing.{IsLeft, IsGathered};
ghost use Rattle.tpcc_turns.specs.Internal.Closing.{TellsBook, IsAudited};
ghost use Rattle.tpcc_turns.specs.Internal.Gathering.{HasJoined};
ghost use Rattle.tpcc_book.specs.Purses.{all_shares, pool_with};
ghost use Rattle.tpcc_turns.specs.Seats.{purses_of};
ghost use Rattle.tpcc_turns.specs.Internal.Seats.{view_of};
ghost use Rattle.tpcc_book.specs.Serve.{rooms_of};
ghost use Rattle.tpcc_turns.specs.Internal.Shares.{both_of};

use crate::turns::Turns;
use crate::turns::knows::Knows;
use crate::turns::seated::{SeatedPurse, Seating};
use crate::turns::steps::{Board, BoardSeat};
use atomic_table::{Closed, Join};
use std::alloc::Global;
use tpcc_book::{ALL_SHARES, Book, Naming, Pool};
use tpcc_money::Cents;

/// One seat takes in what another knows.
pub struct Joining;

impl Join<Knows> for Joining {
    ghost use Rattle.tpcc_turns.specs.Internal.Shares.{both_of, nobody};

    ghost both = { both_of };

    ghost spent = { nobody };
}

impl<N: Naming, T: Seating> Turns<N, T> {
    /// Ends the turns, and puts the purses together: the book, how many entries the purses made, and what
    /// they paid. Refused where the purses are not all there: their number and their rooms do not add up to
    /// 10,001. Then there is no book where a turn was drawn and not ended, which needs a purse that is held
    /// back in the middle of a call. It takes no memory and does not wait.
    pub fn gather(
        self,
        purses: Vec<SeatedPurse<N, T>>,
    ) -> Result<(Book<N>, u64, Cents), Option<Book<N>>>
        ensures exactly { IsOk result ↔ (rooms_of (purses_of purses.items) ≡ all_shares) }
        ensures gathered { IfOk result (λ r. IsGathered self purses.items r.0 r.1 r.2) }
        ensures left { IfErr result (λ book. IfSome book (IsLeft self purses.items)) }
    {
        let Turns { table, of: _ } = self;
        let Some((seat, pool)) = join_all(&table.shared, purses) else {
            return Err(home_of(table.close()));
        };
        audit_book(home_of(table.close_with(seat)), pool)
    }
}

// Joins the seats of all purses into the last one's, and pools their shares.
fn join_all<N: Naming, T: Seating>(
    board: &Board<N>,
    purses: Vec<SeatedPurse<N, T>>,
) -> Option<(BoardSeat<N>, Pool<N>)>
    requires name { board.now.table_id ≡ T.table }
    requires words { board.now.table_id.words ≡ 2 }
    ensures none { IfNone result (purses.items ≡ []) }
    ensures seat { IfSome result (λ r. r.0.table_id ≡ T.table) }
    ensures joined { IfSome result (λ r. HasJoined purses.items [] r.1 r.0.me.0) }
{
    let mut rest = purses;
    let Some(last) = rest.pop() else {
        return None;
    };
    let (purse, mut seat) = last.into_seat();
    let mut pool = Pool::of(purse);
    while let Some(next) = rest.pop() {
        join(board, &mut seat, &mut pool, next);
    }
    Some((seat, pool))
}

// Joins one purse's seat into another, and its shares into the pool.
fn join<N: Naming, T: Seating>(
    board: &Board<N>,
    seat: &mut BoardSeat<N>,
    pool: &mut Pool<N>,
    purse: SeatedPurse<N, T>,
)
    requires name { (board.now.table_id ≡ T.table) × (seat.old.table_id ≡ T.table) }
    requires words { board.now.table_id.words ≡ 2 }
    requires idle { (seat.old.me.0.stage ≡ Idle) × (0 < seat.old.me.0.parts) }
    ensures same { seat.new.table_id ≡ seat.old.table_id }
    ensures seat { seat.new.me.0 ≡ both_of seat.old.me.0 (view_of purse) }
    ensures pool { pool.new ≡ pool_with pool.old purse.purse }
{
    let (purse, other) = purse.into_seat();
    board.join_seat::<Joining>(seat, other);
    pool.take_in(purse);
}

// What lies in the slot of a closed table, where each ticket that was drawn was served. What it is stays open: so this is
// proved of a plain parameter.
fn home_of<B: Drop>(closed: Closed<Option<B>, Global>) -> Option<B>
    requires full { IsFull closed.words × IsFull closed.slots }
    requires counts { (slots_len closed.words ≡ 2) × (slots_len closed.slots ≡ 1) }
    ensures told { TellsBook (slots_items closed.words) (slots_items closed.slots) result }
{
    let mut closed = closed;
    let drawn = closed.word(0);
    let served = closed.word(1);
    let slot = closed.take(0);
    closed.free();
    if drawn == served { slot } else { None }
}

// The book with the two totals, where all purses are pooled.
fn audit_book<N: Naming>(
    book: Option<Book<N>>,
    pool: Pool<N>,
) -> Result<(Book<N>, u64, Cents), Option<Book<N>>>
    ensures missing { IfErr result (λ left. left ≡ book) }
    ensures few { IfErr result (λ left. pool.parts ≡ all_shares → book ≡ None) }
    ensures all { IfOk result (λ r. (pool.parts ≡ all_shares) × (book ≡ Some r.0)) }
    ensures audited { IfOk result (λ r. IsAudited pool r.0 r.1 r.2) }
{
    if pool.parts() != ALL_SHARES {
        return Err(book);
    }
    let Some(mut book) = book else {
        return Err(None);
    };
    let (entries, paid) = book.audit(pool);
    Ok((book, entries, paid))
}
