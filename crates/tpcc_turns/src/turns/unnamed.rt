//! Turns at a new book.
ghost use Rattle.std.specs.Prelude.{◌≡◌, [], ◌∷◌, IfOk, Some};
ghost use Rattle.tpcc_book.specs.Purses.{first_purse};

use crate::turns::Turns;
use crate::turns::knows::Knows;
use crate::turns::rule::TurnRule;
use crate::turns::seated::{SeatedPurse, Seating};
use crate::turns::steps::BoardSeat;
use atomic_table::{Refused, Table};
use std::alloc::Global;
use std::marker::Model;
use tpcc_book::{Blanks, Book, Naming, Purse};
use tpcc_population::Opening;
use tpcc_rows::NoMemory;

/// Turns at a new book, which have no name yet, with the book's first purse. Whoever starts turns
/// names them with a type that stands for their table.
#[derive(Drop)]
pub struct UnnamedTurns<N: Naming> {
    /// Both words and the new book in its slot.
    table: Table<Option<Book<N>>, Knows, Opening, TurnRule<N>, Global>,
    /// The first seat, which has all parts.
    seat: BoardSeat<N>,
    /// The book's first purse.
    purse: Purse<N>,
}

impl<N: Naming> Model for UnnamedTurns<N> {
    ghost use Rattle.tpcc_turns.specs.Seats.{UnnamedView};
    ghost use Rattle.tpcc_turns.specs.Internal.Seats.{IsUnnamed};

    ghost Value = { UnnamedView };

    ghost view = { λ t. record { opening = t.table.shared.key; table = t.table.shared.table_id } };

    ghost invariant = { λ t.
        IsUnnamed t.table.shared.table_id t.table.shared.key t.seat t.purse };
}

impl<N: Naming> UnnamedTurns<N> {
    /// Turns at the book of an opening. Refused only for want of memory.
    pub fn start(
        alloc: Global,
        opening: &Opening,
        blanks: Blanks,
    ) -> Result<UnnamedTurns<N>, NoMemory>
        requires entries { blanks.entries.name ≡ N.entries }
        requires cents { blanks.cents.name ≡ N.cents }
        ensures opening { IfOk result (λ t. t.opening ≡ opening.now) }
    {
        let (book, purse) = Book::<N>::start(alloc, opening, blanks)?;
        let slots = one_slot(alloc, book)?;
        match Table::new(alloc, &[0, 0], slots, opening) {
            Ok((table, seat)) => Ok(UnnamedTurns { table, seat, purse }),
            Err(refused) => Err(no_memory(refused)),
        }
    }

    /// The turns under a name, and the first purse, which has seen nothing.
    pub fn name<T: Seating>(self) -> (Turns<N, T>, SeatedPurse<N, T>)
        requires name { self.table ≡ T.table }
        ensures turns { result.0 ≡ self.opening }
        ensures purse { result.1
            ≡ record { purse = first_purse; start = self.opening; front = [] } }
    {
        let UnnamedTurns { table, seat, purse } = self;
        (Turns::of(table), SeatedPurse::seated(purse, seat))
    }
}

// One slot that is full, of whatever lies in it.
fn one_slot<B: Drop>(alloc: Global, book: B) -> Result<Vec<Option<B>>, NoMemory>
    ensures slot { IfOk result (λ slots. slots.items ≡ Some book ∷ []) }
{
    let mut slots = Vec::with_capacity(alloc, 1)?;
    slots.push_reserved(Some(book));
    Ok(slots)
}

fn no_memory<S: Drop>(refused: Refused<S, Global>) -> NoMemory {
    let Refused { slots: _ } = refused;
    NoMemory
}
