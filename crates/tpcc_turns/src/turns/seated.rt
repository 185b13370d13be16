//! Purses with a seat at the turns.
ghost use Rattle.std.specs.Prelude.{◌≡◌, ◌+◌, ◌<◌, [], ◌∷◌, pos};
ghost use Rattle.tpcc_turns.specs.Knows.{Idle};
ghost use Rattle.tpcc_turns.specs.Knows.{knows};
ghost use Rattle.tpcc_turns.specs.Seats.{CanSeat, seated_at};
ghost use Rattle.tpcc_turns.specs.Internal.Seats.{view_of};

use crate::turns::knows::Knows;
use crate::turns::steps::BoardSeat;
use atomic_table::Badge;
use std::marker::{Brand, Model, PhantomData};
use tpcc_book::{Book, CarriesPurse, Naming, Purse};
use tpcc_money::Cents;

/// A type that stands for the table in which one book stands. Whoever names turns picks it, so a purse
/// seated at other turns has another type.
pub trait Seating {
    ghost use Rattle.atomic_table.specs.Seated.{TableId};

    /// The table.
    ghost table: { TableId };
}

impl Seating for Brand {
    ghost use Rattle.tpcc_turns.specs.Seats.{no_table};

    ghost table = { no_table };
}

/// A purse with a seat at the turns of its book. It knows the book's opening and the front: the entries
/// of the journal that the purse has seen, from the first one on.
pub struct SeatedPurse<N: Naming, T: Seating> {
    /// The purse itself.
    pub(crate) purse: Purse<N>,
    /// Its seat, put away while it has no ticket.
    pub(crate) badge: Badge<Knows>,
    /// Which table it is, for its type alone.
    of: PhantomData<T>,
}

// By hand, as of a book.
impl<N: Naming, T: Seating> Drop for SeatedPurse<N, T> {
    fn drop(self) {
        let SeatedPurse {
            purse: _,
            badge: _,
            of: _,
        } = self;
    }
}

impl<N: Naming, T: Seating> Model for SeatedPurse<N, T> {
    ghost use Rattle.std.specs.Prelude.{◌≡◌, ◌+◌, [], ◌∷◌};
    ghost use Rattle.tpcc_turns.specs.Knows.{Idle};
    ghost use Rattle.tpcc_turns.specs.Knows.{knows};
    ghost use Rattle.tpcc_turns.specs.Seats.{SeatedView};
    ghost use Rattle.tpcc_turns.specs.Internal.Seats.{start_of, front_of};

    ghost Value = { SeatedView };

    ghost view = { λ p. record {
      purse = p.purse;
      start = start_of p.badge.views;
      front = front_of p.badge.views;
    } };

    ghost invariant = { λ p. (p.badge.table_id ≡ T.table)
        × (p.badge.views
        ≡ knows (start_of p.badge.views) (front_of p.badge.views)
        (p.purse.room + 1) Idle [] ∷ []) };
}

// An answer of the book is one of the turns once its purse is seated again.
impl<N: Naming, T: Seating> CarriesPurse for SeatedPurse<N, T> {
    type Purse = Purse<N>;

    type Rest = BoardSeat<N>;

    ghost use Rattle.tpcc_turns.specs.Seats.{CanSeat, seated_at};

    ghost fits = { λ purse seat. CanSeat T.table seat purse };

    ghost carrying = { seated_at };

    ghost purse_in = { λ p. p.purse };

    fn carry(purse: Purse<N>, seat: BoardSeat<N>) -> SeatedPurse<N, T>
        requires fits { CanSeat T.table seat purse }
        ensures both { result ≡ seated_at purse seat }
        ensures purse { result.purse ≡ purse }
    {
        SeatedPurse::seated(purse, seat)
    }
}

impl<N: Naming, T: Seating> SeatedPurse<N, T> {
    // A purse whose seat has no ticket.
    pub(crate) fn seated(purse: Purse<N>, seat: BoardSeat<N>) -> SeatedPurse<N, T>
        requires table { seat.table_id ≡ T.table }
        requires idle { seat.me
            ≡ (knows seat.me.0.start seat.me.0.front (purse.room + 1) Idle [], []) }
        ensures seated { result ≡ seated_at purse seat }
    {
        SeatedPurse {
            purse,
            badge: seat.into_badge(),
            of: PhantomData,
        }
    }

    // The purse, and its seat.
    pub(crate) fn into_seat(self) -> (Purse<N>, BoardSeat<N>)
        ensures purse { result.0 ≡ self.purse }
        ensures table { result.1.table_id ≡ T.table }
        ensures seat { result.1.me ≡ (view_of self, []) }
    {
        let SeatedPurse {
            purse,
            badge,
            of: _,
        } = self;
        (purse, badge.into_seat::<Option<Book<N>>>())
    }

    /// The terminal whose purse it is.
    pub fn terminal(&self) -> u32
        ensures terminal { result ≡ self.now.purse.terminal }
    {
        self.purse.terminal()
    }

    /// How many entries of the journal were made by this purse.
    pub fn entries(&self) -> u64
        ensures entries { result ≡ self.now.purse.entries }
    {
        self.purse.entries()
    }

    /// The sum of the payments that were made by this purse, in cents.
    pub fn paid(&self) -> Cents
        ensures paid { result ≡ self.now.purse.paid }
    {
        self.purse.paid()
    }

    /// How many purses can still be split off: of a book's first purse 10,000 less those that were split off, of any
    /// other 0.
    pub fn room(&self) -> u32
        ensures room { result ≡ self.now.purse.room }
    {
        self.purse.room()
    }
}
