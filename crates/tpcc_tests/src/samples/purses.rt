//! The purses of a book whose turns are named: five that are split off, and what those that come back come to.
use crate::samples::requests::{BEFORE, let_go};
use std::alloc::Global;
use std::process::Abort;
use tpcc_audit::settle;
use tpcc_book::{Book, Naming};
use tpcc_money::Cents;
use tpcc_turns::{SeatedPurse, Seating, Turns};

/// A book's first purse, and those that were split off it.
#[derive(Drop)]
pub struct Purses<N: Naming, T: Seating> {
    /// The first one, a server's.
    pub keeper: SeatedPurse<N, T>,
    /// Of terminal 1.
    pub one: SeatedPurse<N, T>,
    /// Of terminal 2.
    pub two: SeatedPurse<N, T>,
    /// Of terminal 3.
    pub three: SeatedPurse<N, T>,
    /// A second server's.
    pub other: SeatedPurse<N, T>,
}

/// Which purses are handed in.
#[derive(Clone, Copy)]
pub enum HandIn {
    /// All.
    All,
    /// All but that of terminal 2.
    AllButTwo,
}

/// The purses that come back from a test.
pub type Back<N, T> = Vec<SeatedPurse<N, T>>;

pub fn split_off<N: Naming, T: Seating, R: Abort>(
    rt: &R,
    turns: &Turns<N, T>,
    first: SeatedPurse<N, T>,
) -> Purses<N, T> {
    let mut first = first;
    assert!(rt; first.room() == 10_000);
    let one = first.split(turns, 1);
    let two = first.split(turns, 2);
    let three = first.split(turns, 3);
    let other = first.split(turns, 4);
    Purses {
        keeper: first,
        one,
        two,
        three,
        other,
    }
}

impl<N: Naming, T: Seating> Purses<N, T> {
    /// All of them.
    pub fn all<R: Abort>(self, rt: &R, alloc: Global) -> Back<N, T> {
        self.back(rt, alloc, HandIn::All)
    }

    /// Those that are handed in.
    pub fn back<R: Abort>(self, rt: &R, alloc: Global, hand_in: HandIn) -> Back<N, T> {
        let Purses {
            keeper,
            one,
            two,
            three,
            other,
        } = self;
        let mut purses = Vec::with_capacity(alloc, 5).expect(rt, BEFORE);
        purses.push_reserved(keeper);
        purses.push_reserved(one);
        purses.push_reserved(three);
        purses.push_reserved(other);
        match hand_in {
            HandIn::All => purses.push_reserved(two),
            HandIn::AllButTwo => let_go(two),
        }
        purses
    }
}

/// What a settlement has to come to.
#[derive(Clone, Copy)]
pub enum Settlement {
    /// So many entries in the book and of the purses, so many cents that were paid, and as large a rise.
    Totals(usize, i64),
    /// A book of so many entries is left, since a purse is missing.
    BookLeft(usize),
}

/// Settles the purses that came back.
pub fn settles<N: Naming, T: Seating, R: Abort>(
    rt: &R,
    turns: Turns<N, T>,
    back: Back<N, T>,
    wanted: Settlement,
) {
    let wanted = match wanted {
        Settlement::Totals(entries, cents) => {
            let cents = Cents::new(cents);
            (Some(entries), Some((entries as u64, cents, cents)))
        }
        Settlement::BookLeft(entries) => (Some(entries), None),
    };
    assert!(rt; end(turns, back) == wanted);
}

/// How many entries the book that is left has, and the entries, cents and rise of the purses where none is missing.
fn end<N: Naming, T: Seating>(
    turns: Turns<N, T>,
    purses: Back<N, T>,
) -> (Option<usize>, Option<(u64, Cents, Cents)>) {
    match settle(turns, purses) {
        Ok((book, totals)) => (
            Some(entries_of(book)),
            Some((totals.entries, totals.paid, totals.rise)),
        ),
        Err((Some(book), _)) => (Some(entries_of(book)), None),
        Err((None, _)) => (None, None),
    }
}

fn entries_of<N: Naming>(book: Book<N>) -> usize {
    let entries = book.journal().len();
    let_go(book);
    entries
}
