//! Turns at a book, which one function owns and lends with the book's purses, and settles with those that come back.
ghost use Rattle.std.specs.Prelude.{◌≡◌};

use crate::samples::purses::Settlement::BookLeft;
use crate::samples::purses::{Back, HandIn, Purses, Settlement, settles, split_off};
use crate::samples::requests::{opening, payment, purse_of, status};
use std::alloc::Global;
use std::marker::Brand;
use std::process::Abort;
use std::sync::Wait;
use tpcc_book::{Answer, Blanks, Naming};
use tpcc_rows::{NoMemory, Refusal, Request};
use tpcc_turns::{SeatedPurse, Seating, Turns, UnnamedTurns};

/// What happens at the turns of a new book.
pub trait AtTurns: Drop {
    /// The purses that come back.
    fn happens<N: Naming, T: Seating, R: Wait + Abort>(
        self,
        rt: &R,
        alloc: Global,
        turns: &Turns<N, T>,
        purses: Purses<N, T>,
    ) -> Back<N, T>;
}

/// Lends turns whose book is named here.
pub fn at_turns<A: AtTurns, R: Wait + Abort>(
    rt: &R,
    alloc: Global,
    what: A,
    wanted: Settlement,
) -> Result<(), NoMemory> {
    at_opened_turns::<Brand, A, R>(rt, alloc, Blanks::new(), what, wanted)
}

/// Lends turns at a book of the plain opening.
fn at_opened_turns<N: Naming, A: AtTurns, R: Wait + Abort>(
    rt: &R,
    alloc: Global,
    blanks: Blanks,
    what: A,
    wanted: Settlement,
) -> Result<(), NoMemory>
    requires entries { blanks.entries.name ≡ N.entries }
    requires cents { blanks.cents.name ≡ N.cents }
{
    let turns = UnnamedTurns::<N>::start(alloc, &opening(rt), blanks)?;
    at_named_turns::<N, Brand, A, R>(rt, alloc, turns, what, wanted);
    Ok(())
}

/// Turns at a book of the plain opening, for who sends them to threads: no method of a trait can.
pub fn start_turns<N: Naming, R: Abort>(rt: &R, alloc: Global, blanks: Blanks) -> UnnamedTurns<N>
    requires entries { blanks.entries.name ≡ N.entries }
    requires cents { blanks.cents.name ≡ N.cents }
{
    let Ok(turns) = UnnamedTurns::<N>::start(alloc, &opening(rt), blanks) else {
        panic!(rt; "memory for the opening")
    };
    turns
}

/// Turns whose table is named, with the book's purses.
pub fn name_turns<N: Naming, T: Seating, R: Abort>(
    rt: &R,
    turns: UnnamedTurns<N>,
) -> (Turns<N, T>, Purses<N, T>)
    requires name { turns.table ≡ T.table }
{
    let (turns, first) = turns.name::<T>();
    let purses = split_off(rt, &turns, first);
    (turns, purses)
}

/// Lends turns whose table is named, with the book's purses, and settles those that come back.
fn at_named_turns<N: Naming, T: Seating, A: AtTurns, R: Wait + Abort>(
    rt: &R,
    alloc: Global,
    turns: UnnamedTurns<N>,
    what: A,
    wanted: Settlement,
)
    requires name { turns.table ≡ T.table }
{
    let (turns, purses) = name_turns::<N, T, R>(rt, turns);
    let back = what.happens(rt, alloc, &turns, purses);
    settles(rt, turns, back, wanted)
}

#[test]
fn a_book_is_left_where_a_purse_is_missing(rt: HostRuntime) {
    assert!(rt; at_turns(&rt, rt.alloc(), WithheldPurse, BookLeft(3)).is_ok())
}

/// The purse that asked for the status does not come back.
#[derive(Drop)]
struct WithheldPurse;

impl AtTurns for WithheldPurse {
    fn happens<N: Naming, T: Seating, R: Wait + Abort>(
        self,
        rt: &R,
        alloc: Global,
        turns: &Turns<N, T>,
        purses: Purses<N, T>,
    ) -> Back<N, T> {
        serve_three(rt, turns, purses).back(rt, alloc, HandIn::AllButTwo)
    }
}

/// The book's first purse pays 2.50, terminal 1 pays 1.00, and terminal 2 asks for the customer's status.
pub fn serve_three<N: Naming, T: Seating, R: Wait + Abort>(
    rt: &R,
    turns: &Turns<N, T>,
    purses: Purses<N, T>,
) -> Purses<N, T> {
    let Purses {
        keeper,
        one,
        two,
        ..
    } = purses;
    Purses {
        keeper: serve_once(rt, turns, payment(250), keeper),
        one: serve_once(rt, turns, payment(100), one),
        two: serve_once(rt, turns, status(), two),
        ..purses
    }
}

/// The purse behind one turn, which is made again where it was refused memory.
fn serve_once<N: Naming, T: Seating, R: Wait + Abort>(
    rt: &R,
    turns: &Turns<N, T>,
    request: Request,
    purse: SeatedPurse<N, T>,
) -> SeatedPurse<N, T> {
    let purse = purse_of(serve(rt, turns, request, purse));
    assert!(rt; purse.entries() == 1);
    purse
}

fn serve<N: Naming, T: Seating, R: Wait>(
    rt: &R,
    turns: &Turns<N, T>,
    request: Request,
    purse: SeatedPurse<N, T>,
) -> Answer<SeatedPurse<N, T>> {
    let answer = turns.serve(rt, request, purse);
    if !matches!(answer.outcome(), Err(Refusal::NoMemory)) {
        return answer;
    }
    let (request, _, _, purse) = answer.into_parts();
    turns.serve(rt, request, purse)
}
