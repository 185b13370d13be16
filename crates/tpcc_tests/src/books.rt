//! A book on one thread, which one function owns and lends with two purses of one terminal.
ghost use Rattle.std.specs.Prelude.{◌≡◌};

mod pay_once;

use crate::samples::requests::{let_go, opening, payment, purse_of};
use std::alloc::{AllocGlobal, Global};
use std::marker::Brand;
use std::process::Abort;
use tpcc_book::{Answer, Blanks, Book, Naming, Purse};
use tpcc_conditions::check;
use tpcc_money::Cents;
use tpcc_rows::{NoMemory, Refusal, Request};

/// What happens at a new book.
pub trait AtBook: Drop {
    /// Both purses are of terminal 5, and neither has an entry.
    fn happens<N: Naming, R: Abort + AllocGlobal>(
        self,
        rt: &R,
        alloc: Global,
        book: &mut Book<N>,
        one: Purse<N>,
        two: Purse<N>,
    );
}

/// Lends a book that is named here.
pub fn at_book<A: AtBook, R: Abort + AllocGlobal>(
    rt: &R,
    alloc: Global,
    what: A,
) -> Result<(), NoMemory> {
    at_named_book::<Brand, A, R>(rt, alloc, Blanks::new(), what)
}

/// Lends a book of the plain opening.
fn at_named_book<N: Naming, A: AtBook, R: Abort + AllocGlobal>(
    rt: &R,
    alloc: Global,
    blanks: Blanks,
    what: A,
) -> Result<(), NoMemory>
    requires entries { blanks.entries.name ≡ N.entries }
    requires cents { blanks.cents.name ≡ N.cents }
{
    let (mut book, mut first) = Book::<N>::start(alloc, &opening(rt), blanks)?;
    lend(rt, alloc, &mut book, &mut first, what);
    let_go(first);
    let_go(book);
    Ok(())
}

/// Lends the book, and splits two purses off its first one.
fn lend<N: Naming, A: AtBook, R: Abort + AllocGlobal>(
    rt: &R,
    alloc: Global,
    book: &mut Book<N>,
    first: &mut Purse<N>,
    what: A,
) {
    assert!(rt; first.room() == 10_000);
    let one = first.split(5);
    let two = first.split(5);
    what.happens(rt, alloc, book, one, two)
}

/// Serves a request, and serves it again where it was refused memory and changed nothing.
pub fn serve<N: Naming, R: Abort>(
    rt: &R,
    book: &mut Book<N>,
    request: Request,
    purse: Purse<N>,
) -> Answer<Purse<N>> {
    let entries = book.journal().len();
    let answer = book.serve(request, purse);
    if !matches!(answer.outcome(), Err(Refusal::NoMemory)) {
        return answer;
    }
    assert!(rt; book.journal().len() == entries && check(book.tables()).is_ok());
    serve_again(book, answer)
}

fn serve_again<N: Naming>(book: &mut Book<N>, answer: Answer<Purse<N>>) -> Answer<Purse<N>> {
    let (request, _, _, purse) = answer.into_parts();
    book.serve(request, purse)
}

#[test]
fn the_second_purse_of_a_terminal_is_a_stranger(rt: HostRuntime) {
    assert!(rt; at_book(&rt, rt.alloc(), TwoPurses).is_ok())
}

/// The journal already has an entry of the terminal when the second purse pays.
#[derive(Drop)]
struct TwoPurses;

impl AtBook for TwoPurses {
    fn happens<N: Naming, R: Abort + AllocGlobal>(
        self,
        rt: &R,
        _alloc: Global,
        book: &mut Book<N>,
        one: Purse<N>,
        two: Purse<N>,
    ) {
        let (paid, one) = pay(rt, book, one);
        let (refused, two) = pay(rt, book, two);
        let seen = (paid, refused, value_of(&one), value_of(&two));
        let entries = book.journal().len();
        let one = (5, 1, Cents::new(100));
        let two = (5, 0, Cents::new(0));
        assert!(rt; seen == (None, Some(Refusal::Stranger(1)), one, two) && entries == 1);
    }
}

/// The refusal of a payment of 1.00, and the purse.
fn pay<N: Naming, R: Abort>(
    rt: &R,
    book: &mut Book<N>,
    purse: Purse<N>,
) -> (Option<Refusal>, Purse<N>) {
    let answer = serve(rt, book, payment(100), purse);
    let refusal = match answer.outcome() {
        Ok(_) => None,
        Err(refusal) => Some(*refusal),
    };
    (refusal, purse_of(answer))
}

/// The terminal, entries and cents of a purse.
fn value_of<N: Naming>(purse: &Purse<N>) -> (u32, u64, Cents) {
    (purse.terminal(), purse.entries(), purse.paid())
}
