//! A book that serves the requests of one script.
ghost use Rattle.std.specs.Prelude.{◌≡◌, IfOk, length};
ghost use Rattle.tpcc_book.specs.Past.{opening_past};
ghost use Rattle.tpcc_rows.specs.Conditions.{first_broken};
ghost use Rattle.tpcc_rows.specs.Replay.{results_of};
ghost use Rattle.tpcc_text.specs.Screens as screens;
ghost use Rattle.tpcc_text.specs.declared.script.call.Call.TheVariants.{Ask};
ghost use Rattle.tpcc_script.specs.Run.{Shows};
ghost use Rattle.tpcc_script.specs.Internal.Run.{HasServed};
ghost use Rattle.tpcc_script.specs.Session.{book_of};

use std::alloc::Global;
use std::marker::Model;
use tpcc_book::{Answer, Blanks, Book, Naming, Purse};
use tpcc_population::Opening;
use tpcc_rows::{NoMemory, Request};
use tpcc_show::{check_screen, results_screen, screen};
use tpcc_text::{Call, Screen};

/// A book, with the purse of terminal 1, which makes each of the script's requests.
pub struct Session<N: Naming> {
    /// What its requests are served by.
    book: Book<N>,
    /// The purse of terminal 1; None only while it is served with.
    purse: Option<Purse<N>>,
}

// By hand, so that who lets a session go proves nothing of how the book goes.
impl<N: Naming> Drop for Session<N> {
    fn drop(self) {
        let Session { book: _, purse: _ } = self;
    }
}

impl<N: Naming> Model for Session<N> {
    ghost use Rattle.tpcc_book.specs.Past.{Past};
    ghost use Rattle.tpcc_script.specs.Internal.Session.{IsAtHand};

    ghost Value = { Past };

    ghost view = { λ s. s.book };

    ghost invariant = { λ s. IsAtHand s.book s.purse };
}

impl<N: Naming> Session<N> {
    /// The session of an opening. Refused only for want of memory.
    pub fn start(alloc: Global, opening: &Opening, blanks: Blanks) -> Result<Session<N>, NoMemory>
        requires entries { blanks.entries.name ≡ N.entries }
        requires cents { blanks.cents.name ≡ N.cents }
        ensures started { IfOk result (λ s. s ≡ opening_past opening.now) }
    {
        let (book, first) = Book::start(alloc, opening, blanks)?;
        let mut first = first;
        let purse = first.split(1);
        Ok(Session {
            book,
            purse: Some(purse),
        })
    }

    /// The book that the requests left.
    pub fn book(&self) -> &Book<N>
        ensures book { result.now ≡ self.now }
    {
        &self.book
    }

    /// How many entries the requests made.
    pub(crate) fn entries(&self) -> usize
        ensures entries { result ≡ length self.now.entries }
    {
        self.book.journal().len()
    }
}

impl<N: Naming> Session<N> {
    /// Serves a call and gives its screen; refused only for want of memory for the screen, and then the call was served.
    #[tactic(auto, using(crate::proofs::Turns::shows_check, crate::proofs::Turns::shows_results))]
    pub(crate) fn answer(&mut self, alloc: Global, call: Call) -> Result<Screen, NoMemory>
        ensures shown { IfOk result
            (λ screen. Shows (book_of self.old) call screen (book_of self.new)) }
        ensures served { HasServed (book_of self.old) call (book_of self.new) }
    {
        match call {
            Call::Ask(request) => self.serve(alloc, request),
            Call::Check => self.check(alloc),
            Call::Results => self.results(alloc),
        }
    }

    // Serves a request and gives the screen of the answer: one turn, which is a transaction and its entry, or a refusal and no
    // change.
    fn serve(&mut self, alloc: Global, request: Request) -> Result<Screen, NoMemory>
        ensures shown { IfOk result
            (λ s. Shows (book_of self.old) (Ask request) s (book_of self.new)) }
        ensures served { HasServed (book_of self.old) (Ask request) (book_of self.new) }
    {
        let Some(purse) = self.purse.take() else {
            unreachable!()
        };
        let answer = self.book.serve(request, purse);
        let shown = screen(alloc, &answer);
        self.purse = Some(purse_of(answer));
        shown
    }

    // The screen of the consistency conditions (3.3.2).
    fn check(&self, alloc: Global) -> Result<Screen, NoMemory>
        ensures { IfOk result
            (λ s. s ≡ screens.check_screen (first_broken (book_of self.now).state.rows)) }
    {
        check_screen(alloc, self.book.tables())
    }

    // The screens of the delivery result log (2.7.2.2).
    fn results(&self, alloc: Global) -> Result<Screen, NoMemory>
        ensures { IfOk result
            (λ s. s ≡ screens.results_screen (results_of (book_of self.now).journal)) }
    {
        results_screen(alloc, self.book.journal())
    }
}

fn purse_of<P>(answer: Answer<P>) -> P
    ensures purse { result ≡ answer.purse }
{
    let (_, _, _, purse) = answer.into_parts();
    purse
}
