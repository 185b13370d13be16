//! A sealed answer.
ghost use Rattle.std.specs.Prelude.{◌≡◌};
ghost use Rattle.tpcc_book.specs.AnswerView.{answer_with};
ghost use Rattle.tpcc_book.specs.Internal.AnswerView.{answer_of};

use crate::carrying::CarriesPurse;
use crate::register::outcome::Turned;
use std::marker::Model;
use tpcc_rows::{Refusal, Reply, Request};

/// What a served request gives back. `Book::serve` and `Book::serve_by` alone make one, with the purse that was handed
/// in, and it has no copy. `carried_with` hands that very purse on. So whoever holds an answer holds what a book
/// answered, with the purse that it answered for.
pub struct Answer<P> {
    /// The request, its outcome and the place of its entry.
    turned: Turned,
    /// The purse that was handed in, as the turn left it.
    purse: P,
}

// By hand, as of a book.
impl<P: Drop> Drop for Answer<P> {
    fn drop(self) {
        let Answer {
            turned: _,
            purse: _,
        } = self;
    }
}

impl<P> Model for Answer<P> {
    ghost use Rattle.tpcc_book.specs.AnswerView.{AnswerView};
    ghost use Rattle.tpcc_book.specs.Internal.AnswerView.{answer_of};

    ghost Value = { AnswerView P };

    ghost view = { λ a. answer_of a.turned a.purse };
}

impl<P> Answer<P> {
    pub(crate) fn new(turned: Turned, purse: P) -> Answer<P>
        ensures { result ≡ answer_of turned purse }
    {
        Answer { turned, purse }
    }

    /// The request that was served.
    pub fn request(&self) -> &Request
        ensures request { result.now ≡ self.now.request }
    {
        &self.turned.request
    }

    /// Its reply, or why it was refused.
    pub fn outcome(&self) -> &Result<Reply, Refusal>
        ensures outcome { result.now ≡ self.now.outcome }
    {
        &self.turned.outcome
    }

    /// The place of its entry in the journal, counted from 0; None after a refusal.
    pub fn place(&self) -> Option<u64>
        ensures place { result ≡ self.now.place }
    {
        self.turned.place
    }

    /// The purse that was handed in, as it is now.
    pub fn purse(&self) -> &P
        ensures purse { result.now ≡ self.now.purse }
    {
        &self.purse
    }

    /// The request, the outcome, the place and the purse.
    pub fn into_parts(self) -> (Request, Result<Reply, Refusal>, Option<u64>, P)
        ensures request { result.0 ≡ self.request }
        ensures outcome { result.1 ≡ self.outcome }
        ensures place { result.2 ≡ self.place }
        ensures purse { result.3 ≡ self.purse }
    {
        let Answer { turned, purse } = self;
        (turned.request, turned.outcome, turned.place, purse)
    }

    /// The same answer, whose purse is carried with a rest from now on. There is no other way to give an answer
    /// another type, and the purse that it has goes along.
    pub fn carried_with<C: CarriesPurse<Purse = P>>(self, rest: C::Rest) -> Answer<C>
        requires fits { C.fits self.purse rest }
        ensures carried { result ≡ answer_with self (C.carrying self.purse rest) }
        ensures purse { C.purse_in result.purse ≡ self.purse }
    {
        let Answer { turned, purse } = self;
        Answer {
            turned,
            purse: C::carry(purse, rest),
        }
    }
}
