//! A letter with room for its answer, and the answer in that room.
//!
//! The room is made with the mailbox and goes with each letter. So an answer moves once, out of the server's hands
//! into the room; what lies in a slot is small, however large answers are.
ghost use Rattle.std.specs.Prelude.{◌≡◌, ◌≤◌, [], length, vec_capacity};

use std::alloc::{AllocError, Global};
use std::marker::Model;

/// Room for one answer.
#[derive(Drop)]
pub struct Room<A> {
    /// Holds nothing.
    place: Vec<A>,
    ghost empty: { place.items ≡ [] },
    ghost room: { 1 ≤ vec_capacity place },
}

/// A letter that was posted, with room for its answer.
#[derive(Drop)]
pub struct PostedLetter<J, A> {
    /// What clauses see of it.
    letter: J,
    /// The mailbox's own room.
    room: Room<A>,
}

/// An answer, in the room that its letter came with.
#[derive(Drop)]
pub struct AnswerInRoom<A> {
    /// Holds the answer alone.
    place: Vec<A>,
    ghost one: { length place.items ≡ 1 },
    ghost room: { 1 ≤ vec_capacity place },
}

impl<J, A> Model for PostedLetter<J, A> {
    ghost Value = { J };

    ghost view = { λ p. p.letter };
}

impl<A> Model for AnswerInRoom<A> {
    ghost use Rattle.tpcc_mailbox.specs.Internal.Only.{only};

    ghost Value = { A };

    ghost view = { λ a. only a.place.items a.one };
}

impl<A> Room<A> {
    /// Refused only for want of memory.
    pub(crate) fn new(alloc: Global) -> Result<Room<A>, AllocError> {
        let place = Vec::with_capacity(alloc, 1)?;
        Ok(Room { place })
    }

    /// The answer in this room. It takes no memory.
    pub(crate) fn fill(self, answer: A) -> AnswerInRoom<A>
        ensures answer { result ≡ answer }
    {
        let Room { mut place } = self;
        place.push_reserved(answer);
        AnswerInRoom { place }
    }
}

impl<J, A> PostedLetter<J, A> {
    /// The letter with this room.
    pub(crate) fn new(letter: J, room: Room<A>) -> PostedLetter<J, A>
        ensures letter { result ≡ letter }
    {
        PostedLetter { letter, room }
    }

    /// The letter, and the room for its answer.
    pub(crate) fn open(self) -> (J, Room<A>)
        ensures letter { result.0 ≡ self }
    {
        let PostedLetter { letter, room } = self;
        (letter, room)
    }
}

impl<A> AnswerInRoom<A> {
    /// The answer out of its room.
    pub(crate) fn take_out(self) -> (A, Room<A>)
        ensures answer { result.0 ≡ self }
    {
        let AnswerInRoom { mut place } = self;
        let Some(answer) = place.pop() else {
            unreachable!()
        };
        (answer, Room { place })
    }
}
