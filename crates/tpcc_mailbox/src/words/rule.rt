//! The rule of the table that clients and servers share.
//!
//! Each mailbox has a word, its state, and one more word tells whether the mailboxes are closed. Where they stand `word_of` of `specs/Rule.antt` says; the words
//! between them are used by nobody. Slot k holds what lies in mailbox k. The slot of a free mailbox is
//! with the seat of its client, that of a taken one with the seat of the server that took the letter.

use crate::letters::answers::Answers;
use crate::letters::room::{AnswerInRoom, PostedLetter};
use atomic_table::TableRule;
use std::marker::{Model, PhantomData};

/// The word of a mailbox that is free.
pub(crate) const FREE: u64 = 0;

/// That of one in which a letter was posted.
pub(crate) const POSTED: u64 = 1;

/// That of one whose letter a server took.
pub(crate) const TAKEN: u64 = 2;

/// That of one whose letter was answered.
pub(crate) const ANSWERED: u64 = 3;

/// The closed flag before the first `close`.
pub(crate) const OPEN: u64 = 0;

/// The closed flag from the first `close` on.
pub(crate) const CLOSED: u64 = 1;

/// What lies in the slot of a mailbox.
#[derive(Drop)]
pub enum Mail<J, A> {
    /// What the client posted.
    Letter(PostedLetter<J, A>),
    /// What a server answered.
    Reply(AnswerInRoom<A>),
}

/// What a seat knows, as clauses see it: its roles, behind one another where other seats were joined into it, whether it
/// has closed the mailboxes or seen them closed, and the mailboxes whose letters it answered. No value of it is made, so
/// it has no fields that would have to be let go.
pub struct View<J> {
    letters: PhantomData<J>,
}

impl<J> Model for View<J> {
    ghost use Rattle.tpcc_mailbox.specs.Views.{View};

    ghost Value = { View J };

    ghost use Rattle.tpcc_mailbox.specs.Internal.Rule.{opener};

    ghost view = { λ _. opener };
}

/// The rule by which words, slots and views stand to one another.
pub struct MailboxRule<A> {
    /// The type of the answers, for its own type alone.
    answers: PhantomData<A>,
}

impl<J, A: Answers<J>> TableRule<Option<Mail<J, A>>, View<J>, ()> for MailboxRule<A> {
    ghost use Rattle.tpcc_mailbox.specs.Internal.Rule.{FollowsRule, opener};

    ghost holds = { λ _. FollowsRule (λ j a. A.fits (A.label j) a) };

    ghost first = { λ _. opener };
}
