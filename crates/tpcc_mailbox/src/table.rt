//! The mailboxes as threads share them.
ghost use Rattle.std.specs.Prelude.{◌≡◌, ◌<◌, ◌≤◌, [], ◌∷◌};
ghost use mathlib.Core.Option.{none};
ghost use Rattle.atomic_table.specs.Table.{rest, step, Allows, Splits};
ghost use Rattle.tpcc_mailbox.specs.Internal.Steps.{MayStep};
ghost use Rattle.tpcc_mailbox.specs.declared.table.TheConstants.{MOST_MAILBOXES};
ghost use Rattle.tpcc_mailbox.specs.Rule.{IsSized, words_of};
ghost use Rattle.tpcc_mailbox.specs.Internal.Rule.{FollowsRule, word_of};

use crate::letters::answers::Answers;
use crate::words::rule::{Mail, MailboxRule, View};
use crate::words::sleeping::Sleepers;
use atomic_table::{Play, Seat, Shared, Split, Table};
use std::alloc::Global;

pub(crate) type MailboxTable<J, A> = Table<Option<Mail<J, A>>, View<J>, (), MailboxRule<A>, Global>;

pub(crate) type SharedTable<J, A> = Shared<Option<Mail<J, A>>, View<J>, (), MailboxRule<A>>;

/// A seat at the table, inside each token.
pub type MailboxSeat<J, A> = Seat<Option<Mail<J, A>>, View<J>>;

/// How many mailboxes there are at most.
pub const MOST_MAILBOXES: usize = 1_000;

/// Mailboxes for letters `J` and answers `A`, numbered from 0. Threads share them by reference.
#[derive(Drop)]
pub struct Mailboxes<J, A: Answers<J>> {
    /// Words, slots and the rule of both.
    pub(crate) table: MailboxTable<J, A>,
    /// How many mailboxes there are.
    pub(crate) count: usize,
    /// Where `reclaim` takes memory.
    pub(crate) alloc: Global,
    /// Who is to be woken.
    pub(crate) sleepers: Sleepers,
    /// A slot for each, and as many words as they take.
    ghost counted: { table.shared.table_id.slots ≡ count },
    ghost sized: { IsSized table.shared.table_id },
}

// One word in so many is used, so that threads at different mailboxes share no cache line.
const APART: usize = 16;

// Where the word of a mailbox stands, and behind the last mailbox the closed flag.
pub(crate) fn word_index(mailbox: usize) -> usize
    requires { mailbox ≤ MOST_MAILBOXES }
    ensures { result ≡ word_of mailbox }
{
    APART * mailbox + APART / 2
}

// How many words so many mailboxes take.
pub(crate) fn word_count(mailboxes: usize) -> usize
    requires { mailboxes ≤ MOST_MAILBOXES }
    ensures { result ≡ words_of mailboxes }
{
    APART * (mailboxes + 1)
}

// A step on the word of a mailbox, and what the word was before.
pub(crate) fn step_word<J, A: Answers<J>, P: Play<Option<Mail<J, A>>, View<J>>>(
    shared: &SharedTable<J, A>,
    seat: &mut MailboxSeat<J, A>,
    mailbox: usize,
    old: u64,
    new: u64,
) -> u64
    requires own { seat.old.table_id ≡ shared.now.table_id }
    requires sized { IsSized shared.now.table_id }
    requires within { mailbox < shared.now.table_id.slots }
    requires allowed { MayStep (λ j a. A.fits (A.label j) a) P.then
        shared.now.table_id.slots seat.old mailbox old new }
    ensures seat { (seat.new.table_id ≡ seat.old.table_id) × (seat.new.id ≡ seat.old.id) }
    ensures told { P.then
        (step shared.now.table_id.slots (word_of mailbox) old new none)
        seat.old.me
        result
        seat.new.me }
{
    shared.compare_exchange::<P>(seat, word_index(mailbox), old, new)
}

// A look at a word, and what it was.
pub(crate) fn load_word<J, A: Answers<J>, P: Play<Option<Mail<J, A>>, View<J>>>(
    shared: &SharedTable<J, A>,
    seat: &mut MailboxSeat<J, A>,
    word: usize,
) -> u64
    requires own { seat.old.table_id ≡ shared.now.table_id }
    requires within { word < shared.now.table_id.words }
    requires allowed { Allows
        (FollowsRule (λ j a. A.fits (A.label j) a))
        shared.now.table_id.slots
        seat.old.id
        seat.old.me
        word
        (λ n. n)
        (P.then (step shared.now.table_id.slots word 0 0 none) seat.old.me) }
    ensures seat { (seat.new.table_id ≡ seat.old.table_id) × (seat.new.id ≡ seat.old.id) }
    ensures told { P.then
        (step shared.now.table_id.slots word 0 0 none)
        seat.old.me
        result
        seat.new.me }
{
    shared.load::<P>(seat, word)
}

// Changes what lies in the slot that a seat has in hand.
pub(crate) fn exchange_slot<J, A: Answers<J>>(
    shared: &SharedTable<J, A>,
    seat: &mut MailboxSeat<J, A>,
    mailbox: usize,
    new: Option<Mail<J, A>>,
) -> Option<Mail<J, A>>
    requires own { seat.old.table_id ≡ shared.now.table_id }
    requires has { (was : _) × (seat.old.me.1 ≡ (mailbox, was) ∷ rest seat.old.me.1) }
    ensures seat { (seat.new.table_id ≡ seat.old.table_id) × (seat.new.id ≡ seat.old.id) }
    ensures was { seat.old.me.1 ≡ (mailbox, result) ∷ rest seat.old.me.1 }
    ensures now { seat.new.me ≡ (seat.old.me.0, (mailbox, new) ∷ rest seat.old.me.1) }
{
    shared.exchange(seat, mailbox, new)
}

// Cuts a seat in two: this one, and one with nothing in hand.
pub(crate) fn split_seat<J, A: Answers<J>, P: Split<View<J>>>(
    shared: &SharedTable<J, A>,
    seat: &mut MailboxSeat<J, A>,
) -> MailboxSeat<J, A>
    requires own { seat.old.table_id ≡ shared.now.table_id }
    requires words { 0 < shared.now.table_id.words }
    requires splits { Splits
        (FollowsRule (λ j a. A.fits (A.label j) a))
        seat.old.id
        seat.old.me.0
        (P.left seat.old.me.0)
        (P.right seat.old.me.0) }
    ensures left { (seat.new.table_id ≡ seat.old.table_id)
        × (seat.new.me ≡ (P.left seat.old.me.0, seat.old.me.1)) }
    ensures right { (result.table_id ≡ seat.old.table_id)
        × (result.me ≡ (P.right seat.old.me.0, [])) }
{
    shared.split_seat::<P>(seat)
}
