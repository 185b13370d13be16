//! Mailboxes that are taken apart.
ghost use Rattle.std.specs.Prelude.{◌≡◌, ℕ, ◌+◌, ◌<◌, ◌≤◌, [], All, IfOk, IfErr, length, slice_index, vec_len, vec_capacity};
ghost use mathlib.Core.Option.{some};
ghost use lib.ListN.{get_elem?};
ghost use Rattle.std.specs.Slots.{slots_items, slots_len, IsFull};
ghost use Rattle.tpcc_mailbox.specs.Lefts.{AreLeftOf, InHandAreHeld, AreAllServings, HeldAreInHand};
ghost use Rattle.tpcc_mailbox.specs.Internal.Lefts.{mailbox_left};
ghost use Rattle.tpcc_mailbox.specs.Rule.{words_of};
ghost use Rattle.tpcc_mailbox.specs.Internal.Rule.{word_of};
ghost use Rattle.tpcc_mailbox.specs.declared.table.TheConstants.{MOST_MAILBOXES};
ghost use Rattle.tpcc_mailbox.specs.Tokens.{identity, client_origin, serving_origin};

use crate::ending::gather::{gather_clients, gather_servings};
use crate::letters::answers::Answers;
use crate::table::{Mailboxes, word_index};
use crate::tokens::{Client, Serving};
use crate::words::plays::Entering;
use crate::words::rule::{FREE, Mail, TAKEN};
use atomic_table::Closed;
use std::alloc::{AllocError, Global};
use std::mem;

/// What is left for a client once the mailboxes are taken apart.
#[derive(Drop)]
pub enum Left<J, A> {
    /// The client had posted nothing.
    Nothing,
    /// Its letter, which no server took.
    Letter(J),
    /// The answer of its letter.
    Reply(A),
    /// A server took its letter and didn't answer it.
    Held,
}

/// Memory was refused to `Mailboxes::reclaim`. All three come back as they were, for the call to be made
/// again.
#[derive(Drop)]
pub struct Kept<J, A: Answers<J>> {
    /// The mailboxes that were handed in.
    pub mailboxes: Mailboxes<J, A>,
    /// The clients' tokens that were handed in.
    pub clients: Vec<Client<J, A>>,
    /// The servers' tokens that were handed in.
    pub servings: Vec<Serving<J, A>>,
}

// What a mailbox held, by its word and its slot.
fn found_in<J: Drop, A: Drop>(word: u64, slot: Option<Mail<J, A>>) -> Left<J, A>
    ensures left { result ≡ mailbox_left word slot }
{
    if word == FREE {
        return Left::Nothing;
    }
    if word == TAKEN {
        return Left::Held;
    }
    match slot {
        None => Left::Nothing,
        Some(Mail::Letter(posted)) => Left::Letter(posted.open().0),
        Some(Mail::Reply(answered)) => Left::Reply(answered.take_out().0),
    }
}

// Puts what each mailbox held into `lefts`, in the order of the mailboxes.
fn unload<J: Drop, A: Drop>(
    mut closed: Closed<Option<Mail<J, A>>, Global>,
    lefts: &mut Vec<Left<J, A>>,
)
    requires full { IsFull closed.words
        × IsFull closed.slots
        × (slots_len closed.words ≡ words_of (slots_len closed.slots))
        × (slots_len closed.slots ≤ MOST_MAILBOXES) }
    requires room { (vec_len lefts.old ≡ 0) × (slots_len closed.slots ≤ vec_capacity lefts.old) }
    ensures len { vec_len lefts.new ≡ slots_len closed.slots }
    ensures each { (k : ℕ) (x : _)
        → get_elem? (slots_items closed.slots) k ≡ some x
        → get_elem? lefts.new.items k
        ≡ some (mailbox_left (slice_index (slots_items closed.words) (word_of k)) x) }
{
    for k in 0..closed.slot_count() {
        let word = closed.word(word_index(k));
        let slot = closed.take(k);
        lefts.push_reserved(found_in(word, slot));
    }
    closed.free();
}

// Brings what the mailboxes held into the order of the clients.
fn pick_out<J: Drop, A: Drop>(
    held: &mut Vec<Left<J, A>>,
    places: &Vec<usize>,
    lefts: &mut Vec<Left<J, A>>,
)
    requires within { (i : ℕ) (k : ℕ)
        → get_elem? places.now.items i ≡ some k
        → k < vec_len held.old }
    requires apart { (i : ℕ) (j : ℕ) (k : ℕ)
        → get_elem? places.now.items i ≡ some k
        → get_elem? places.now.items j ≡ some k
        → i ≡ j }
    requires room { (vec_len lefts.old ≡ 0) × (vec_len places.now ≤ vec_capacity lefts.old) }
    ensures len { vec_len lefts.new ≡ vec_len places.now }
    ensures each { (i : ℕ) (k : ℕ) (x : _)
        → get_elem? places.now.items i ≡ some k
        → get_elem? held.old.items k ≡ some x
        → get_elem? lefts.new.items i ≡ some x }
{
    for i in 0..places.len() {
        let found = mem::replace(&mut held[places[i]], Left::Nothing);
        lefts.push_reserved(found);
    }
}

// The memory that `reclaim` needs, taken before anything is taken apart.
#[derive(Drop)]
struct Rooms<J, A> {
    /// One place for each client: what is given back.
    lefts: Vec<Left<J, A>>,
    /// One place for each mailbox: what it held.
    held: Vec<Left<J, A>>,
    /// One place for each client: the number of its mailbox.
    places: Vec<usize>,
}

fn reserve<J: Drop, A: Drop>(
    alloc: Global,
    clients: usize,
    mailboxes: usize,
) -> Result<Rooms<J, A>, AllocError>
    ensures empty { IfOk result (λ r.
        (vec_len r.lefts ≡ 0) × (vec_len r.held ≡ 0) × (vec_len r.places ≡ 0)) }
    ensures room { IfOk result (λ r.
        (clients ≤ vec_capacity r.lefts)
        × (mailboxes ≤ vec_capacity r.held)
        × (clients ≤ vec_capacity r.places)) }
{
    let lefts = Vec::with_capacity(alloc, clients)?;
    let held = Vec::with_capacity(alloc, mailboxes)?;
    let places = Vec::with_capacity(alloc, clients)?;
    Ok(Rooms {
        lefts,
        held,
        places,
    })
}

impl<J: Drop, A: Answers<J> + Drop> Mailboxes<J, A> {
    /// Takes the mailboxes apart, and gives each client what is its own, in the order of `clients`:
    /// `Nothing` for an `Idle`; for a `Waiting` its letter, an answer that fits it, or `Held`.
    ///
    /// `Held` comes wherever one of `servings` has the letter in its hand. Where `servings` are all servers
    /// there are, it comes nowhere else. A server that was withheld may hold one letter too; which one, if
    /// any, no clause says, since nothing is known of a token that isn't handed in.
    ///
    /// Where memory is refused, which is the only error, all three come back untouched.
    pub fn reclaim(
        self,
        clients: Vec<Client<J, A>>,
        servings: Vec<Serving<J, A>>,
    ) -> Result<Vec<Left<J, A>>, Kept<J, A>>
        requires clients { All (λ x. client_origin x ≡ identity self) clients.items }
        requires servings { All (λ x. serving_origin x ≡ identity self) servings.items }
        ensures left { IfOk result
            (λ v. AreLeftOf (λ j a. A.fits (A.label j) a) clients.items v.items) }
        ensures in_hand { IfOk result (λ v. InHandAreHeld clients.items servings.items v.items) }
        ensures held { IfOk result (λ v.
            AreAllServings servings.items → HeldAreInHand clients.items servings.items v.items) }
        ensures kept { IfErr result (λ k.
            (k.mailboxes ≡ self) × (k.clients ≡ clients) × (k.servings ≡ servings)) }
    {
        let Ok(rooms) = reserve(self.alloc, clients.len(), self.count) else {
            return Err(Kept {
                mailboxes: self,
                clients,
                servings,
            });
        };
        let Rooms {
            mut lefts,
            mut held,
            mut places,
        } = rooms;
        let Self {
            table,
            count,
            alloc: _,
            sleepers: _,
        } = self;
        let (_, mut all) = table.shared.load_new_seat::<Entering>(0);
        gather_clients(&table.shared, count, &mut all, clients, &mut places);
        gather_servings(&table.shared, &mut all, servings);
        unload(table.close_with(all), &mut held);
        pick_out(&mut held, &places, &mut lefts);
        Ok(lefts)
    }
}
