//! Mailboxes that are made.
ghost use Rattle.std.specs.Prelude.{◌≡◌, ◌+◌, ◌<◌, ◌≤◌, false, [], replicate, set, vec_len, vec_capacity, All, IfOk, None};
ghost use Rattle.tpcc_mailbox.specs.Rule.{IsSized, view_with, words_of};
ghost use Rattle.tpcc_mailbox.specs.Internal.Rule.{opener, word_of};
ghost use Rattle.tpcc_mailbox.specs.Views.{Opening};
ghost use Rattle.tpcc_mailbox.specs.declared.table.TheConstants.{MOST_MAILBOXES};
ghost use Rattle.tpcc_mailbox.specs.Tokens.{identity, mailbox_count, AreNewIdles, idle_mailbox, idle_origin, idle_saw_closed, serving_origin, serving_hand, serving_splits, serving_answered, serving_saw_closed};

use crate::letters::answers::Answers;
use crate::letters::room::Room;
use crate::table::{
    MailboxSeat, MailboxTable, Mailboxes, split_seat, step_word, word_count, word_index,
};
use crate::tokens::{Idle, Serving};
use crate::words::plays::{FirstCollecting, MakingClient, MakingServer};
use crate::words::rule::{ANSWERED, FREE, OPEN};
use crate::words::sleeping::Sleepers;
use atomic_table::Table;
use std::alloc::{AllocError, Global};
use tpcc_rows::NoMemory;

// Room for the answers of so many mailboxes.
fn make_rooms<A: Drop>(alloc: Global, count: usize) -> Result<Vec<Room<A>>, AllocError>
    ensures { IfOk result (λ v. vec_len v ≡ count) }
{
    let mut rooms = Vec::with_capacity(alloc, count)?;
    for _ in 0..count {
        rooms.push_reserved(Room::new(alloc)?);
    }
    Ok(rooms)
}

// The words of so many mailboxes: each starts as answered with an empty slot, which its client then collects.
fn first_words(alloc: Global, count: usize) -> Result<Vec<u64>, AllocError>
    requires { count ≤ MOST_MAILBOXES }
    ensures { IfOk result (λ words. words.items
        ≡ set (replicate (words_of count) 3) (word_of count) 0) }
{
    let mut words = Vec::from_elem(alloc, ANSWERED, word_count(count))?;
    words[word_index(count)] = OPEN;
    Ok(words)
}

// A table of so many mailboxes, and the seat that opens them all.
fn open_table<J, A: Answers<J> + Drop>(
    alloc: Global,
    count: usize,
) -> Result<(MailboxTable<J, A>, MailboxSeat<J, A>), AllocError>
    requires { count ≤ MOST_MAILBOXES }
    ensures opens { IfOk result (λ r. IsSized r.0.shared.table_id
        × (r.0.shared.table_id.slots ≡ count)
        × (r.1.table_id ≡ r.0.shared.table_id)
        × (r.1.me.0 ≡ opener)) }
{
    let words = first_words(alloc, count)?;
    Table::vacant(alloc, words.as_slice(), count, &())
}

// The token of the next mailbox, from the seat that opens them all.
fn first_idle<J, A: Answers<J>>(
    table: &MailboxTable<J, A>,
    first: &mut MailboxSeat<J, A>,
    mailbox: usize,
    room: Room<A>,
) -> Idle<J, A>
    requires fits { first.old.table_id ≡ table.now.shared.table_id }
    requires sized { IsSized table.now.shared.table_id }
    requires within { mailbox < table.now.shared.table_id.slots }
    requires opens { first.old.me.0 ≡ view_with (Opening mailbox) false [] }
    ensures fits { first.new.table_id ≡ table.now.shared.table_id }
    ensures opens { first.new.me.0 ≡ view_with (Opening (mailbox + 1)) false [] }
    ensures origin { idle_origin result ≡ table.now.shared.table_id }
    ensures number { idle_mailbox result ≡ mailbox }
    ensures open { idle_saw_closed result ≡ false }
{
    let mut seat = split_seat::<J, A, MakingClient>(&table.shared, first);
    step_word::<J, A, FirstCollecting>(&table.shared, &mut seat, mailbox, ANSWERED, FREE);
    Idle {
        seat,
        mailbox,
        room,
    }
}

// The memory of so many mailboxes: a table and the seat that opens them all, room for the answers, and for the tokens.
fn reserve_new<J, A: Answers<J> + Drop>(
    alloc: Global,
    count: usize,
) -> Result<
    (
        MailboxTable<J, A>,
        MailboxSeat<J, A>,
        Vec<Room<A>>,
        Vec<Idle<J, A>>,
    ),
    AllocError,
>
    requires { count ≤ MOST_MAILBOXES }
    ensures opens { IfOk result (λ r. IsSized r.0.shared.table_id
        × (r.0.shared.table_id.slots ≡ count)
        × (r.1.table_id ≡ r.0.shared.table_id)
        × (r.1.me.0 ≡ opener)) }
    ensures room { IfOk result (λ r. (vec_len r.2 ≡ count)
        × (r.3.items ≡ [])
        × (count ≤ vec_capacity r.3)) }
{
    let idles = Vec::with_capacity(alloc, count)?;
    let rooms = make_rooms(alloc, count)?;
    let (table, first) = open_table(alloc, count)?;
    Ok((table, first, rooms, idles))
}

// The tokens of all mailboxes, in order.
fn first_idles<J, A: Answers<J> + Drop>(
    table: &MailboxTable<J, A>,
    first: &mut MailboxSeat<J, A>,
    mut rooms: Vec<Room<A>>,
    idles: &mut Vec<Idle<J, A>>,
)
    requires fits { first.old.table_id ≡ table.now.shared.table_id }
    requires sized { IsSized table.now.shared.table_id }
    requires opens { first.old.me.0 ≡ opener }
    requires room { (vec_len rooms ≡ table.now.shared.table_id.slots)
        × (idles.old.items ≡ [])
        × (table.now.shared.table_id.slots ≤ vec_capacity idles.old) }
    ensures fits { first.new.table_id ≡ table.now.shared.table_id }
    ensures opens { first.new.me.0 ≡ view_with (Opening table.now.shared.table_id.slots) false [] }
    ensures len { vec_len idles.new ≡ table.now.shared.table_id.slots }
    ensures numbers { AreNewIdles table.now.shared.table_id idles.new.items }
{
    for k in 0..rooms.len() {
        let Some(room) = rooms.pop() else {
            unreachable!()
        };
        idles.push_reserved(first_idle(table, first, k, room));
    }
}

impl<J, A: Answers<J> + Drop> Mailboxes<J, A> {
    /// Makes `n` free mailboxes, 1 to [`MOST_MAILBOXES`](crate::MOST_MAILBOXES), with the token of each in order and the first server.
    /// Nothing of it is left where memory is refused, which is the only error.
    pub fn new(
        alloc: Global,
        n: usize,
    ) -> Result<(Mailboxes<J, A>, Vec<Idle<J, A>>, Serving<J, A>), NoMemory>
        requires count { (1 ≤ n) × (n ≤ MOST_MAILBOXES) }
        ensures count { IfOk result (λ r. mailbox_count r.0 ≡ n) }
        ensures one_each { IfOk result (λ r. vec_len r.1 ≡ n) }
        ensures idles { IfOk result (λ r. All (λ x. idle_origin x ≡ identity r.0) r.1.items) }
        // The k-th has the mailbox k, and none has seen the mailboxes closed.
        ensures numbers { IfOk result (λ r. AreNewIdles (identity r.0) r.1.items) }
        ensures origin { IfOk result (λ r. serving_origin r.2 ≡ identity r.0) }
        // The first server has the whole right to serve.
        ensures serving { IfOk result (λ r. (serving_hand r.2 ≡ None) × (serving_splits r.2 ≡ 0)) }
        ensures answered { IfOk result (λ r. serving_answered r.2 ≡ []) }
        ensures open { IfOk result (λ r. serving_saw_closed r.2 ≡ false) }
    {
        let (table, mut first, rooms, mut idles) = reserve_new(alloc, n)?;
        first_idles(&table, &mut first, rooms, &mut idles);
        let seat = split_seat::<J, A, MakingServer>(&table.shared, &mut first);
        let mailboxes = Mailboxes {
            table,
            count: n,
            alloc,
            sleepers: Sleepers::new(),
        };
        Ok((mailboxes, idles, Serving { seat }))
    }
}

impl<J, A: Answers<J>> Mailboxes<J, A> {
    /// How many mailboxes there are.
    pub fn len(&self) -> usize
        ensures count { result ≡ mailbox_count self.now }
    {
        let Mailboxes { count, .. } = self;
        *count
    }
}
