//! A list of entries that only grows.
ghost use Rattle.std.specs.Prelude.{◌≡◌, ◌<◌, ◌==◌, ◌++◌, ◌∷◌, [], OnOk, length, slice_get, option_map};
ghost use Rattle.tpcc_rows.specs.Replay.{count_of};
ghost use Rattle.tpcc_journal.specs.EntryRefs.{entry_of};

use crate::stored::{Replies, StoredEntry, reserve_one};
use crate::tallies::{Tally, add_one, tally_of};
use std::alloc::Global;
use std::marker::Model;
use tpcc_rows::{NoMemory, Reply, Request};

/// For how many entries there is room once an eighth of them stand.
const MANY_ENTRIES: usize = 300_000;

/// An entry as it is lent: the request where it stands, and a copy of the reply.
#[derive(Drop)]
pub struct EntryRef<'a> {
    /// The terminal whose request it was.
    pub terminal: u32,
    /// How many entries of this terminal stand before this one: 0, 1, 2 and so on.
    pub number: u64,
    /// The request, as it was asked.
    pub request: &'a Request,
    /// What it was answered.
    pub reply: Reply,
}

/// The accepted requests with their replies, in the order in which they were served.
pub struct Journal {
    /// The oldest first.
    entries: Vec<StoredEntry>,
    /// The long ones of their replies.
    replies: Replies,
    /// One for each terminal that has entries, so that they need not be counted again.
    tallies: Vec<Tally>,
}

// By hand, so that who lets a journal go proves none of its parts anew.
impl Drop for Journal {
    fn drop(self) {
        let Journal {
            entries: _,
            replies: _,
            tallies: _,
        } = self;
    }
}

impl Model for Journal {
    ghost use Rattle.tpcc_journal.specs.Log.{Log};
    ghost use Rattle.tpcc_journal.specs.Internal.View.{log_of, IsLog};

    ghost Value = { Log };

    ghost view = { log_of };

    ghost invariant = { IsLog };
}

impl Journal {
    /// A journal with no entry.
    pub fn new(alloc: Global) -> Journal
        ensures empty { result.entries ≡ [] }
    {
        Journal {
            entries: Vec::new(alloc),
            replies: Replies::new(alloc),
            tallies: Vec::new(alloc),
        }
    }

    /// How many entries there are.
    pub fn len(&self) -> usize
        ensures length { result ≡ length self.now.entries }
    {
        self.entries.len()
    }

    /// Whether there is none.
    pub fn is_empty(&self) -> bool
        ensures empty { result ≡ (length self.now.entries == 0) }
    {
        self.entries.is_empty()
    }

    /// How many entries are of the terminal; the entries are not looked at.
    pub fn count_of(&self, terminal: u32) -> u64
        ensures count { result ≡ count_of terminal self.now.entries }
    {
        tally_of(self.tallies.as_slice(), terminal)
    }

    /// The entry at a place, counted from 0.
    pub fn entry(&self, place: usize) -> Option<EntryRef<'_>>
        ensures entry { option_map entry_of result ≡ slice_get self.now.entries place }
    {
        let kept = self.entries.get(place)?;
        Some(EntryRef {
            terminal: kept.terminal,
            number: kept.number,
            request: &kept.request,
            reply: self.replies.reply(kept.reply),
        })
    }

    /// Makes room for one more entry; refuses for want of memory alone, with the entries as they were.
    pub fn reserve_entry(&mut self) -> Result<(), NoMemory>
        ensures same { self.new.entries ≡ self.old.entries }
        ensures room { OnOk result (0 < self.new.room) }
    {
        self.tallies.reserve(1)?;
        reserve_one(&mut self.entries, MANY_ENTRIES)?;
        self.replies.reserve()?;
        Ok(())
    }

    /// Appends an entry, for which there is room; takes no memory. The reply is lent, so that only what is kept of it is copied.
    pub fn append(&mut self, terminal: u32, number: u64, request: Request, reply: &Reply)
        requires room { 0 < self.old.room }
        ensures appended { self.new.entries
            ≡ self.old.entries
            ++ record { terminal = terminal; number = number; request = request; reply = reply.now }
            ∷ [] }
    {
        add_one(&mut self.tallies, terminal);
        let reply = self.replies.keep(reply);
        self.entries.push_reserved(StoredEntry {
            terminal,
            number,
            request,
            reply,
        });
    }
}
