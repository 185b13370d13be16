//! Purses: shares of a book's two totals.
ghost use Rattle.std.specs.Prelude.{◌≡◌, ◌+◌, ◌-◌, ◌<◌, ◌≤◌, ◌^◌, ◌≤ℤ◌, ◌+ℤ◌, pos};
ghost use Rattle.tpcc_book.specs.Purses.{all_shares, first_purse, most_purses};
ghost use Rattle.tpcc_book.specs.Serve.{purse_after};

mod pool;

use crate::naming::{Entries, Naming, PaidCents};
pub use pool::Pool;
use std::marker::Model;
use std::sync::ledger::{Book as LedgerBook, Share};
use tpcc_money::Cents;

/// How many purses can be split off a book's first one.
pub const MOST_PURSES: u32 = 10_000;

/// The parts of a book: one is its first purse, and one each purse that can be split off.
pub const ALL_SHARES: u32 = MOST_PURSES + 1;

/// A terminal's token for the entries that it made and the payments among them. A request is served
/// only with a purse, and the purse's entries and cents are shares of the book's two totals: all
/// purses of a book together have the journal's length and the rise of the warehouses.
#[derive(Drop)]
pub struct Purse<N: Naming> {
    /// The number of its terminal; 0 of the book's first purse.
    terminal: u32,
    /// How many entries were made by it.
    entries: u64,
    /// What the payments among them paid, in cents.
    cents: u64,
    /// How many purses can still be split off.
    room: u32,
    /// Its share of the ledger of entries: as many as it made.
    entry_share: Share<Entries<N>>,
    /// Its share of the ledger of cents: as many as it paid.
    cent_share: Share<PaidCents<N>>,
    /// Each share has a part for this purse and one for each that can be split off it.
    ghost entry_parts: { entry_share.parts ≡ room + 1 },
    ghost cent_parts: { cent_share.parts ≡ room + 1 },
    /// The shares' amounts are the purse's.
    ghost entry_amount: { entry_share.amount ≡ entries },
    ghost cent_amount: { cent_share.amount ≡ cents },
    /// Neither is past what a book's first purse and its ledgers can have.
    ghost few: { room ≤ most_purses },
    ghost small: { cents < 2 ^ 63 },
}

impl<N: Naming> Model for Purse<N> {
    ghost use Rattle.std.specs.Prelude.{pos};
    ghost use Rattle.tpcc_book.specs.Purses.{PurseView};

    ghost Value = { PurseView };

    ghost view = { λ p.
        record { terminal = p.terminal; entries = p.entries; paid = pos p.cents; room = p.room } };
}

impl<N: Naming> Purse<N> {
    /// The terminal whose purse it is.
    pub fn terminal(&self) -> u32
        ensures terminal { result ≡ self.now.terminal }
    {
        self.terminal
    }

    /// How many entries of the journal were made by this purse.
    pub fn entries(&self) -> u64
        ensures entries { result ≡ self.now.entries }
    {
        self.entries
    }

    /// The sum of the payments that were made by this purse, in cents.
    pub fn paid(&self) -> Cents
        ensures paid { result ≡ self.now.paid }
    {
        Cents::new(self.cents as i64)
    }

    /// How many purses can still be split off: of a book's first purse 10,000 less those that were split off, of any
    /// other 0.
    pub fn room(&self) -> u32
        ensures room { result ≡ self.now.room }
    {
        self.room
    }

    /// An empty purse of a terminal, which takes one of the rooms.
    pub fn split(&mut self, terminal: u32) -> Purse<N>
        requires room { 0 < self.old.room }
        ensures new { result ≡ record { terminal = terminal; entries = 0; paid = pos 0; room = 0 } }
        ensures rest { self.old ≡ record self.new { room = self.new.room + 1 } }
    {
        self.room -= 1;
        Purse {
            terminal,
            entries: 0,
            cents: 0,
            room: 0,
            entry_share: self.entry_share.split_off(1, 0),
            cent_share: self.cent_share.split_off(1, 0),
        }
    }

    pub(crate) fn first(entry_share: Share<Entries<N>>, cent_share: Share<PaidCents<N>>) -> Purse<N>
        requires parts { (entry_share.parts ≡ all_shares) × (cent_share.parts ≡ all_shares) }
        requires amounts { (entry_share.amount ≡ 0) × (cent_share.amount ≡ 0) }
        ensures { result ≡ first_purse }
    {
        Purse {
            terminal: 0,
            entries: 0,
            cents: 0,
            room: MOST_PURSES,
            entry_share,
            cent_share,
        }
    }

    // One more entry, and an amount that was paid.
    pub(crate) fn credit(
        &mut self,
        entries: &mut LedgerBook<Entries<N>>,
        cents: &mut LedgerBook<PaidCents<N>>,
        amount: Cents,
    )
        requires entries { entries.old.total < 2 ^ 63 }
        requires least { pos 0 ≤ℤ amount }
        requires cents { (pos cents.old.total +ℤ amount) ≤ℤ pos (2 ^ 63 - 1) }
        ensures purse { self.new ≡ purse_after self.old amount }
        ensures entries { entries.new.total ≡ entries.old.total + 1 }
        ensures cents { pos cents.new.total ≡ pos cents.old.total +ℤ amount }
    {
        let paid = amount.value().unsigned_abs();
        entries.add(&mut self.entry_share, 1);
        entries.audit(&mut self.entry_share);
        cents.add(&mut self.cent_share, paid);
        cents.audit(&mut self.cent_share);
        self.entries += 1;
        self.cents += paid;
    }
}
