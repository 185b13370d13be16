//! The shares of purses, put together.
ghost use Rattle.std.specs.Prelude.{◌≡◌, ◌<◌, ◌≤◌, ◌*◌, ◌^◌, pos};
ghost use Rattle.tpcc_book.specs.Purses.{all_shares, pool_of, pool_with};

use crate::naming::{Entries, Naming, PaidCents};
use crate::purse::Purse;
use std::marker::Model;
use std::sync::ledger::{Book as LedgerBook, Share};
use tpcc_money::Cents;

/// What several purses of a book have together. That the sums are the book's totals is known only once the
/// book is at hand, so until then they are kept in 128 bits, which the sums of 10,001 purses always fit.
#[derive(Drop)]
pub struct Pool<N: Naming> {
    /// How many of the book's 10,001 parts are in it.
    parts: u32,
    /// The sum of the purses' entries.
    entries: u128,
    /// The sum of what they paid, in cents.
    cents: u128,
    /// Their shares of the ledger of entries, as one.
    entry_share: Share<Entries<N>>,
    /// Their shares of the ledger of cents, as one.
    cent_share: Share<PaidCents<N>>,
    /// Each share has the purses' parts.
    ghost entry_parts: { entry_share.parts ≡ parts },
    ghost cent_parts: { cent_share.parts ≡ parts },
    /// The shares' amounts are the purses'.
    ghost entry_amount: { entry_share.amount ≡ entries },
    ghost cent_amount: { cent_share.amount ≡ cents },
    /// No more parts than a book has, of which none has more than a purse can have.
    ghost few: { parts ≤ all_shares },
    ghost entries_small: { entries ≤ parts * 2 ^ 64 },
    ghost cents_small: { cents ≤ parts * 2 ^ 64 },
}

impl<N: Naming> Model for Pool<N> {
    ghost use Rattle.std.specs.Prelude.{pos};
    ghost use Rattle.tpcc_book.specs.Purses.{PoolView};

    ghost Value = { PoolView };

    ghost view = { λ p. record { parts = p.parts; entries = p.entries; paid = pos p.cents } };
}

impl<N: Naming> Pool<N> {
    /// One purse.
    pub fn of(purse: Purse<N>) -> Pool<N>
        ensures pool { result ≡ pool_of purse }
    {
        let Purse {
            terminal: _,
            entries,
            cents,
            room,
            entry_share,
            cent_share,
        } = purse;
        Pool {
            parts: room + 1,
            entries: u128::from(entries),
            cents: u128::from(cents),
            entry_share,
            cent_share,
        }
    }

    /// How many of the 10,001 parts that the purses of a book have are here.
    pub fn parts(&self) -> u32
        ensures parts { result ≡ self.now.parts }
    {
        self.parts
    }

    /// One more purse.
    pub fn take_in(&mut self, purse: Purse<N>)
        ensures pool { self.new ≡ pool_with self.old purse }
    {
        let Purse {
            terminal: _,
            entries,
            cents,
            room,
            entry_share,
            cent_share,
        } = purse;
        self.entry_share.merge(entry_share);
        self.cent_share.merge(cent_share);
        self.parts += room + 1;
        self.entries += u128::from(entries);
        self.cents += u128::from(cents);
    }

    // All purses have all entries and all cents.
    pub(crate) fn audit(
        self,
        entries: &mut LedgerBook<Entries<N>>,
        cents: &mut LedgerBook<PaidCents<N>>,
    ) -> (u64, Cents)
        requires all { self.parts ≡ all_shares }
        requires entries { entries.old.total < 2 ^ 63 }
        requires cents { cents.old.total < 2 ^ 63 }
        ensures entries { (entries.new.total ≡ entries.old.total) × (result.0 ≡ self.entries)
            × (result.0 ≡ entries.old.total) }
        ensures cents { (cents.new.total ≡ cents.old.total) × (result.1 ≡ self.paid)
            × (result.1 ≡ pos cents.old.total) }
    {
        let Pool {
            parts: _,
            entries: made,
            cents: paid,
            mut entry_share,
            mut cent_share,
        } = self;
        entries.audit(&mut entry_share);
        cents.audit(&mut cent_share);
        (made as u64, Cents::new(paid as i64))
    }
}
