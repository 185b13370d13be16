//! Which book it is: the names of its two ledgers.
ghost use Rattle.std.specs.Prelude.{◌≡◌, ℕ};
ghost use Rattle.tpcc_book.specs.Purses.{all_shares};

use crate::purse::ALL_SHARES;
use std::marker::{Brand, PhantomData};
use std::sync::ledger::{Blank, Ledger};

/// A type that stands for one book. Whoever starts a book picks it, so a purse of another book has another type.
pub trait Naming {
    /// The name of the ledger of journaled entries.
    ghost entries: { ℕ };

    /// The name of the ledger of paid cents.
    ghost cents: { ℕ };
}

impl Naming for Brand {
    ghost entries = { 0 };

    ghost cents = { 0 };
}

/// The ledger of journaled entries, in 10,001 parts.
pub struct Entries<N: Naming> {
    of: PhantomData<N>,
}

impl<N: Naming> Ledger for Entries<N> {
    ghost name = { N.entries };

    ghost parts = { all_shares };
}

/// The ledger of paid cents, in 10,001 parts.
pub struct PaidCents<N: Naming> {
    of: PhantomData<N>,
}

impl<N: Naming> Ledger for PaidCents<N> {
    ghost name = { N.cents };

    ghost parts = { all_shares };
}

/// The two ledgers of a book that has not been started.
#[derive(Drop)]
pub struct Blanks {
    /// For the entries that are journaled.
    pub entries: Blank,
    /// For the cents that are paid.
    pub cents: Blank,
    /// It has 10,001 parts.
    ghost all_entries: { entries.parts ≡ all_shares },
    /// It has 10,001 parts.
    ghost all_cents: { cents.parts ≡ all_shares },
}

impl Blanks {
    /// Two fresh ledgers.
    pub fn new() -> Blanks {
        Blanks {
            entries: Blank::new(u64::from(ALL_SHARES)),
            cents: Blank::new(u64::from(ALL_SHARES)),
        }
    }
}
