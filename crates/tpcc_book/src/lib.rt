//! The book: a register of tables, queue and journal, and the purses that share its totals.
//!
//! # A book and its purses
//!
//! A `Book` holds the rows, the queue of deliveries, and the journal of its requests with their replies. It is
//! seen as its past, an opening and a journal, from which its rows follow. `Book::start` makes it from an
//! opening, with no entry and its first purse.
//!
//! A `Purse` is the right to ask. `serve` takes one with a request, and `Answer::into_parts` gives it back. It
//! counts what its own requests did: their entries in the journal, and the cents that their payments paid.
//! `Purse::split` makes up to 10,000 more of the first one. `gather` takes them all, and tells what their sum is
//! then: the journal's length, and the rise of the sum of W_YTD.
//!
//! # The register
//!
//! A `Register` is the book without its purses. `turn` serves a request in two halves:
//!
//! ```text
//! what may fail: the first refusal, every growth, the copy of the request -> what can't: the rows or the queue, the entry
//! ```
//!
//! So a request is refused with nothing changed, or is one transaction with one entry.
//!
//! # Names
//!
//! A book's type names it: `N: Naming` stands for its two ledgers. So a purse can't be used at another book.
//!
//! # Answers
//!
//! Only a book makes an `Answer`, and it has the purse that was handed in. A type of another crate may carry that
//! purse on (`CarriesPurse`, `Answer::carried_with`); no call puts another one in its place.
//!
//! `tpcc_turns` shares a book among threads.
#![tactic(auto)]

mod answer;
mod book;
mod carrying;
mod naming;
mod purse;
mod register;

pub use answer::Answer;
pub use book::Book;
pub use carrying::CarriesPurse;
pub use naming::{Blanks, Entries, Naming, PaidCents};
pub use purse::{ALL_SHARES, MOST_PURSES, Pool, Purse};
pub use register::Register;
pub use register::outcome::Turned;
pub use register::ready::MOST_ENTRIES;
