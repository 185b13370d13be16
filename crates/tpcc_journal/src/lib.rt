//! The journal of a book: each accepted request with its reply.
#![tactic(auto)]

mod journal;
mod result_log;
mod stored;
mod tallies;

pub use journal::{EntryRef, Journal};
pub use result_log::results;
