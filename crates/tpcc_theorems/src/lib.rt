//! What follows from the definitions and is no code: a journal that is given to a script again leads to the same screens and the same
//! book, whoever runs it; and worked values of the definitions, computed.
//!
//! Each law is the contract of a function with nothing to do. `proofs/` has the worked values: amounts, the plain opening, each
//! transaction on small rows, what refuses it, the screens and whole scripts, and wrong bodies that the definitions refuse.
#![tactic(auto)]

mod replayed_scripts;

pub use replayed_scripts::{journal_is_done_again, journal_runs_again, names_are_letters};
