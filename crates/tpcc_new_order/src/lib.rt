//! New-Order (2.4): one transaction in two halves.
#![tactic(auto)]

mod reading;
mod reply;
mod transaction;
mod writing;

pub use transaction::{PreparedOrder, enter, finish, prepare};
