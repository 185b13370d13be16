//! Turns at a book: the book that threads share, served one request at a time.
//!
//! `UnnamedTurns::start` makes a book for threads, which share its `Turns` and have a `SeatedPurse` each:
//!
//! ```text
//! Turns::serve:  draw a ticket, wait until it is called -> serve -> put the book back, call the next ticket
//! ```
//!
//! `begin` keeps a turn as a `HeldTurn`; `serve_held` serves in it for any purse, as often as one wants, until
//! `end`. After the joins `gather` takes all purses and gives the book back.
//!
//! The turns' type names them: `T: Seating` stands for the seats, beside `N: Naming` of the book. So a purse can't be used at other turns.
//!
//! Not promised: that a ticket is ever called.
#![tactic(auto)]

mod pause;
mod turns;

pub use pause::Pause;
pub use turns::{HeldTurn, SeatedPurse, Seating, Turns, UnnamedTurns};
