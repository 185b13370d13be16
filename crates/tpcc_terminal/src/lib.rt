//! What terminals ask: requests from decks of cards, with receipts of what was answered.
//!
//! # Terminals
//!
//! `Terminal::new` shuffles the first deck of a terminal, counted from 1. `next` gives the request of its next card, and a new deck
//! is shuffled behind a deck's last card. Whoever has the request asks the book with a purse, and hands the answer to `note`, which
//! keeps the receipt of an accepted one; `receipts` ends the terminal and gives them all. What a terminal asks depends on its
//! number, the scale and the seed, and on nothing that it is answered.
//!
//! # Laws
//!
//! `receipts_stand` and `receipts_stay` do nothing: their contracts say that a receipt is the journal's entry at its place, and stays so.
//!
//! Not promised: that memory is found. Each call refuses for want of it alone, and then a terminal is as it was.
#![tactic(auto)]

mod deal;
mod drafts;
mod draws;
mod home;
mod laws;
mod receipts;
mod terminal;

pub use laws::{receipts_stand, receipts_stay};
pub use receipts::{NumberedPurse, Receipt};
pub use terminal::Terminal;
