//! The draws of one row, exact functions of the words that its generator answers: numbers,
//! strings, shuffles (4.3.2, 4.3.3) and the last names that numbers stand for (4.3.2.3).
#![tactic(auto)]

mod cards;
mod names;
mod stream;

pub use cards::Card;
pub use names::{LAST_NAMES, last_name};
pub use stream::{GREATEST_DRAW, Stream};
