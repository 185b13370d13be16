//! The initial population of the tables (4.3.3): its scale, both openings and their rows.
#![tactic(auto)]

mod filled;
mod layout;
mod lists;
mod new_orders;
mod opening;
mod plain;
mod row_list;
mod rules;
mod scale;
mod seeded;
mod tables;
mod texts;

pub use filled::fill;
pub use opening::{Opening, opening_is_sound};
pub use scale::{LEAST_CUSTOMERS, LEAST_ITEMS, Scale, ScaleFault};
