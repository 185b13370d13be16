//! The consistency conditions of clause 3.3.2, tested over all rows.
#![tactic(auto)]

mod all;
mod broken;
mod condition;
mod district_totals;
mod keeps;
mod places;
mod stocked;

pub use all::{check, check_opening, nothing_broken_at_opening};
pub use broken::Broken;
pub use stocked::{is_stocked, stock_stays};
