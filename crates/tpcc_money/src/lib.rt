//! Exact amounts, rates and moments of the order-entry tables, and their texts.
//!
//! An amount is a whole number of cents, a rate a whole number of ten-thousandths, a moment a
//! whole number of seconds since 1970, in UTC.
#![tactic(auto)]

mod amounts;
mod cents;
mod moment;
mod parse;
mod rate;

pub use amounts::{GREATEST_PRICE, GREATEST_SUM, line_amount, order_total};
pub use cents::Cents;
pub use moment::Moment;
pub use parse::{AmountFault, GREATEST_AMOUNT, parse_amount, parse_number};
pub use rate::Rate;
