//! Order-Status (2.6) and Stock-Level (2.8): they read the tables and change no row.
#![tactic(auto)]

mod lines;
mod orders;
mod queries;
mod stocks;

pub use orders::{judge_status, order_status};
pub use stocks::stock_level;
