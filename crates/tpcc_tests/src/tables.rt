//! The tables, the conditions and the transactions in one call, on rows of the plain opening.
pub mod changes;
pub mod conditions;
mod loads;
pub mod opening;
mod sizes;
pub mod totals;
pub mod transactions;
