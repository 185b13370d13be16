//! The rows that an order writes.

pub(crate) mod rows;
pub(crate) mod supply;
