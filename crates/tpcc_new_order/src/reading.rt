//! What an order reads before it changes anything: the rows that it names, and whether they stay in range.

pub(crate) mod lookups;
pub(crate) mod order_rows;
pub(crate) mod ranges;
