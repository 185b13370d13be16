//! What one transaction changes in the rows of each table.

pub(crate) mod delivery;
pub(crate) mod order_number;
pub(crate) mod payment;
pub(crate) mod supply;
