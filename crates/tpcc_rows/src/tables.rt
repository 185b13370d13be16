//! The nine tables: their rows and keys.

pub(crate) mod keys;
pub(crate) mod row;
pub(crate) mod rows;
