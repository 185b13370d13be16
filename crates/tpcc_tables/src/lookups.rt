//! What is asked of the rows: by key, of a district, of an order's lines.

pub(crate) mod copies;
pub(crate) mod district_counts;
pub(crate) mod districts;
pub(crate) mod find;
pub(crate) mod levels;
