//! What is shown of an order: its lines, their brands, and the amounts.

pub(crate) mod amounts;
pub(crate) mod brand;
pub(crate) mod lines;
pub(crate) mod replies;
