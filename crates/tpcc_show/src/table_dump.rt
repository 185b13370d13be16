//! Tables as comma-separated values.

mod columns;
pub(crate) mod dumping;
mod fields;
pub(crate) mod laws;
mod output;
pub(crate) mod output_fault;
mod records;
