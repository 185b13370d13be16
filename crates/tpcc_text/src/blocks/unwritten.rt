//! Why bytes are not all written.

/// The writer failed, took nothing, or was interrupted 1,001 times in a row.
#[derive(Clone, Copy)]
pub struct Unwritten;
