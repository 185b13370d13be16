//! Out of memory.

use std::alloc::{AllocError, AllocFailed};
use thiserror::Error;

/// A growth was refused: the allocator had no memory to give.
#[derive(Clone, Copy, Debug, PartialEq, Eq, Error)]
#[error("NoMemory")]
pub struct NoMemory;

impl From<AllocError> for NoMemory {
    fn from(_refused: AllocError) -> Self {
        NoMemory
    }
}

/// The value that found no room is dropped.
impl<T: Drop> From<AllocFailed<T>> for NoMemory {
    fn from(_refused: AllocFailed<T>) -> Self {
        NoMemory
    }
}
