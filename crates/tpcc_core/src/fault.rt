//! Why an event did not happen.

use thiserror::Error;

/// Why an event did not happen. The desk is unchanged after either.
#[derive(Clone, Copy, Debug, PartialEq, Eq, Error)]
pub enum CoreFault {
    /// The mailbox or the hand is in another state, or has no such number.
    #[error("NotReady")]
    NotReady,
    /// A growth was refused. Only a ready Post answers it.
    #[error("NoMemory")]
    NoMemory,
}
