//! Why a run ends without its report.

use thiserror::Error;

/// Why a run ended without its report. The text is the program's line on standard error.
#[derive(Clone, Copy, Debug, PartialEq, Eq, Error)]
pub enum RunFault {
    /// A purse did not come back: its job was still out when the mailboxes were closed.
    #[error("fault 1 Missing")]
    Missing,
    /// A growth or a thread was refused.
    #[error("fault 3 NoMemory")]
    NoMemory,
    /// The writer failed, took nothing, or was interrupted 1,001 times in a row.
    #[error("fault 4 Write")]
    Write,
}
