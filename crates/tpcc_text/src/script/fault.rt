//! Why a script ends early, and why a line says nothing.

use thiserror::Error;

/// Why a script ended early. The screens of all earlier lines have been written, after Write a
/// first part of them. Lines are numbered from 1. The text is the program's line on standard error.
#[derive(Clone, Copy, Debug, Error)]
pub enum ScriptFault {
    /// The line says no request and no call.
    #[error("fault 1 Bad {0}")]
    Bad(u32),
    /// The last line has no line feed.
    #[error("fault 2 Cut {0}")]
    Cut(u32),
    /// The line has more than 4,096 bytes.
    #[error("fault 3 LongLine {0}")]
    LongLine(u32),
    /// A byte follows 1,000,000 lines.
    #[error("fault 4 TooManyLines")]
    TooManyLines,
    /// The reader failed, or was interrupted 1,001 times in a row.
    #[error("fault 5 Read")]
    Read,
    /// The writer failed, took nothing, or was interrupted 1,001 times in a row.
    #[error("fault 6 Write")]
    Write,
    /// A growth was refused.
    #[error("fault 7 NoMemory")]
    NoMemory,
}

/// Why words say no request and no call.
#[derive(Clone, Copy)]
pub enum ParseFault {
    /// They are none of the forms.
    Bad,
    /// A growth was refused.
    NoMemory,
}
