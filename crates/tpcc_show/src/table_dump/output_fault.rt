//! Why a dump ends early.

use thiserror::Error;
use tpcc_rows::NoMemory;
use tpcc_text::Unwritten;

/// Why a dump ended early; a first part of its text is written. The text is the program's line on standard error.
#[derive(Clone, Copy, Debug, Error)]
pub enum OutputFault {
    /// The writer failed, took nothing, or was interrupted 1,001 times in a row.
    #[error("fault 1 Write")]
    Write,
    /// A growth was refused.
    #[error("fault 2 NoMemory")]
    NoMemory,
}

impl From<Unwritten> for OutputFault {
    ghost use Rattle.std.specs.Prelude.{◌≡◌};
    ghost use Rattle.tpcc_show.specs.declared.table_dump.output_fault.OutputFault.TheVariants as fault;

    ghost from_gives = { λ _ f. f ≡ fault.Write };

    fn from(_gave_up: Unwritten) -> Self {
        OutputFault::Write
    }
}

impl From<NoMemory> for OutputFault {
    ghost use Rattle.std.specs.Prelude.{◌≡◌};
    ghost use Rattle.tpcc_show.specs.declared.table_dump.output_fault.OutputFault.TheVariants as fault;

    ghost from_gives = { λ _ f. f ≡ fault.NoMemory };

    fn from(_refused: NoMemory) -> Self {
        OutputFault::NoMemory
    }
}
