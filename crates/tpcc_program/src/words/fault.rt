//! Why words ask nothing that can be done.
ghost use Rattle.std.specs.Prelude.{◌≡◌};
ghost use Rattle.std.specs.Option.{option_copied};
ghost use Rattle.tpcc_program.specs.Internal.Ranges.{range_of};

use thiserror::Error;
use tpcc_population::ScaleFault;

/// Why words ask nothing that can be done. The text is the program's line on standard error.
#[derive(Clone, Copy, Debug, Error)]
pub enum WordsFault {
    /// The words name no command, or an option or a value that there is not.
    #[error("fault 1 Arguments")]
    Arguments,
    /// A growth was refused while the words were read.
    #[error("fault 2 NoMemory")]
    NoMemory,
    /// There is no such scale.
    #[error("{0}")]
    Scale(ScaleFault),
}

impl WordsFault {
    /// What a person at a terminal is told of a scale that there is not: the range that it left.
    pub(crate) fn range(&self) -> Option<&'static str>
        ensures range { option_copied result ≡ range_of self.now }
    {
        match self {
            WordsFault::Scale(ScaleFault::Warehouses) => Some("warehouses are 1 to 100"),
            WordsFault::Scale(ScaleFault::Customers) => {
                Some("customers of a district are 10 to 3000, a multiple of 10")
            }
            WordsFault::Scale(ScaleFault::Items) => Some("items are 100 to 100000"),
            _ => None,
        }
    }
}
