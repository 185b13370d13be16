//! Why the program ends early, with its line on standard error and its exit status.
ghost use Rattle.std.specs.Prelude.{◌≡◌};
ghost use Rattle.tpcc_program.specs.Statuses.{status_of};

use crate::words::WordsFault;
use thiserror::Error;
use tpcc_run::RunFault;
use tpcc_show::OutputFault;
use tpcc_text::ScriptFault;

/// Why the program ends early. The text is its line on standard error.
#[derive(Clone, Copy, Debug, Error)]
pub enum ProgramFault {
    /// The words ask nothing that can be done.
    #[error("{0}")]
    Words(WordsFault),
    /// The script ended early.
    #[error("{0}")]
    Script(ScriptFault),
    /// The table was not written whole.
    #[error("{0}")]
    Output(OutputFault),
    /// The run ended without its report.
    #[error("{0}")]
    Run(RunFault),
}

impl ProgramFault {
    /// The exit status: 1 for arguments and scale, 2 for a script's lines, 3 for reading and
    /// writing, 4 for memory, 5 for a purse that is missing.
    pub fn status(&self) -> u8
        ensures status { result ≡ status_of self.now }
    {
        match self {
            ProgramFault::Words(fault) => match fault {
                WordsFault::Arguments | WordsFault::Scale(_) => 1,
                WordsFault::NoMemory => 4,
            },
            ProgramFault::Script(fault) => match fault {
                ScriptFault::Bad(_)
                | ScriptFault::Cut(_)
                | ScriptFault::LongLine(_)
                | ScriptFault::TooManyLines => 2,
                ScriptFault::Read | ScriptFault::Write => 3,
                ScriptFault::NoMemory => 4,
            },
            ProgramFault::Output(fault) => match fault {
                OutputFault::Write => 3,
                OutputFault::NoMemory => 4,
            },
            ProgramFault::Run(fault) => match fault {
                RunFault::Missing => 5,
                RunFault::NoMemory => 4,
                RunFault::Write => 3,
            },
        }
    }
}

impl From<WordsFault> for ProgramFault {
    ghost use Rattle.std.specs.Prelude.{◌≡◌};
    ghost use Rattle.tpcc_program.specs.declared.fault.ProgramFault.TheVariants as program;

    ghost from_gives = { λ words fault. fault ≡ program.Words words };

    fn from(fault: WordsFault) -> Self {
        ProgramFault::Words(fault)
    }
}
