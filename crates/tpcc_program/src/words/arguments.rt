//! The words that the program was started with.
ghost use Rattle.std.specs.Prelude.{IfOk};
ghost use Rattle.tpcc_program.specs.Tasks.{HasPlan};

use crate::command::Command;
use crate::words::fault::WordsFault;
use crate::words::reading::read_words;
use std::alloc::Global;
use std::env::Env;
use std::io::ErrorKind;

/// Reads the words that the program was started with.
///
/// Refused as Arguments where they name no command, or an option or a value that there is not, a
/// wish for help or version among it, and where a word is not UTF-8; as NoMemory for want of
/// memory. Whether there is such a scale is not asked here.
pub fn read_command<R: Env + AllocGlobal>(rt: &R, alloc: Global) -> Result<Command, WordsFault>
    ensures plan { IfOk result (λ command. HasPlan command.task) }
{
    read_words(alloc, started_words(rt, alloc)?.as_slice())
}

/// The words themselves, of which the first is the program's name.
pub(crate) fn started_words<R: Env + AllocGlobal>(
    rt: &R,
    alloc: Global,
) -> Result<Vec<String>, WordsFault> {
    let words = match std::env::args(rt) {
        Ok(words) => words,
        // a word that is not UTF-8
        Err(error) if error.kind() == ErrorKind::InvalidData => {
            return Err(WordsFault::Arguments);
        }
        Err(_) => return Err(WordsFault::NoMemory),
    };
    match words.collect(alloc) {
        Ok(words) => Ok(words),
        Err(_) => Err(WordsFault::NoMemory),
    }
}
