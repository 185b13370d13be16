//! Lines of a script, read byte by byte.
ghost use Rattle.std.specs.Prelude.{◌≡◌, ◌≢◌, ◌≤◌, ℕ, List, Some, true, IfOk, IfSome, IfErr};
ghost use Rattle.tpcc_script.specs.Internal.Attempts.{HasGivenUp, TakesByte};
ghost use Rattle.tpcc_script.specs.Internal.Steps.{IsRead};
ghost use Rattle.tpcc_text.specs.declared.script.limits.TheConstants.{MOST_LINES};

use crate::watch::{Attempt, Watch, try_byte};
use std::alloc::Global;
use std::io::Read;
use tpcc_text::{LONGEST_LINE, MOST_LINES, ScriptFault};

/// The next line, whose number is given, without its line feed; none at the end.
///
/// Refused at the first byte past the last line (TooManyLines), at the first byte past the longest
/// line (LongLine), at an end behind some bytes (Cut), where the reader fails (Read) or memory does.
pub fn read_line<R: Read>(
    alloc: Global,
    input: &mut R,
    watch: &mut Watch,
    number: u32,
) -> Result<Option<Vec<u8>>, ScriptFault>
    ensures read { (bytes : List ℕ) → R.remaining input.old ≡ Some bytes
        → IsRead (λ v. v.items) number bytes result (R.remaining input.new) }
    ensures within { IfOk result (λ line. IfSome line (λ _. number ≤ MOST_LINES)) }
    ensures gave_up { IfErr result (HasGivenUp watch.new) }
    ensures why { IfErr result (λ f. f ≢ ScriptFault.Write) }
{
    let mut line = Vec::new(alloc);
    'bytes: loop {
        let byte = match next_byte(input, watch) {
            Ok(Some(byte)) => byte,
            Ok(None) if line.is_empty() => return Ok(None),
            Ok(None) => return Err(ScriptFault::Cut(number)),
            Err(_) => return Err(ScriptFault::Read),
        };
        if number > MOST_LINES {
            return Err(ScriptFault::TooManyLines);
        }
        if byte == b'\n' {
            return Ok(Some(line));
        }
        if line.len() == LONGEST_LINE {
            return Err(ScriptFault::LongLine(number));
        }
        if line.push(byte).is_err() {
            return Err(ScriptFault::NoMemory);
        }
    }
}

/// The next byte, or none at the end. An interrupted read is tried again.
pub fn next_byte<R: Read>(input: &mut R, watch: &mut Watch) -> Result<Option<u8>, ScriptFault>
    ensures ok { IfOk result (TakesByte (R.remaining input.old) (R.remaining input.new)) }
    ensures gave_up { IfErr result
        (λ f. (f ≡ ScriptFault.Read) × (watch.new.reader_failed ≡ true)) }
{
    'reads: loop {
        match try_byte(input, watch) {
            Ok(Attempt::Done(byte)) => return Ok(byte),
            Ok(Attempt::Again) => {}
            Err(fault) => return Err(fault),
        }
    }
}
