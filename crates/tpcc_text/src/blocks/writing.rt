//! Bytes, written whole.
ghost use Rattle.std.specs.Prelude.{OnErr, OnOk};
ghost use Rattle.std.specs.Io.KnownBytes.{Appends};
ghost use Rattle.tpcc_text.specs.Prefix.{AppendsPrefix};

use crate::blocks::unwritten::Unwritten;
use std::io::{ErrorKind, Write};

/// How often in a row an interrupted call of a reader or a writer is made again.
pub const MOST_RETRIES: u32 = 1_000;

/// Writes all the bytes; at a fault some first bytes of them.
#[tactic(auto, using(crate::proofs::BlockSteps::add_part))]
pub fn put_all<W: Write>(out: &mut W, bytes: &[u8]) -> Result<(), Unwritten>
    ensures written { OnOk result (Appends (W.contents out.old) (W.contents out.new) bytes.now) }
    ensures part { OnErr result
        (AppendsPrefix (W.contents out.old) (W.contents out.new) bytes.now) }
{
    let mut done = 0;
    let mut retries = MOST_RETRIES;
    'turns: while done < bytes.len() {
        match out.write(&bytes[done..]) {
            Ok(count) if count > 0 => {
                done += count;
                retries = MOST_RETRIES;
            }
            Err(error) if error.kind() == ErrorKind::Interrupted && retries > 0 => retries -= 1,
            _ => return Err(Unwritten),
        }
    }
    Ok(())
}
