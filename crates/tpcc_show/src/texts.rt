//! Texts, put into blocks.
ghost use Rattle.std.specs.Prelude.{◌≡◌, ◌++◌, ℕ, List, IfOk, OnErr, OnOk};
ghost use Rattle.tpcc_text.specs.Prefix.{AppendsPrefix, PassesBytes};

use crate::table_dump::output_fault::OutputFault;
use std::io::Write;
use tpcc_rows::NoMemory;
use tpcc_text::{Blocks, Screen};

/// Puts bytes.
pub fn put_bytes<W: Write>(
    blocks: &mut Blocks,
    out: &mut W,
    bytes: &[u8],
) -> Result<(), OutputFault>
    ensures written { OnOk result (PassesBytes (W.contents out.old) (W.contents out.new)
        (blocks.old ++ bytes.now) blocks.new) }
    ensures part { OnErr result (AppendsPrefix (W.contents out.old) (W.contents out.new)
        (blocks.old ++ bytes.now)) }
{
    match blocks.put(out, bytes) {
        Ok(()) => Ok(()),
        Err(_) => Err(OutputFault::Write),
    }
}

/// Puts a screen whose text is known; where memory for it was refused, nothing.
#[tactic(auto, using(tpcc_text::proofs::BlockSteps::none_part))]
pub fn put_screen<W: Write>(
    blocks: &mut Blocks,
    out: &mut W,
    made: Result<Screen, NoMemory>,
) -> Result<(), OutputFault>
    ensures written { (text : List ℕ) → IfOk made (λ screen. screen ≡ text)
        → OnOk result (PassesBytes (W.contents out.old) (W.contents out.new)
        (blocks.old ++ text) blocks.new) }
    ensures part { (text : List ℕ) → IfOk made (λ screen. screen ≡ text)
        → OnErr result (AppendsPrefix (W.contents out.old) (W.contents out.new)
        (blocks.old ++ text)) }
{
    match made {
        Ok(screen) => put_bytes(blocks, out, screen.bytes()),
        Err(_) => Err(OutputFault::NoMemory),
    }
}
