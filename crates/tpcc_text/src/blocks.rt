//! Output in blocks, in place of a call of the system for each line.
ghost use Rattle.std.specs.Prelude.{◌≡◌, [], ◌++◌, OnErr, OnOk, if◌then◌else◌};
ghost use Rattle.std.specs.Io.KnownBytes.{Appends};
ghost use Rattle.tpcc_text.specs.Prefix.{AppendsPrefix, PassesBytes};

pub(crate) mod unwritten;
pub(crate) mod writing;

use crate::blocks::unwritten::Unwritten;
use crate::blocks::writing::put_all;
use std::alloc::Global;
use std::io::Write;
use std::marker::Model;

/// How many bytes wait at most.
const MOST_WAITING: usize = 65_536;

/// Bytes that were put and not yet written, so that they go out in blocks.
#[derive(Drop)]
pub struct Blocks {
    /// At most MOST_WAITING, the first put first.
    bytes: Vec<u8>,
}

impl Model for Blocks {
    ghost use Rattle.std.specs.Prelude.{ℕ, List};

    ghost Value = { List ℕ };

    ghost view = { λ b. b.bytes.items };
}

impl Blocks {
    /// Nothing waits.
    pub fn new(alloc: Global) -> Blocks
        ensures { result ≡ [] }
    {
        Blocks {
            bytes: Vec::new(alloc),
        }
    }

    // Whether there is room for these bytes, which then wait.
    fn holds(&mut self, bytes: &[u8]) -> bool
        ensures { self.new ≡ (if result then self.old ++ bytes.now else self.old) }
    {
        bytes.len() <= MOST_WAITING
            && self.bytes.len() <= MOST_WAITING - bytes.len()
            && self.bytes.extend_from_slice(bytes).is_ok()
    }

    /// Lets bytes wait; where there is no room, what waits is written, and these too where they are too many to wait
    /// or are refused memory. An interrupted write is made again, at most 1,000 times in a row.
    pub fn put<W: Write>(&mut self, out: &mut W, bytes: &[u8]) -> Result<(), Unwritten>
        ensures written { OnOk result (PassesBytes (W.contents out.old) (W.contents out.new)
            (self.old ++ bytes.now) self.new) }
        ensures part { OnErr result (AppendsPrefix (W.contents out.old) (W.contents out.new)
            (self.old ++ bytes.now)) }
    {
        if self.holds(bytes) {
            return Ok(());
        }
        self.end(out)?;
        if self.holds(bytes) {
            return Ok(());
        }
        put_all(out, bytes)
    }

    /// Writes what waits, as [`put`](Blocks::put) does.
    pub fn end<W: Write>(&mut self, out: &mut W) -> Result<(), Unwritten>
        ensures none { OnOk result (self.new ≡ []) }
        ensures written { OnOk result
            (Appends (W.contents out.old) (W.contents out.new) self.old) }
        ensures part { OnErr result
            (AppendsPrefix (W.contents out.old) (W.contents out.new) self.old) }
    {
        put_all(out, self.bytes.as_slice())?;
        self.bytes.clear();
        Ok(())
    }
}
