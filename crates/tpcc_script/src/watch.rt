//! Calls of a reader and a writer that are made again where they were interrupted, and whether one of the two failed.
ghost use Rattle.std.specs.Prelude.{◌≡◌, ◌<◌, ◌++◌, [], ℕ, List, Some, slice_get, drop, true, false, IfOk, IfErr, OnErr, OnOk};
ghost use Rattle.std.specs.Io.KnownBytes.{Appends, Keeps};
ghost use Rattle.tpcc_text.specs.Prefix.{AppendsPrefix, PassesBytes};
ghost use Rattle.tpcc_text.specs.declared.blocks.writing.TheConstants.{MOST_RETRIES};
ghost use Rattle.tpcc_script.specs.Internal.Attempts.{HasFlushed, HasRead, IsNoWorse};

use std::io::{Error, ErrorKind, Read, Write};
use std::marker::Model;
use tpcc_text::{Blocks, MOST_RETRIES, ScriptFault};

/// What became of the calls of a script's reader and writer. That one of the two failed is noted by the calls of this
/// file alone, which saw it fail.
#[derive(Drop)]
pub struct Watch {
    /// How often an interrupted call may still be made again.
    retries: u32,
    /// Whether the reader failed, or was interrupted once too often.
    reader_failed: bool,
    /// Whether the writer failed, took nothing, or was interrupted once too often.
    writer_failed: bool,
}

impl Model for Watch {
    ghost use Rattle.tpcc_script.specs.Internal.Attempts.{WatchView};

    ghost Value = { WatchView };

    ghost view = { λ w. record {
      retries = w.retries;
      reader_failed = w.reader_failed;
      writer_failed = w.writer_failed;
    } };
}

/// A call that was not given up.
pub enum Attempt<T> {
    /// What it gave.
    Done(T),
    /// It was interrupted.
    Again,
}

impl Watch {
    /// Nothing has failed, and no call was made again.
    pub fn new() -> Watch
        ensures new { result
            ≡ record { retries = MOST_RETRIES; reader_failed = false; writer_failed = false } }
    {
        Watch {
            retries: MOST_RETRIES,
            reader_failed: false,
            writer_failed: false,
        }
    }

    // Whether a call that ended so is made again.
    fn is_retried(&mut self, error: &Error) -> bool
        ensures less { result ≡ true → self.new.retries < self.old.retries }
        ensures same { IsNoWorse self.old self.new }
    {
        if error.kind() != ErrorKind::Interrupted || self.retries == 0 {
            return false;
        }
        self.retries -= 1;
        true
    }
}

/// Reads one byte; none at the end. Read where the reader is given up, which is then noted.
pub fn try_byte<R: Read>(
    input: &mut R,
    watch: &mut Watch,
) -> Result<Attempt<Option<u8>>, ScriptFault>
    ensures read { IfOk result
        (HasRead watch.old watch.new (R.remaining input.old) (R.remaining input.new)) }
    ensures same { OnOk result (IsNoWorse watch.old watch.new) }
    ensures writer { watch.new.writer_failed ≡ watch.old.writer_failed }
    ensures gave_up { IfErr result
        (λ f. (f ≡ ScriptFault.Read) × (watch.new.reader_failed ≡ true)) }
{
    let mut buf = [0u8];
    match input.read(&mut buf) {
        Ok(count) => {
            watch.retries = MOST_RETRIES;
            Ok(Attempt::Done(if count == 0 { None } else { Some(buf[0]) }))
        }
        Err(error) if watch.is_retried(&error) => Ok(Attempt::Again),
        Err(_) => {
            watch.reader_failed = true;
            Err(ScriptFault::Read)
        }
    }
}

/// Flushes the writer. Write where it is given up, which is then noted.
pub fn try_flush<W: Write>(out: &mut W, watch: &mut Watch) -> Result<Attempt<()>, ScriptFault>
    ensures flushed { IfOk result (HasFlushed watch.old watch.new) }
    ensures kept { Keeps (W.contents out.old) (W.contents out.new) }
    ensures same { OnOk result (IsNoWorse watch.old watch.new) }
    ensures reader { watch.new.reader_failed ≡ watch.old.reader_failed }
    ensures gave_up { IfErr result
        (λ f. (f ≡ ScriptFault.Write) × (watch.new.writer_failed ≡ true)) }
{
    match out.flush() {
        Ok(()) => {
            watch.retries = MOST_RETRIES;
            Ok(Attempt::Done(()))
        }
        Err(error) if watch.is_retried(&error) => Ok(Attempt::Again),
        Err(_) => {
            watch.writer_failed = true;
            Err(ScriptFault::Write)
        }
    }
}

/// Puts bytes into blocks. Write where the writer is given up, which is then noted.
pub fn put_bytes<W: Write>(
    blocks: &mut Blocks,
    out: &mut W,
    watch: &mut Watch,
    bytes: &[u8],
) -> Result<(), ScriptFault>
    ensures ok { OnOk result (PassesBytes (W.contents out.old) (W.contents out.new)
        (blocks.old ++ bytes.now) blocks.new) }
    ensures err { OnErr result (AppendsPrefix (W.contents out.old) (W.contents out.new)
        (blocks.old ++ bytes.now)) }
    ensures same { OnOk result (IsNoWorse watch.old watch.new) }
    ensures reader { watch.new.reader_failed ≡ watch.old.reader_failed }
    ensures gave_up { IfErr result
        (λ f. (f ≡ ScriptFault.Write) × (watch.new.writer_failed ≡ true)) }
{
    match blocks.put(out, bytes) {
        Ok(()) => Ok(()),
        Err(_) => {
            watch.writer_failed = true;
            Err(ScriptFault::Write)
        }
    }
}

/// Writes what waits in blocks. Write where the writer is given up, which is then noted.
pub fn write_blocks<W: Write>(
    blocks: &mut Blocks,
    out: &mut W,
    watch: &mut Watch,
) -> Result<(), ScriptFault>
    ensures none { OnOk result (blocks.new ≡ []) }
    ensures ok { OnOk result (Appends (W.contents out.old) (W.contents out.new) blocks.old) }
    ensures err { OnErr result
        (AppendsPrefix (W.contents out.old) (W.contents out.new) blocks.old) }
    ensures same { OnOk result (IsNoWorse watch.old watch.new) }
    ensures reader { watch.new.reader_failed ≡ watch.old.reader_failed }
    ensures gave_up { IfErr result
        (λ f. (f ≡ ScriptFault.Write) × (watch.new.writer_failed ≡ true)) }
{
    match blocks.end(out) {
        Ok(()) => Ok(()),
        Err(_) => {
            watch.writer_failed = true;
            Err(ScriptFault::Write)
        }
    }
}
