//! A writer, flushed.
ghost use Rattle.std.specs.Prelude.{◌≡◌, IfErr, OnOk, true};
ghost use Rattle.std.specs.Io.KnownBytes.{Keeps};
ghost use Rattle.tpcc_script.specs.Internal.Attempts.{IsNoWorse};

use crate::watch::{Attempt, Watch, try_flush};
use std::io::Write;
use tpcc_text::ScriptFault;

/// Flushes the writer. An interrupted call is made again.
pub fn flush<W: Write>(out: &mut W, watch: &mut Watch) -> Result<(), ScriptFault>
    ensures kept { Keeps (W.contents out.old) (W.contents out.new) }
    ensures same { OnOk result (IsNoWorse watch.old watch.new) }
    ensures gave_up { IfErr result
        (λ f. (f ≡ ScriptFault.Write) × (watch.new.writer_failed ≡ true)) }
{
    'writes: loop {
        match try_flush(out, watch) {
            Ok(Attempt::Done(())) => return Ok(()),
            Ok(Attempt::Again) => {}
            Err(fault) => return Err(fault),
        }
    }
}
