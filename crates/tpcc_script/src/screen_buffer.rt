//! Screens that wait to be written.
ghost use Rattle.std.specs.Prelude.{◌≡◌, [], ◌++◌, IfErr, OnErr, OnOk, true};
ghost use Rattle.std.specs.Io.KnownBytes.{Appends};
ghost use Rattle.tpcc_text.specs.Prefix.{AppendsPrefix, PassesBytes};
ghost use Rattle.tpcc_script.specs.Internal.Attempts.{IsNoWorse};

use crate::watch::{Watch, put_bytes, write_blocks};
use crate::writer::flush;
use std::alloc::Global;
use std::io::Write;
use std::marker::Model;
use tpcc_text::{Blocks, ScriptFault};

/// Screens that were made and not yet written, so that they go out in blocks.
#[derive(Drop)]
pub struct ScreenBuffer {
    /// The screens' bytes, one behind another.
    blocks: Blocks,
}

impl Model for ScreenBuffer {
    ghost use Rattle.std.specs.Prelude.{ℕ, List};

    ghost Value = { List ℕ };

    ghost view = { λ w. w.blocks };
}

impl ScreenBuffer {
    /// Nothing waits.
    pub fn new(alloc: Global) -> ScreenBuffer
        ensures { result ≡ [] }
    {
        ScreenBuffer {
            blocks: Blocks::new(alloc),
        }
    }

    /// Lets a screen wait; where there is no room, what waits is written, and the screen too where it is too long to
    /// wait or is refused memory.
    pub fn put<W: Write>(
        &mut self,
        out: &mut W,
        watch: &mut Watch,
        screen: &[u8],
    ) -> Result<(), ScriptFault>
        ensures ok { OnOk result (PassesBytes (W.contents out.old) (W.contents out.new)
            (self.old ++ screen.now) self.new) }
        ensures err { OnErr result (AppendsPrefix (W.contents out.old) (W.contents out.new)
            (self.old ++ screen.now)) }
        ensures same { OnOk result (IsNoWorse watch.old watch.new) }
        ensures gave_up { IfErr result
            (λ f. (f ≡ ScriptFault.Write) × (watch.new.writer_failed ≡ true)) }
    {
        put_bytes(&mut self.blocks, out, watch, screen)
    }

    /// Writes what waits, and flushes the writer.
    pub fn flush<W: Write>(&mut self, out: &mut W, watch: &mut Watch) -> Result<(), ScriptFault>
        ensures none { OnOk result (self.new ≡ []) }
        ensures ok { OnOk result (Appends (W.contents out.old) (W.contents out.new) self.old) }
        ensures err { OnErr result
            (AppendsPrefix (W.contents out.old) (W.contents out.new) self.old) }
        ensures same { OnOk result (IsNoWorse watch.old watch.new) }
        ensures gave_up { IfErr result
            (λ f. (f ≡ ScriptFault.Write) × (watch.new.writer_failed ≡ true)) }
    {
        write_blocks(&mut self.blocks, out, watch)?;
        flush(out, watch)
    }
}
