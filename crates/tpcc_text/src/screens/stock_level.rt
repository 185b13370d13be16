//! The screen of Stock-Level.
ghost use Rattle.std.specs.Prelude.{OnOk};
ghost use Rattle.tpcc_text.specs.Internal.Adding.{Adds};
ghost use Rattle.tpcc_text.specs.Screens as screens;

use crate::screens::Screen;
use crate::screens::pieces::Piece;
use tpcc_rows::{Level, NoMemory};

/// The screen of a Stock-Level (2.8.3.3).
pub fn put_level(screen: &mut Screen, level: Level) -> Result<(), NoMemory>
    ensures { OnOk result (Adds screen.old screen.new (screens.level_screen level)) }
{
    screen.put_all(&[
        Piece::Number(b"stock-level W_ID=", level.warehouse),
        Piece::Number(b" D_ID=", level.district),
        Piece::Number(b" threshold=", level.threshold),
        Piece::Number(b" low_stock=", level.low_stock),
        Piece::Word(b"\n"),
    ])
}
