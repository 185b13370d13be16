//! What parts can be shown of.
ghost use Rattle.std.specs.Prelude.{◌++◌, OnErr, OnOk};
ghost use Rattle.tpcc_text.specs.Prefix.{AppendsPrefix, PassesBytes};
ghost use Rattle.tpcc_show.specs.Shown.{book_report, part_text};

use crate::book_screens::calls::{check_screen, results_screen};
use crate::entries::{ReplyScreens, RequestLines, put_each};
use crate::parts::Part;
use crate::table_dump::dumping::put_dump;
use crate::table_dump::output_fault::OutputFault;
use crate::texts::{put_bytes, put_screen};
use std::alloc::Global;
use std::io::Write;
use tpcc_book::{Book, Naming};
use tpcc_text::{Blocks, Report};

/// A book, alone or with what was kept beside it.
pub trait ShownBook {
    ghost use Rattle.std.specs.Prelude.{ℕ, List};
    ghost use Rattle.tpcc_show.specs.declared.parts.Part.{Part};

    /// The text of each part.
    ghost text: { Self → Part → List ℕ };

    /// Puts a part, with no heading.
    fn put_part<W: Write>(
        &self,
        alloc: Global,
        part: Part,
        blocks: &mut Blocks,
        out: &mut W,
    ) -> Result<(), OutputFault>
        ensures written { OnOk result (PassesBytes (W.contents out.old) (W.contents out.new)
            (blocks.old ++ text self.now part) blocks.new) }
        ensures part { OnErr result (AppendsPrefix (W.contents out.old) (W.contents out.new)
            (blocks.old ++ text self.now part)) };
}

/// A book alone: its screens are those of its journal's entries, and there are no receipts.
impl<N: Naming> ShownBook for Book<N> {
    ghost text = { λ book part. part_text book part };

    fn put_part<W: Write>(
        &self,
        alloc: Global,
        part: Part,
        blocks: &mut Blocks,
        out: &mut W,
    ) -> Result<(), OutputFault> {
        match part {
            Part::Screens => put_each::<ReplyScreens, W>(alloc, blocks, out, self.journal()),
            Part::Journal => put_each::<RequestLines, W>(alloc, blocks, out, self.journal()),
            Part::Receipts => Ok(()),
            Part::Results => put_screen(blocks, out, results_screen(alloc, self.journal())),
            Part::Check => put_screen(blocks, out, check_screen(alloc, self.tables())),
            Part::Report => put_report(alloc, blocks, out, self),
            Part::Rows(table) => put_dump(alloc, self.tables(), table, blocks, out),
        }
    }
}

#[tactic(auto, using(tpcc_text::proofs::BlockSteps::none_part))]
fn put_report<N: Naming, W: Write>(
    alloc: Global,
    blocks: &mut Blocks,
    out: &mut W,
    book: &Book<N>,
) -> Result<(), OutputFault>
    ensures written { OnOk result (PassesBytes (W.contents out.old) (W.contents out.new)
        (blocks.old ++ book_report book.now) blocks.new) }
    ensures part { OnErr result (AppendsPrefix (W.contents out.old) (W.contents out.new)
        (blocks.old ++ book_report book.now)) }
{
    let rise = book.rise();
    let totals = Report {
        entries: book.journal().len() as u64,
        paid: rise,
        rise,
    };
    let Ok(text) = totals.to_string(alloc) else {
        return Err(OutputFault::NoMemory);
    };
    put_bytes(blocks, out, text.as_bytes())
}
