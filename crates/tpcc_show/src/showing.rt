//! Parts, written one after another.
ghost use Rattle.std.specs.Prelude.{◌++◌, OnErr, OnOk, flat_map};
ghost use Rattle.std.specs.Io.KnownBytes.{Appends};
ghost use Rattle.tpcc_text.specs.Prefix.{AppendsPrefix, PassesBytes};
ghost use Rattle.tpcc_show.specs.Shown.{headed_text, parts_text};
ghost use Rattle.tpcc_show.specs.Internal.Shown.{heading, named_line};

use crate::parts::Part;
use crate::shown_book::ShownBook;
use crate::table_dump::output_fault::OutputFault;
use crate::texts::put_bytes;
use std::alloc::Global;
use std::io::Write;
use tpcc_text::Blocks;

/// Writes parts of a book, in their order: one part alone as it is, several each under a line `== PART`.
///
/// Write where the writer fails or takes nothing, NoMemory where a growth was refused. An interrupted write is made
/// again, at most 1,000 times in a row.
#[tactic(auto, using(tpcc_text::proofs::BlockSteps::ends_whole, tpcc_text::proofs::BlockSteps::ends_part))]
pub fn show<B: ShownBook, W: Write>(
    alloc: Global,
    book: &B,
    parts: &[Part],
    out: &mut W,
) -> Result<(), OutputFault>
    ensures written { OnOk result (Appends (W.contents out.old) (W.contents out.new)
        (parts_text (B.text book.now) parts.now)) }
    ensures part { OnErr result (AppendsPrefix (W.contents out.old) (W.contents out.new)
        (parts_text (B.text book.now) parts.now)) }
{
    let mut blocks = Blocks::new(alloc);
    show_parts(alloc, book, parts, &mut blocks, out)?;
    blocks.end(out)?;
    Ok(())
}

fn show_parts<B: ShownBook, W: Write>(
    alloc: Global,
    book: &B,
    parts: &[Part],
    blocks: &mut Blocks,
    out: &mut W,
) -> Result<(), OutputFault>
    ensures written { OnOk result (PassesBytes (W.contents out.old) (W.contents out.new)
        (blocks.old ++ parts_text (B.text book.now) parts.now) blocks.new) }
    ensures part { OnErr result (AppendsPrefix (W.contents out.old) (W.contents out.new)
        (blocks.old ++ parts_text (B.text book.now) parts.now)) }
{
    match parts {
        [part] => book.put_part(alloc, *part, blocks, out),
        _ => show_all(alloc, book, parts, blocks, out),
    }
}

fn show_all<B: ShownBook, W: Write>(
    alloc: Global,
    book: &B,
    parts: &[Part],
    blocks: &mut Blocks,
    out: &mut W,
) -> Result<(), OutputFault>
    ensures written { OnOk result (PassesBytes (W.contents out.old) (W.contents out.new)
        (blocks.old ++ flat_map (headed_text (B.text book.now)) parts.now) blocks.new) }
    ensures part { OnErr result (AppendsPrefix (W.contents out.old) (W.contents out.new)
        (blocks.old ++ flat_map (headed_text (B.text book.now)) parts.now)) }
{
    for part in parts {
        show_headed(alloc, book, *part, blocks, out)?;
    }
    Ok(())
}

fn show_headed<B: ShownBook, W: Write>(
    alloc: Global,
    book: &B,
    part: Part,
    blocks: &mut Blocks,
    out: &mut W,
) -> Result<(), OutputFault>
    ensures written { OnOk result (PassesBytes (W.contents out.old) (W.contents out.new)
        (blocks.old ++ headed_text (B.text book.now) part) blocks.new) }
    ensures part { OnErr result (AppendsPrefix (W.contents out.old) (W.contents out.new)
        (blocks.old ++ headed_text (B.text book.now) part)) }
{
    put_heading(blocks, out, part)?;
    book.put_part(alloc, part, blocks, out)
}

fn put_heading<W: Write>(blocks: &mut Blocks, out: &mut W, part: Part) -> Result<(), OutputFault>
    ensures written { OnOk result (PassesBytes (W.contents out.old) (W.contents out.new)
        (blocks.old ++ heading part) blocks.new) }
    ensures part { OnErr result (AppendsPrefix (W.contents out.old) (W.contents out.new)
        (blocks.old ++ heading part)) }
{
    put_bytes(blocks, out, b"== ")?;
    put_name(blocks, out, part)
}

fn put_name<W: Write>(blocks: &mut Blocks, out: &mut W, part: Part) -> Result<(), OutputFault>
    ensures written { OnOk result (PassesBytes (W.contents out.old) (W.contents out.new)
        (blocks.old ++ named_line part) blocks.new) }
    ensures part { OnErr result (AppendsPrefix (W.contents out.old) (W.contents out.new)
        (blocks.old ++ named_line part)) }
{
    put_bytes(blocks, out, part.name())?;
    put_bytes(blocks, out, b"\n")
}
