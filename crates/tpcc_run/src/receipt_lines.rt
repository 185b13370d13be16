//! Receipts as comma-separated values, a line each.
ghost use Rattle.std.specs.Prelude.{◌++◌, OnErr, OnOk, flat_map};
ghost use Rattle.tpcc_text.specs.Prefix.{AppendsPrefix, PassesBytes};
ghost use Rattle.tpcc_audit.specs.Settlement.{all_receipts};
ghost use Rattle.tpcc_run.specs.ShownRun.{receipt_line, receipt_lines, receipt_numbers, receipts_text};

use std::alloc::Global;
use std::io::Write;
use tpcc_show::{OutputFault, put_screen};
use tpcc_terminal::Receipt;
use tpcc_text::{Blocks, request_line};

/// Puts the names of the columns and then a line for each receipt: one terminal's behind another's.
pub(crate) fn put_receipts<W: Write>(
    alloc: Global,
    receipts: &[Vec<Receipt>],
    blocks: &mut Blocks,
    out: &mut W,
) -> Result<(), OutputFault>
    ensures written { OnOk result (PassesBytes (W.contents out.old) (W.contents out.new)
        (blocks.old ++ receipts_text (all_receipts receipts.now)) blocks.new) }
    ensures part { OnErr result (AppendsPrefix (W.contents out.old) (W.contents out.new)
        (blocks.old ++ receipts_text (all_receipts receipts.now))) }
{
    blocks.put(out, b"terminal,number,place,request\n")?;
    put_all(alloc, receipts, blocks, out)
}

// The lines of all terminals.
fn put_all<W: Write>(
    alloc: Global,
    receipts: &[Vec<Receipt>],
    blocks: &mut Blocks,
    out: &mut W,
) -> Result<(), OutputFault>
    ensures written { OnOk result (PassesBytes (W.contents out.old) (W.contents out.new)
        (blocks.old ++ flat_map (λ held. receipt_lines held.items) receipts.now) blocks.new) }
    ensures part { OnErr result (AppendsPrefix (W.contents out.old) (W.contents out.new)
        (blocks.old ++ flat_map (λ held. receipt_lines held.items) receipts.now)) }
{
    for held in receipts {
        put_lines(alloc, held.as_slice(), blocks, out)?;
    }
    Ok(())
}

// The lines of one terminal.
fn put_lines<W: Write>(
    alloc: Global,
    receipts: &[Receipt],
    blocks: &mut Blocks,
    out: &mut W,
) -> Result<(), OutputFault>
    ensures written { OnOk result (PassesBytes (W.contents out.old) (W.contents out.new)
        (blocks.old ++ receipt_lines receipts.now) blocks.new) }
    ensures part { OnErr result (AppendsPrefix (W.contents out.old) (W.contents out.new)
        (blocks.old ++ receipt_lines receipts.now)) }
{
    for receipt in receipts {
        put_line(alloc, receipt, blocks, out)?;
    }
    Ok(())
}

fn put_line<W: Write>(
    alloc: Global,
    receipt: &Receipt,
    blocks: &mut Blocks,
    out: &mut W,
) -> Result<(), OutputFault>
    ensures written { OnOk result (PassesBytes (W.contents out.old) (W.contents out.new)
        (blocks.old ++ receipt_line receipt.now) blocks.new) }
    ensures part { OnErr result (AppendsPrefix (W.contents out.old) (W.contents out.new)
        (blocks.old ++ receipt_line receipt.now)) }
{
    put_numbers(alloc, receipt, blocks, out)?;
    put_screen(blocks, out, request_line(alloc, &receipt.request))
}

// The three numbers, each with a comma behind it.
fn put_numbers<W: Write>(
    alloc: Global,
    receipt: &Receipt,
    blocks: &mut Blocks,
    out: &mut W,
) -> Result<(), OutputFault>
    ensures written { OnOk result (PassesBytes (W.contents out.old) (W.contents out.new)
        (blocks.old ++ receipt_numbers receipt.now) blocks.new) }
    ensures part { OnErr result (AppendsPrefix (W.contents out.old) (W.contents out.new)
        (blocks.old ++ receipt_numbers receipt.now)) }
{
    let Receipt {
        terminal,
        number,
        place,
        ..
    } = receipt;
    match format!(in alloc; "{terminal},{number},{place},") {
        Ok(text) => Ok(blocks.put(out, text.as_bytes())?),
        Err(_) => Err(OutputFault::NoMemory),
    }
}
