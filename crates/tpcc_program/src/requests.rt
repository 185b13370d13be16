//! The requests that a terminal asks, as a script.
ghost use Rattle.std.specs.Prelude.{◌≤◌, ◌++◌, OnErr, OnOk};
ghost use Rattle.std.specs.Io.KnownBytes.{Appends};
ghost use Rattle.tpcc_text.specs.Prefix.{AppendsPrefix, PassesBytes};
ghost use Rattle.tpcc_program.specs.Requests.{asked_by, request_lines};
ghost use Rattle.tpcc_program.specs.Internal.Requests.{IsTold, asked_next, next_line};

use std::alloc::Global;
use std::io::Write;
use tpcc_money::Moment;
use tpcc_population::Scale;
use tpcc_show::{OutputFault, put_screen};
use tpcc_terminal::Terminal;
use tpcc_text::{Blocks, request_line};

/// Writes the requests of a terminal's first cards, all at one moment, as lines of a script: those that the terminal
/// of this number asks of a population of this scale and seed, in its order.
///
/// Write where the writer fails or takes nothing, NoMemory where a growth was refused. An interrupted write is made
/// again, at most 1,000 times in a row.
#[tactic(auto, using(tpcc_text::proofs::BlockSteps::none_part))]
pub fn put_requests<W: Write>(
    alloc: Global,
    number: u32,
    scale: Scale,
    seed: u64,
    moment: Moment,
    cards: u32,
    out: &mut W,
) -> Result<(), OutputFault>
    requires number { 1 ≤ number }
    ensures written { OnOk result (Appends (W.contents out.old) (W.contents out.new)
        (request_lines (asked_by number scale seed moment cards))) }
    ensures part { OnErr result (AppendsPrefix (W.contents out.old) (W.contents out.new)
        (request_lines (asked_by number scale seed moment cards))) }
{
    let mut terminal = Terminal::new(alloc, number, scale, seed)?;
    let mut blocks = Blocks::new(alloc);
    put_cards(alloc, &mut terminal, moment, cards, &mut blocks, out)?;
    blocks.end(out)?;
    Ok(())
}

// The lines of the next cards.
#[tactic(auto, using(crate::proofs::NextRequests::starts, crate::proofs::NextRequests::goes_on, crate::proofs::NextRequests::ends))]
fn put_cards<W: Write>(
    alloc: Global,
    terminal: &mut Terminal,
    moment: Moment,
    cards: u32,
    blocks: &mut Blocks,
    out: &mut W,
) -> Result<(), OutputFault>
    ensures written { OnOk result (PassesBytes (W.contents out.old) (W.contents out.new)
        (blocks.old ++ request_lines (asked_next terminal.old moment cards)) blocks.new) }
    ensures part { OnErr result (AppendsPrefix (W.contents out.old) (W.contents out.new)
        (blocks.old ++ request_lines (asked_next terminal.old moment cards))) }
{
    for _ in 0..cards {
        put_next(alloc, terminal, moment, blocks, out)?;
    }
    Ok(())
}

// The line of the next card.
fn put_next<W: Write>(
    alloc: Global,
    terminal: &mut Terminal,
    moment: Moment,
    blocks: &mut Blocks,
    out: &mut W,
) -> Result<(), OutputFault>
    ensures told { OnOk result (IsTold terminal.old terminal.new) }
    ensures written { OnOk result (PassesBytes (W.contents out.old) (W.contents out.new)
        (blocks.old ++ next_line terminal.old moment) blocks.new) }
    ensures part { OnErr result (AppendsPrefix (W.contents out.old) (W.contents out.new)
        (blocks.old ++ next_line terminal.old moment)) }
{
    let request = terminal.next(moment)?;
    put_screen(blocks, out, request_line(alloc, &request))
}
