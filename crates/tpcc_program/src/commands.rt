//! The commands that make no thread: a script, a table, a terminal's requests.
ghost use Rattle.std.specs.Prelude.{◌≡◌, ◌≤◌, ℕ, List, Some, OnErr, OnOk};
ghost use Rattle.std.specs.Io.KnownBytes.{Appends};
ghost use Rattle.tpcc_population.specs.Opening.{opening_rows};
ghost use Rattle.tpcc_show.specs.Dump.{dump_text};
ghost use Rattle.tpcc_text.specs.Prefix.{AppendsPrefix};
ghost use Rattle.tpcc_program.specs.Commands.{HasPut, HasServed, HasServedBytes, HasShownParts};
ghost use Rattle.tpcc_program.specs.Commands.{are_screens};
ghost use Rattle.tpcc_program.specs.Requests.{asked_by, request_lines};

use crate::command::{Command, RequestsCommand};
use crate::fault::ProgramFault;
use crate::requests::put_requests;
use crate::timing::Timing;
use std::alloc::Global;
use std::io::{Eprint, Read, Write};
use std::time::Clock;
use tpcc_population::{Opening, Scale, fill};
use tpcc_rows::Table;
use tpcc_script::{run_script, show_script};
use tpcc_show::{OutputFault, Part, dump_to};
use tpcc_text::ScriptFault;

/// Serves a script's requests; writes their screens, or the parts that are asked for. Gives the
/// writer back.
pub(crate) fn script<R: Eprint + Clock, I: Read, W: Write>(
    rt: &R,
    alloc: Global,
    opening: &Opening,
    parts: &[Part],
    timed: bool,
    input: &mut I,
    out: W,
) -> (W, Result<(), ProgramFault>)
    ensures served { HasServed opening.now parts.now (I.remaining input.old)
        (W.contents out) (W.contents result.0) result.1 }
{
    let timing = Timing::begin(rt);
    let (out, served) = serve(rt, alloc, opening, parts, &timing, input, out);
    match served {
        Ok(entries) => {
            if timed {
                let _ = rt.eprint(timing.times(rt, entries as u64));
            }
            (out, Ok(()))
        }
        Err(fault) => (out, Err(ProgramFault::Script(fault))),
    }
}

// The same, with no word of how long it took; how many entries the book then has.
fn serve<R: Clock, I: Read, W: Write>(
    rt: &R,
    alloc: Global,
    opening: &Opening,
    parts: &[Part],
    timing: &Timing,
    input: &mut I,
    out: W,
) -> (W, Result<usize, ScriptFault>)
    ensures served { (bytes : List ℕ) → I.remaining input.old ≡ Some bytes
        → HasServedBytes (are_screens parts.now) opening.now bytes parts.now
        (W.contents out) (W.contents result.0) result.1 }
{
    let mut script = timing.time_reader(rt, input);
    let mut out = out;
    if are_screens(parts) {
        let ended = run_script(alloc, &mut script, &mut out, opening);
        return (out, ended);
    }
    let mut parts_out = timing.time_writer(rt, out);
    let ended = show(alloc, &mut script, opening, parts, &mut parts_out);
    (parts_out.into_inner(), ended)
}

// How a script ended whose book is shown: a fault of what is shown comes before its own.
fn show<I: Read, W: Write>(
    alloc: Global,
    input: &mut I,
    opening: &Opening,
    parts: &[Part],
    out: &mut W,
) -> Result<usize, ScriptFault>
    ensures shown { (bytes : List ℕ) → I.remaining input.old ≡ Some bytes
        → HasShownParts opening.now bytes parts.now
        (W.contents out.old) (W.contents out.new) result }
{
    match show_script(alloc, input, opening, parts, out) {
        Ok(ended) => ended,
        Err(fault) => Err(fault),
    }
}

// Whether nothing but the screens of a script is asked for.
fn are_screens(parts: &[Part]) -> bool
    ensures screens { result ≡ are_screens parts.now }
{
    matches!(parts, [] | [Part::Screens])
}

/// Writes a table of the opening. Gives the writer back.
pub(crate) fn dump_table<W: Write>(
    alloc: Global,
    opening: &Opening,
    table: Table,
    out: W,
) -> (W, Result<(), ProgramFault>)
    ensures written { HasPut (dump_text (opening_rows opening.now) table)
        (W.contents out) (W.contents result.0) result.1 }
{
    let mut out = out;
    match put_table(alloc, opening, table, &mut out) {
        Ok(()) => (out, Ok(())),
        Err(fault) => (out, Err(ProgramFault::Output(fault))),
    }
}

fn put_table<W: Write>(
    alloc: Global,
    opening: &Opening,
    table: Table,
    out: &mut W,
) -> Result<(), OutputFault>
    ensures written { OnOk result (Appends (W.contents out.old) (W.contents out.new)
        (dump_text (opening_rows opening.now) table)) }
    ensures part { OnErr result (AppendsPrefix (W.contents out.old) (W.contents out.new)
        (dump_text (opening_rows opening.now) table)) }
{
    let Ok(tables) = fill(alloc, opening) else {
        return Err(OutputFault::NoMemory);
    };
    let written = dump_to(alloc, &tables, table, out);
    // Let go by a call, once, which keeps the tables' parts out of this function's proof.
    drop(tables);
    written
}

/// Writes the requests of a terminal. Gives the writer back.
pub(crate) fn put_asked<W: Write>(
    alloc: Global,
    command: &Command,
    asking: RequestsCommand,
    scale: Scale,
    out: W,
) -> (W, Result<(), ProgramFault>)
    requires terminal { 1 ≤ asking.terminal }
    ensures written { HasPut (request_lines (asked_by asking.terminal scale
        command.now.seed command.now.moment asking.cards))
        (W.contents out) (W.contents result.0) result.1 }
{
    let mut out = out;
    let written = put_requests(
        alloc,
        asking.terminal,
        scale,
        command.seed,
        command.moment,
        asking.cards,
        &mut out,
    );
    match written {
        Ok(()) => (out, Ok(())),
        Err(fault) => (out, Err(ProgramFault::Output(fault))),
    }
}
