//! A script from its first line to its end.
ghost use Rattle.std.specs.Prelude.{◌≡◌, ◌≢◌, ◌≤◌, ◌++◌, ℕ, true, List, Some, IfErr, IfOk, IfSome, OnErr, OnOk};
ghost use Rattle.std.specs.Io.Buffered.{reader_remaining};
ghost use Rattle.tpcc_text.specs.declared.script.limits.TheConstants.{MOST_LINES};
ghost use Rattle.tpcc_script.specs.Internal.Attempts.{HasGivenUp};
ghost use Rattle.tpcc_text.specs.Script.{script_of};
ghost use Rattle.tpcc_script.specs.Run.{HasRun, IsCounted};
ghost use Rattle.tpcc_script.specs.Internal.Steps.{IsAnswered, IsStep};
ghost use Rattle.tpcc_text.specs.Prefix.{AppendsPrefix, PassesBytes};
ghost use Rattle.tpcc_script.specs.Session.{opened_book, book_of};

use crate::reader::read_line;
use crate::screen_buffer::ScreenBuffer;
use crate::session::Session;
use crate::watch::Watch;
use std::alloc::Global;
use std::io::{BufReader, Read, Write};
use std::marker::Brand;
use tpcc_book::{Blanks, Naming};
use tpcc_population::Opening;
use tpcc_text::{Screen, ScriptFault, parse_line};

/// Runs a script on a fresh book: each request by a purse of terminal 1, through the book. It is read ahead in blocks,
/// and its screens are written in blocks: those of all whole lines that were read are written, and the writer is
/// flushed, before the reader's next call and before a fault is told. Answers how many entries the book then has: a
/// refused request makes none.
///
/// Faults: Bad (a line that says no request or call), Cut (the last line has no line feed), LongLine
/// (over 4,096 bytes), TooManyLines (a byte after 1,000,000 lines), Read, Write, NoMemory. An
/// interrupted read or write is tried again, at most 1,000 times in a row.
pub fn run_script<R: Read, W: Write>(
    alloc: Global,
    input: &mut R,
    out: &mut W,
    opening: &Opening,
) -> Result<usize, ScriptFault>
    ensures { (bytes : List ℕ) → R.remaining input.old ≡ Some bytes
        → HasRun (opened_book opening.now) (script_of bytes) (W.contents out.old)
        (W.contents out.new) result }
{
    run_named::<Brand, R, W>(alloc, input, out, opening, Blanks::new())
}

// Names the book, by its type.
fn run_named<N: Naming, R: Read, W: Write>(
    alloc: Global,
    input: &mut R,
    out: &mut W,
    opening: &Opening,
    blanks: Blanks,
) -> Result<usize, ScriptFault>
    requires entries { blanks.entries.name ≡ N.entries }
    requires cents { blanks.cents.name ≡ N.cents }
    ensures run { (bytes : List ℕ) → R.remaining input.old ≡ Some bytes
        → HasRun (opened_book opening.now) (script_of bytes) (W.contents out.old)
        (W.contents out.new) result }
{
    match Session::<N>::start(alloc, opening, blanks) {
        Ok(mut session) => session.run(alloc, input, out),
        Err(_) => Err(ScriptFault::NoMemory),
    }
}

impl<N: Naming> Session<N> {
    /// Runs a script as [`run_script`] does, on the session's book, and answers how many entries that then has. Where the writer is a `Vec`,
    /// Write says that memory for its screens was refused.
    pub fn run<R: Read, W: Write>(
        &mut self,
        alloc: Global,
        input: &mut R,
        out: &mut W,
    ) -> Result<usize, ScriptFault>
        ensures counted { (bytes : List ℕ) → R.remaining input.old ≡ Some bytes
            → IsCounted (book_of self.old) (script_of bytes)
            (W.contents out.old) (W.contents out.new) (book_of self.new) result }
    {
        let Ok(mut ahead) = BufReader::new(alloc, input) else {
            return Err(ScriptFault::NoMemory);
        };
        serve_lines(alloc, self, &mut ahead, out)
    }
}

// Serves all lines of a script, and answers how many entries the book then has.
fn serve_lines<N: Naming, R: Read, W: Write>(
    alloc: Global,
    session: &mut Session<N>,
    ahead: &mut BufReader<R>,
    out: &mut W,
) -> Result<usize, ScriptFault>
    ensures counted { (bytes : List ℕ) → reader_remaining R.remaining ahead.old ≡ Some bytes
        → IsCounted (book_of session.old) (script_of bytes)
        (W.contents out.old) (W.contents out.new) (book_of session.new) result }
{
    let mut waiting = ScreenBuffer::new(alloc);
    let mut watch = Watch::new();
    let mut number = 1u32;
    'lines: loop {
        match show_line(alloc, session, ahead, &mut waiting, out, &mut watch, number) {
            Ok(true) => number += 1,
            Ok(false) => return Ok(session.entries()),
            Err(fault) => return Err(fault),
        }
    }
}

// Serves one line and shows its screen; false at the end. At the end and at a fault all that waited is written.
fn show_line<N: Naming, R: Read, W: Write>(
    alloc: Global,
    session: &mut Session<N>,
    ahead: &mut BufReader<R>,
    waiting: &mut ScreenBuffer,
    out: &mut W,
    watch: &mut Watch,
    number: u32,
) -> Result<bool, ScriptFault>
    ensures within { IfOk result (λ more. more ≡ true → number ≤ MOST_LINES) }
    ensures gave_up { IfErr result (HasGivenUp watch.new) }
    ensures step { (bytes : List ℕ) → reader_remaining R.remaining ahead.old ≡ Some bytes
        → IsStep number bytes (book_of session.old) (book_of session.new)
        (reader_remaining R.remaining ahead.new)
        (W.contents out.old) (W.contents out.new) waiting.old waiting.new result }
{
    match serve_line(alloc, session, ahead, watch, number) {
        Ok(Some(screen)) => {
            show_screen(ahead, waiting, out, watch, screen.bytes())?;
            Ok(true)
        }
        Ok(None) => {
            waiting.flush(out, watch)?;
            Ok(false)
        }
        Err(fault) => {
            waiting.flush(out, watch)?;
            Err(fault)
        }
    }
}

// Lets a screen wait where the next line was read already, so that it is served before more is read; else writes
// all that waits.
fn show_screen<R: Read, W: Write>(
    ahead: &BufReader<R>,
    waiting: &mut ScreenBuffer,
    out: &mut W,
    watch: &mut Watch,
    screen: &[u8],
) -> Result<(), ScriptFault>
    ensures ok { OnOk result (PassesBytes (W.contents out.old) (W.contents out.new)
        (waiting.old ++ screen.now) waiting.new) }
    ensures err { OnErr result (AppendsPrefix (W.contents out.old) (W.contents out.new)
        (waiting.old ++ screen.now)) }
    ensures gave_up { IfErr result
        (λ f. (f ≡ ScriptFault.Write) × (watch.new.writer_failed ≡ true)) }
{
    waiting.put(out, watch, screen)?;
    if ahead.buffer().contains(&b'\n') {
        return Ok(());
    }
    waiting.flush(out, watch)
}

// Serves one line and gives its screen; none at the end.
fn serve_line<N: Naming, R: Read>(
    alloc: Global,
    session: &mut Session<N>,
    input: &mut R,
    watch: &mut Watch,
    number: u32,
) -> Result<Option<Screen>, ScriptFault>
    ensures within { IfOk result (λ screen. IfSome screen (λ _. number ≤ MOST_LINES)) }
    ensures gave_up { IfErr result (HasGivenUp watch.new) }
    ensures answered { (bytes : List ℕ) → R.remaining input.old ≡ Some bytes
        → IsAnswered number bytes (book_of session.old) (book_of session.new)
        (R.remaining input.new) result }
{
    let line = match read_line(alloc, input, watch, number) {
        Ok(Some(line)) => line,
        Ok(None) => return Ok(None),
        Err(fault) => return Err(fault),
    };
    let call = match parse_line(alloc, line.as_slice()) {
        Ok(Some(call)) => call,
        Ok(None) => return Err(ScriptFault::Bad(number)),
        Err(_) => return Err(ScriptFault::NoMemory),
    };
    match session.answer(alloc, call) {
        Ok(screen) => Ok(Some(screen)),
        Err(_) => Err(ScriptFault::NoMemory),
    }
}
