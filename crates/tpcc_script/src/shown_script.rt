//! A script whose book is shown.
ghost use Rattle.std.specs.Prelude.{◌≡◌, ◌≢◌, ℕ, List, Some, IfErr, IfOk, OnErr, OnOk};
ghost use Rattle.std.specs.Io.KnownBytes.{Appends};
ghost use Rattle.tpcc_text.specs.Prefix.{AppendsPrefix};
ghost use Rattle.tpcc_show.specs.Shown.{served_text};
ghost use Rattle.tpcc_text.specs.Script.{script_of};
ghost use Rattle.tpcc_script.specs.Session.{opened_book, book_of};
ghost use Rattle.tpcc_script.specs.ShownScript.{HasShownScript, HasShownScriptPrefix};

use crate::session::Session;
use std::alloc::Global;
use std::io::{Read, Write};
use std::marker::Brand;
use tpcc_book::{Blanks, Book, Naming};
use tpcc_population::Opening;
use tpcc_show::{OutputFault, Part, ServedBook, show};
use tpcc_text::ScriptFault;

/// Runs a script as [`run_script`](tpcc_script::run_script) does, keeps its screens, and then writes parts of the book
/// that it leaves: one part alone as it is, several each under a line `== PART`. Answers how the script ended, with
/// how many entries: after a fault the parts are those of the requests before it.
///
/// Write where the writer fails or takes nothing, NoMemory where a growth was refused for the opening, a screen
/// that is kept or a part.
pub fn show_script<R: Read, W: Write>(
    alloc: Global,
    input: &mut R,
    opening: &Opening,
    parts: &[Part],
    out: &mut W,
) -> Result<Result<usize, ScriptFault>, ScriptFault>
    ensures shown { (bytes : List ℕ) → R.remaining input.old ≡ Some bytes
        → IfOk result (HasShownScript (opened_book opening.now) (script_of bytes) parts.now
        (W.contents out.old) (W.contents out.new)) }
    ensures part { (bytes : List ℕ) → R.remaining input.old ≡ Some bytes
        → OnErr result (HasShownScriptPrefix (opened_book opening.now) (script_of bytes) parts.now
        (W.contents out.old) (W.contents out.new)) }
    // How the script ended is never a fault of the writer that keeps its screens.
    ensures kept { IfOk result (λ ended. IfErr ended (λ fault. fault ≢ ScriptFault.Write)) }
{
    show_named::<Brand, R, W>(alloc, input, opening, parts, out, Blanks::new())
}

// The same with a name for the book.
fn show_named<N: Naming, R: Read, W: Write>(
    alloc: Global,
    input: &mut R,
    opening: &Opening,
    parts: &[Part],
    out: &mut W,
    blanks: Blanks,
) -> Result<Result<usize, ScriptFault>, ScriptFault>
    requires entries { blanks.entries.name ≡ N.entries }
    requires cents { blanks.cents.name ≡ N.cents }
    ensures shown { (bytes : List ℕ) → R.remaining input.old ≡ Some bytes
        → IfOk result (HasShownScript (opened_book opening.now) (script_of bytes) parts.now
        (W.contents out.old) (W.contents out.new)) }
    ensures part { (bytes : List ℕ) → R.remaining input.old ≡ Some bytes
        → OnErr result (HasShownScriptPrefix (opened_book opening.now) (script_of bytes) parts.now
        (W.contents out.old) (W.contents out.new)) }
    ensures kept { IfOk result (λ ended. IfErr ended (λ fault. fault ≢ ScriptFault.Write)) }
{
    match Session::<N>::start(alloc, opening, blanks) {
        Ok(mut session) => show_session(alloc, &mut session, input, parts, out),
        Err(_) => Err(ScriptFault::NoMemory),
    }
}

// Serves a script on a session, and shows its book.
fn show_session<N: Naming, R: Read, W: Write>(
    alloc: Global,
    session: &mut Session<N>,
    input: &mut R,
    parts: &[Part],
    out: &mut W,
) -> Result<Result<usize, ScriptFault>, ScriptFault>
    ensures shown { (bytes : List ℕ) → R.remaining input.old ≡ Some bytes
        → IfOk result (HasShownScript (book_of session.old) (script_of bytes) parts.now
        (W.contents out.old) (W.contents out.new)) }
    ensures part { (bytes : List ℕ) → R.remaining input.old ≡ Some bytes
        → OnErr result (HasShownScriptPrefix (book_of session.old) (script_of bytes) parts.now
        (W.contents out.old) (W.contents out.new)) }
    ensures kept { IfOk result (λ ended. IfErr ended (λ fault. fault ≢ ScriptFault.Write)) }
{
    let mut screens = Vec::new(alloc);
    let ended = session.run(alloc, input, &mut screens);
    let shown = show_left(alloc, session.book(), screens.as_slice(), ended, parts, out);
    shown.and(Ok(ended))
}

// Writes parts of the book that a script left which ended so; Write is want of memory for a screen that is kept.
fn show_left<N: Naming, W: Write>(
    alloc: Global,
    book: &Book<N>,
    screens: &[u8],
    ended: Result<usize, ScriptFault>,
    parts: &[Part],
    out: &mut W,
) -> Result<(), ScriptFault>
    ensures written { OnOk result (Appends (W.contents out.old) (W.contents out.new)
        (served_text screens.now book.now parts.now)) }
    ensures part { OnErr result (AppendsPrefix (W.contents out.old) (W.contents out.new)
        (served_text screens.now book.now parts.now)) }
    ensures kept { OnOk result (IfErr ended (λ fault. fault ≢ ScriptFault.Write)) }
{
    if let Err(ScriptFault::Write) = ended {
        return Err(ScriptFault::NoMemory);
    }
    match show(alloc, &ServedBook { book, screens }, parts, out) {
        Ok(()) => Ok(()),
        Err(fault) => Err(script_fault(fault)),
    }
}

fn script_fault(fault: OutputFault) -> ScriptFault {
    match fault {
        OutputFault::Write => ScriptFault::Write,
        OutputFault::NoMemory => ScriptFault::NoMemory,
    }
}
