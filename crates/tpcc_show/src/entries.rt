//! The journal's entries, one after another.
ghost use Rattle.std.specs.Prelude.{◌≡◌, ◌++◌, IfOk, OnErr, OnOk, flat_map};
ghost use Rattle.tpcc_text.specs.Prefix.{AppendsPrefix, PassesBytes};
ghost use Rattle.tpcc_journal.specs.EntryRefs.{entry_of};
ghost use Rattle.tpcc_text.specs.RequestLines as lines;
ghost use Rattle.tpcc_text.specs.Screens as screens;

use crate::table_dump::output_fault::OutputFault;
use crate::texts::put_screen;
use std::alloc::Global;
use std::io::Write;
use tpcc_journal::{EntryRef, Journal};
use tpcc_rows::NoMemory;
use tpcc_text::{Blocks, Screen, reply_screen, request_line};

/// What is written of each entry.
pub trait EntryText {
    ghost use Rattle.std.specs.Prelude.{ℕ, List};
    ghost use Rattle.tpcc_rows.specs.declared.transactions.entry.Entry.{Entry};

    /// An entry's text.
    ghost text: { Entry → List ℕ };

    /// Makes it. Refused only for want of memory.
    fn make(alloc: Global, entry: &EntryRef) -> Result<Screen, NoMemory>
        ensures text { IfOk result (λ made. made ≡ text (entry_of entry.now)) };
}

/// The line of its request.
pub struct RequestLines;

impl EntryText for RequestLines {
    ghost text = { λ entry. lines.request_line entry.request };

    fn make(alloc: Global, entry: &EntryRef) -> Result<Screen, NoMemory> {
        request_line(alloc, entry.request)
    }
}

/// The screen of its stored reply.
pub struct ReplyScreens;

impl EntryText for ReplyScreens {
    ghost text = { λ entry. screens.reply_screen entry.reply };

    fn make(alloc: Global, entry: &EntryRef) -> Result<Screen, NoMemory> {
        reply_screen(alloc, &entry.reply)
    }
}

/// Puts the text of each entry, in their order.
pub fn put_each<T: EntryText, W: Write>(
    alloc: Global,
    blocks: &mut Blocks,
    out: &mut W,
    journal: &Journal,
) -> Result<(), OutputFault>
    ensures written { OnOk result (PassesBytes (W.contents out.old) (W.contents out.new)
        (blocks.old ++ flat_map T.text journal.now.entries) blocks.new) }
    ensures part { OnErr result (AppendsPrefix (W.contents out.old) (W.contents out.new)
        (blocks.old ++ flat_map T.text journal.now.entries)) }
{
    for place in 0..journal.len() {
        let Some(entry) = journal.entry(place) else {
            unreachable!()
        };
        put_screen(blocks, out, T::make(alloc, &entry))?;
    }
    Ok(())
}
