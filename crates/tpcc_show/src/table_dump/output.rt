//! Records as text, by a CSV writer over memory.
ghost use Rattle.std.specs.Prelude.{◌≡◌, [], ◌++◌, List, ℕ, IfOk, OnOk};
ghost use Rattle.csv.specs.Writing.{default_writer, row_text};
ghost use Rattle.tpcc_show.specs.Internal.Output.{HasTakenText};

use crate::table_dump::fields::Fields;
use csv::{Writer, WriterBuilder};
use std::alloc::Global;
use tpcc_rows::NoMemory;

/// A CSV writer that has taken nothing.
pub fn start(alloc: Global) -> Writer<Vec<u8>>
    ensures { HasTakenText [] result }
{
    WriterBuilder::new().from_writer(Vec::new(alloc))
}

/// One more record, with as many fields as those before it.
pub fn put(writer: &mut Writer<Vec<u8>>, fields: &Fields) -> Result<(), NoMemory>
    ensures { OnOk result ((text : List ℕ) → HasTakenText text writer.old
        → HasTakenText (text ++ row_text default_writer fields.now) writer.new) }
{
    match writer.write_byte_record(fields.whole()) {
        Ok(()) => Ok(()),
        Err(_) => Err(NoMemory),
    }
}

/// The text of all records.
pub fn finish(writer: Writer<Vec<u8>>) -> Result<Vec<u8>, NoMemory>
    ensures { (text : List ℕ) → HasTakenText text writer
        → IfOk result (λ bytes. bytes.items ≡ text) }
{
    match writer.into_inner() {
        Ok(bytes) => Ok(bytes),
        Err(_) => Err(NoMemory),
    }
}
