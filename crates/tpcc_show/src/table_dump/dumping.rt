//! A table as comma-separated values.
ghost use Rattle.std.specs.Prelude.{◌≡◌, ◌+◌, ◌-◌, ◌≤◌, ◌^◌, ◌++◌, [], List, ℕ, IfOk, OnErr, OnOk, map};
ghost use Rattle.std.specs.Io.KnownBytes.{Appends};
ghost use Rattle.csv.specs.Writing.{default_writer, row_text};
ghost use Rattle.tpcc_show.specs.Columns as columns;
ghost use Rattle.tpcc_show.specs.Dump.{dump_text, records_text, rows_of};
ghost use Rattle.tpcc_show.specs.Internal.Dump.{records_from};
ghost use Rattle.tpcc_show.specs.Internal.Output.{HasTakenText};
ghost use Rattle.tpcc_text.specs.Prefix.{AppendsPrefix, PassesBytes};
ghost use Rattle.tpcc_show.specs.Records.{record_of};

use crate::table_dump::columns::columns;
use crate::table_dump::fields::Fields;
use crate::table_dump::output::{finish, put, start};
use crate::table_dump::output_fault::OutputFault;
use crate::table_dump::records::put_row;
use csv::Writer;
use std::alloc::Global;
use std::io::Write;
use tpcc_rows::{NoMemory, Table};
use tpcc_tables::Tables;
use tpcc_text::Blocks;

/// How many records are in memory at once, as text.
const MOST_RECORDS: usize = 256;

/// Writes the names of a table's columns and then its rows in order (1.3), as comma-separated
/// values, as [`dump_to`] does. Answers the writer, which is let go at a fault.
pub fn dump<W: Write + Drop>(
    alloc: Global,
    tables: &Tables,
    table: Table,
    out: W,
) -> Result<W, OutputFault>
    ensures written { IfOk result
        (λ w. Appends (W.contents out) (W.contents w) (dump_text tables.now.rows table)) }
{
    let mut out = out;
    dump_to(alloc, tables, table, &mut out)?;
    Ok(out)
}

/// Writes the names of a table's columns and then its rows in order (1.3), as comma-separated
/// values: each record ends with a line feed, a field is quoted only where it needs it, and a null
/// is an empty field.
///
/// Write where the writer fails or takes nothing, NoMemory where a growth was refused. An interrupted
/// write is made again, at most 1,000 times in a row.
#[tactic(auto, using(tpcc_text::proofs::BlockSteps::ends_whole, tpcc_text::proofs::BlockSteps::ends_part))]
pub fn dump_to<W: Write>(
    alloc: Global,
    tables: &Tables,
    table: Table,
    out: &mut W,
) -> Result<(), OutputFault>
    ensures written { OnOk result (Appends (W.contents out.old) (W.contents out.new)
        (dump_text tables.now.rows table)) }
    ensures part { OnErr result (AppendsPrefix (W.contents out.old) (W.contents out.new)
        (dump_text tables.now.rows table)) }
{
    let mut blocks = Blocks::new(alloc);
    put_dump(alloc, tables, table, &mut blocks, out)?;
    blocks.end(out)?;
    Ok(())
}

/// Puts into blocks what [`dump_to`] writes.
pub fn put_dump<W: Write>(
    alloc: Global,
    tables: &Tables,
    table: Table,
    blocks: &mut Blocks,
    out: &mut W,
) -> Result<(), OutputFault>
    ensures written { OnOk result (PassesBytes (W.contents out.old) (W.contents out.new)
        (blocks.old ++ dump_text tables.now.rows table) blocks.new) }
    ensures part { OnErr result (AppendsPrefix (W.contents out.old) (W.contents out.new)
        (blocks.old ++ dump_text tables.now.rows table)) }
{
    let mut fields = Fields::new(alloc);
    put_columns(alloc, &mut fields, table, blocks, out)?;
    put_rows(alloc, &mut fields, tables, table, blocks, out)
}

#[tactic(auto, using(tpcc_text::proofs::BlockSteps::none_part))]
fn put_columns<W: Write>(
    alloc: Global,
    fields: &mut Fields,
    table: Table,
    blocks: &mut Blocks,
    out: &mut W,
) -> Result<(), OutputFault>
    requires { fields.old ≡ [] }
    ensures written { OnOk result (PassesBytes (W.contents out.old) (W.contents out.new)
        (blocks.old ++ row_text default_writer (columns.columns table)) blocks.new) }
    ensures part { OnErr result (AppendsPrefix (W.contents out.old) (W.contents out.new)
        (blocks.old ++ row_text default_writer (columns.columns table))) }
{
    let bytes = columns_text(alloc, fields, table)?;
    blocks.put(out, bytes.as_slice())?;
    Ok(())
}

fn columns_text(alloc: Global, fields: &mut Fields, table: Table) -> Result<Vec<u8>, NoMemory>
    requires { fields.old ≡ [] }
    ensures { IfOk result
        (λ bytes. bytes.items ≡ row_text default_writer (columns.columns table)) }
{
    fields.put_names(columns(table))?;
    let mut writer = start(alloc);
    put(&mut writer, fields)?;
    finish(writer)
}

// The records of all rows, so many at a time.
fn put_rows<W: Write>(
    alloc: Global,
    fields: &mut Fields,
    tables: &Tables,
    table: Table,
    blocks: &mut Blocks,
    out: &mut W,
) -> Result<(), OutputFault>
    ensures written { OnOk result (PassesBytes (W.contents out.old) (W.contents out.new)
        (blocks.old ++ records_text (map record_of (rows_of tables.now.rows table))) blocks.new) }
    ensures part { OnErr result (AppendsPrefix (W.contents out.old) (W.contents out.new)
        (blocks.old ++ records_text (map record_of (rows_of tables.now.rows table)))) }
{
    let end = tables.count(table);
    let mut done = 0;
    'writes: while done < end {
        let count = MOST_RECORDS.min(end - done);
        let bytes = rows_text(alloc, fields, tables, table, done, count)?;
        blocks.put(out, bytes.as_slice())?;
        done += count;
    }
    Ok(())
}

// The records of so many rows from a place on.
fn rows_text(
    alloc: Global,
    fields: &mut Fields,
    tables: &Tables,
    table: Table,
    from: usize,
    count: usize,
) -> Result<Vec<u8>, NoMemory>
    requires fits { from + count ≤ 2 ^ 64 - 1 }
    ensures { IfOk result
        (λ bytes. bytes.items ≡ records_text (records_from tables.now.rows table from count)) }
{
    let mut writer = start(alloc);
    take_rows(&mut writer, fields, tables, table, from, count)?;
    finish(writer)
}

fn take_rows(
    writer: &mut Writer<Vec<u8>>,
    fields: &mut Fields,
    tables: &Tables,
    table: Table,
    from: usize,
    count: usize,
) -> Result<(), NoMemory>
    requires fits { from + count ≤ 2 ^ 64 - 1 }
    ensures { OnOk result ((text : List ℕ) → HasTakenText text writer.old
        → HasTakenText (text ++ records_text (records_from tables.now.rows table from count))
        writer.new) }
{
    for place in 0..count {
        if let Some(row) = tables.row(table, from + place) {
            put_row(fields, row)?;
            put(writer, fields)?;
        }
    }
    Ok(())
}
