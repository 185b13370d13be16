//! What a dump says to its readers.
ghost use Rattle.tpcc_show.specs.Dump.{IsReadBack};
ghost use Rattle.tpcc_rows.specs.Tables.{Rows};
ghost use Rattle.tpcc_rows.specs.declared.tables.row.Table.{Table};

/// By the rules of comma-separated values (RFC 4180) a dump's text is read as the names of the
/// columns and then the record of each row: no text of a column is taken for another, whatever
/// commas and quotes it holds.
#[tactic(auto, using(crate::proofs::ReadBack::is_read_back))]
pub fn dump_is_read_back()
    ensures read_back { (rows : Rows) (table : Table) → IsReadBack rows table }
{}
