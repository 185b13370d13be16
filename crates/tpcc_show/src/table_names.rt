//! The names of tables (1.3).
ghost use Rattle.std.specs.Prelude.{◌≡◌, ◌≢◌, IfNone, IfSome, IsTrue, find};
ghost use Rattle.std.specs.Option.{option_copied};
ghost use Rattle.std.specs.Str.{bytes_eq};
ghost use Rattle.tpcc_show.specs.Names as names;
ghost use Rattle.tpcc_rows.specs.declared.tables.row.Table.{Table};

use tpcc_rows::Table;

/// The name of a table (1.3), as `ORDER-LINE`.
pub fn table_name(table: Table) -> &'static [u8]
    ensures { result.now ≡ names.table_name table }
{
    match table {
        Table::Warehouse => b"WAREHOUSE",
        Table::District => b"DISTRICT",
        Table::Customer => b"CUSTOMER",
        Table::History => b"HISTORY",
        Table::Order => b"ORDER",
        Table::OrderLine => b"ORDER-LINE",
        Table::NewOrder => b"NEW-ORDER",
        Table::Item => b"ITEM",
        Table::Stock => b"STOCK",
    }
}

fn is_named(table: Table, name: &[u8]) -> bool
    ensures equal { result ≡ bytes_eq (names.table_name table) name.now }
    ensures named { IsTrue result → names.table_name table ≡ name.now }
{
    table_name(table) == name
}

fn find_named<'a>(tables: &'a [Table], name: &[u8]) -> Option<&'a Table>
    ensures first { option_copied result
        ≡ find (λ t. bytes_eq (names.table_name t) name.now) tables.now }
    ensures named { IfSome result (λ t. names.table_name t.now ≡ name.now) }
{
    tables.iter().find(|table| is_named(**table, name))
}

/// The table of this name (1.3), as `ORDER-LINE`; none where no table has it.
pub fn table_named(name: &[u8]) -> Option<Table>
    ensures named { IfSome result (λ t. names.table_name t ≡ name.now) }
    ensures unknown { IfNone result ((t : Table) → names.table_name t ≢ name.now) }
{
    find_named(&Table::ALL, name).copied()
}
