//! The ITEM and STOCK rows of lines.
ghost use Rattle.std.specs.Prelude.{◌≡◌, true, is_none};
ghost use Rattle.std.specs.List.{list_any};
ghost use Rattle.tpcc_rows.specs.Ranges.{is_item_row, is_stock_row};
ghost use Rattle.tpcc_rows.specs.Tables.{find_item, item_at, stock_at};
ghost use Rattle.tpcc_new_order.specs.Internal.Supplied.{is_servable_line};

use tpcc_rows::{ItemRow, Line, StockRow, recall};
use tpcc_tables::Tables;

/// The ITEM row of a line.
pub fn item_of<'a>(tables: &'a Tables, line: &Line) -> &'a ItemRow
    requires line { is_servable_line tables.now.rows line.now ≡ true }
    ensures row { result.now ≡ item_at tables.now.rows line.now.item }
    ensures range { is_item_row result.now ≡ true }
{
    // For the proof: the tables are well-keyed.
    recall!(tables.well_keyed());
    tables.item(line.item).unwrap()
}

/// The STOCK row of a line.
pub fn stock_of<'a>(tables: &'a Tables, line: &Line) -> &'a StockRow
    requires line { is_servable_line tables.now.rows line.now ≡ true }
    ensures row { result.now ≡ stock_at tables.now.rows line.now.supply line.now.item }
    ensures range { is_stock_row result.now ≡ true }
{
    // For the proof: the tables are well-keyed.
    recall!(tables.well_keyed());
    tables.stock(line.supply, line.item).unwrap()
}

fn is_unused(tables: &Tables, line: &Line) -> bool
    ensures { result ≡ is_none (find_item tables.now.rows line.now.item) }
{
    tables.item(line.item).is_none()
}

/// Whether some line's item is in no ITEM row (2.4.2.3).
pub fn has_unused_item(tables: &Tables, lines: &[Line]) -> bool
    ensures { result ≡ list_any (λ l. is_none (find_item tables.now.rows l.item)) lines.now }
{
    lines.iter().any(|line| is_unused(tables, line))
}
