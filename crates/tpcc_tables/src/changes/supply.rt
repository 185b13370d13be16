//! What the lines of an order take from their STOCK rows (2.4.2.2).
ghost use Rattle.std.specs.Prelude.{◌≡◌, ◌+◌, ◌<◌, ◌≤◌, ◌^◌, find, map, length, true, Some, refl};
ghost use Rattle.std.specs.List.{list_all};
ghost use Rattle.tpcc_rows.specs.declared.tables.rows.StockRow.{StockRow};
ghost use Rattle.tpcc_rows.specs.Lists.{updated, is_ascending};
ghost use Rattle.tpcc_rows.specs.Ranges.{is_within};
ghost use Rattle.tpcc_rows.specs.Tables.{stock_key};
ghost use Rattle.tpcc_rows.specs.NewOrder.{quantity_after, stock_after_line, stock_after};
ghost use Rattle.tpcc_tables.specs.Writes.{line_of};
ghost use Rattle.tpcc_tables.specs.Internal.Supplies.{is_supplied_by, IsSuppliable, HasRoomFor, is_near};

use tpcc_rows::{OrderLineRow, StockKey, StockRow};
use tpcc_storage::{KeyedRows, RowChange};

/// S_QUANTITY after a line: 91 more where fewer than 10 would be left.
fn quantity_after(stock: u32, quantity: u32) -> u32
    requires stock { stock ≤ 100 }
    requires quantity { quantity ≤ 10 }
    ensures { result ≡ quantity_after stock quantity }
{
    if quantity + 10 <= stock {
        stock - quantity
    } else {
        stock + 91 - quantity
    }
}

/// What a line of an order of the home warehouse takes from its STOCK row.
#[derive(Drop)]
struct Demand<'a> {
    home: u32,
    line: &'a OrderLineRow,
}

impl<'a> RowChange<StockRow> for Demand<'a> {
    ghost changed = { λ demand s. stock_after_line demand.home s (line_of demand.line.now) };

    ghost fits = { λ demand. IsSuppliable demand.line.now.quantity };

    ghost keeps_key = { λ demand s. refl };

    fn apply(&self, row: &mut StockRow) {
        let quantity = quantity_after(row.quantity, self.line.quantity);
        row.quantity = quantity;
        row.ytd += self.line.quantity;
        row.order_count += 1;
        if row.warehouse != self.home {
            row.remote_count += 1;
        }
    }
}

/// One line, taken from its STOCK row.
fn supply_line(rows: &mut KeyedRows<StockRow>, home: u32, line: &OrderLineRow)
    requires keyed { is_ascending stock_key rows.old.items ≡ true }
    requires quantity { line.now.quantity ≤ 10 }
    requires room { (s : StockRow) → find (is_supplied_by (line_of line.now)) rows.old.items
        ≡ Some s → HasRoomFor line.now.quantity s }
    ensures { rows.new.items ≡ updated (is_supplied_by (line_of line.now))
        (λ s. stock_after_line home s (line_of line.now)) rows.old.items }
{
    let key = StockKey {
        warehouse: line.supply,
        item: line.item,
    };
    rows.change(&key, &Demand { home, line });
}

/// All lines of an order, one after another.
pub fn supply(rows: &mut KeyedRows<StockRow>, home: u32, lines: &[OrderLineRow])
    requires keyed { is_ascending stock_key rows.old.items ≡ true }
    requires near { list_all (is_near 0) rows.old.items ≡ true }
    requires few { length lines.now ≤ 15 }
    requires quantities { list_all (λ l. is_within 1 10 l.quantity) lines.now ≡ true }
    ensures { rows.new.items ≡ map (stock_after home (map line_of lines.now)) rows.old.items }
{
    for line in lines {
        supply_line(rows, home, line);
    }
}
