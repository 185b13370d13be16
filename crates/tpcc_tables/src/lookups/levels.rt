//! How many items of a district's last orders are low in stock (2.8.2.2).
ghost use Rattle.std.specs.Prelude.{◌≡◌, ◌≤◌, ◌+◌, ◌<◌, ◌==◌, ◌&&◌, not, nat_lt, true, length, drop, map, filter};
ghost use Rattle.std.specs.List.{list_any};
ghost use Rattle.tpcc_rows.specs.Lists.{distinct, is_ascending};
ghost use Rattle.tpcc_rows.specs.Tables.{is_stock, stock_key};

use crate::lookups::find;
use tpcc_rows::{OrderLineRow, StockRow};
use tpcc_storage::KeyedRows;

/// Whether an item's stock in a warehouse is below a threshold.
fn is_short(stocks: &KeyedRows<StockRow>, warehouse: u32, threshold: u32, item: u32) -> bool
    requires keyed { is_ascending stock_key stocks.now.items ≡ true }
    ensures { result ≡ list_any (λ s. is_stock warehouse item s
        && nat_lt s.quantity threshold) stocks.now.items }
{
    match find::stock(stocks, warehouse, item) {
        Some(row) => row.quantity < threshold,
        None => false,
    }
}

/// Whether one of the lines orders the item.
fn has_item(lines: &[OrderLineRow], item: u32) -> bool
    ensures { result ≡ list_any (λ l. l.item == item) lines.now }
{
    lines.iter().any(|line| line.item == item)
}

/// The lines behind a place.
fn behind(lines: &[OrderLineRow], position: usize) -> &[OrderLineRow]
    requires { position < length lines.now }
    ensures { result.now ≡ drop (position + 1) lines.now }
{
    &lines[position + 1..]
}

/// Whether an item is below the threshold, and none of the later lines orders it too.
// Few items are low, so that the later lines are looked at for these alone.
fn is_counted(
    stocks: &KeyedRows<StockRow>,
    warehouse: u32,
    threshold: u32,
    item: u32,
    later: &[OrderLineRow],
) -> bool
    requires keyed { is_ascending stock_key stocks.now.items ≡ true }
    ensures { result ≡ list_any (λ s. is_stock warehouse item s && nat_lt s.quantity threshold)
        stocks.now.items && not (list_any (λ l. l.item == item) later.now) }
{
    is_short(stocks, warehouse, threshold, item) && !has_item(later, item)
}

/// How many distinct items of the lines are below the threshold in the warehouse.
pub fn count_short(
    stocks: &KeyedRows<StockRow>,
    warehouse: u32,
    threshold: u32,
    lines: &[OrderLineRow],
) -> u32
    requires keyed { is_ascending stock_key stocks.now.items ≡ true }
    requires few { length lines.now ≤ 300 }
    ensures { result ≡ length (filter (λ item. list_any (λ s. is_stock warehouse item s
        && nat_lt s.quantity threshold) stocks.now.items) (distinct (map (λ l. l.item) lines.now))) }
{
    let mut count = 0;
    for position in 0..lines.len() {
        let item = lines[position].item;
        if is_counted(stocks, warehouse, threshold, item, behind(lines, position)) {
            count += 1;
        }
    }
    count
}
