//! The lines of one order, and of orders in a row, which lie side by side in rows that ascend.
ghost use Rattle.std.specs.Prelude.{[], ◌∷◌, ◌≡◌, ◌≤◌, filter, length, map, not, true, Some};
ghost use Rattle.std.specs.List.{prefix_len};
ghost use Rattle.tpcc_rows.specs.Lists.{is_ascending, key_before, updated};
ghost use Rattle.tpcc_rows.specs.declared.tables.rows.OrderLineRow.{OrderLineRow};
ghost use Rattle.tpcc_rows.specs.Tables.{is_line_of, order_line_key};
ghost use Rattle.tpcc_storage.specs.Runs.{is_line_between};

use tpcc_money::Moment;
use tpcc_rows::OrderLineRow;

fn is_after(row: &OrderLineRow, warehouse: u32, district: u32, order: u32) -> bool
    ensures { result ≡ key_before (warehouse ∷ district ∷ order ∷ []) (order_line_key row.now) }
{
    (warehouse, district, order) < (row.warehouse, row.district, row.order)
}

/// How many rows stand before an order's lines, searched by halves.
fn start_of(rows: &[OrderLineRow], warehouse: u32, district: u32, order: u32) -> usize
    requires keyed { is_ascending order_line_key rows.now ≡ true }
    ensures within { result ≤ length rows.now }
    ensures start { result ≡ prefix_len
        (λ row. key_before (order_line_key row) (warehouse ∷ district ∷ order ∷ [])) rows.now }
{
    rows.partition_point(
        |row: &OrderLineRow| -> bool
            ensures { result
                ≡ key_before (order_line_key row.now) (warehouse ∷ district ∷ order ∷ []) }
        { (row.warehouse, row.district, row.order) < (warehouse, district, order) },
    )
}

/// How many rows stand before the first one after an order's lines, looked for from their first row on: an order has few.
fn end_of(rows: &[OrderLineRow], warehouse: u32, district: u32, order: u32, start: usize) -> usize
    requires start { start ≤ prefix_len (λ row.
        not (key_before (warehouse ∷ district ∷ order ∷ []) (order_line_key row))) rows.now }
    ensures within { result ≤ length rows.now }
    ensures end { result ≡ prefix_len (λ row.
        not (key_before (warehouse ∷ district ∷ order ∷ []) (order_line_key row))) rows.now }
{
    for end in start..rows.len() {
        if is_after(&rows[end], warehouse, district, order) {
            return end;
        }
    }
    rows.len()
}

/// Where an order's lines begin and end.
fn place_of(rows: &[OrderLineRow], warehouse: u32, district: u32, order: u32) -> (usize, usize)
    requires keyed { is_ascending order_line_key rows.now ≡ true }
    ensures order { result.0 ≤ result.1 }
    ensures within { result.1 ≤ length rows.now }
    ensures start { result.0 ≡ prefix_len
        (λ row. key_before (order_line_key row) (warehouse ∷ district ∷ order ∷ [])) rows.now }
    ensures end { result.1 ≡ prefix_len (λ row.
        not (key_before (warehouse ∷ district ∷ order ∷ []) (order_line_key row))) rows.now }
{
    let start = start_of(rows, warehouse, district, order);
    let end = end_of(rows, warehouse, district, order, start);
    (start, end)
}

/// The lines of an order.
pub fn lines_of(rows: &[OrderLineRow], warehouse: u32, district: u32, order: u32) -> &[OrderLineRow]
    requires keyed { is_ascending order_line_key rows.now ≡ true }
    ensures { result.now ≡ filter (is_line_of warehouse district order) rows.now }
{
    let (start, end) = place_of(rows, warehouse, district, order);
    &rows[start..end]
}

/// Where the lines of a district's orders from number `first` on, and below `next`, begin and end.
fn span_of(
    rows: &[OrderLineRow],
    warehouse: u32,
    district: u32,
    first: u32,
    next: u32,
) -> (usize, usize)
    requires keyed { is_ascending order_line_key rows.now ≡ true }
    requires order { first ≤ next }
    ensures order { result.0 ≤ result.1 }
    ensures within { result.1 ≤ length rows.now }
    ensures start { result.0 ≡ prefix_len
        (λ row. key_before (order_line_key row) (warehouse ∷ district ∷ first ∷ [])) rows.now }
    ensures end { result.1 ≡ prefix_len
        (λ row. key_before (order_line_key row) (warehouse ∷ district ∷ next ∷ [])) rows.now }
{
    let start = start_of(rows, warehouse, district, first);
    let end = start_of(rows, warehouse, district, next);
    (start, end)
}

/// The lines of a district's orders from number `first` on, and below `next`.
pub fn lines_between(
    rows: &[OrderLineRow],
    warehouse: u32,
    district: u32,
    first: u32,
    next: u32,
) -> &[OrderLineRow]
    requires keyed { is_ascending order_line_key rows.now ≡ true }
    requires order { first ≤ next }
    ensures { result.now ≡ filter (is_line_between warehouse district first next) rows.now }
{
    let (from, to) = span_of(rows, warehouse, district, first, next);
    &rows[from..to]
}

fn stamp_all(lines: &mut [OrderLineRow], moment: Moment)
    ensures { lines.new
        ≡ map (λ (l : OrderLineRow). record l { delivered = Some moment }) lines.old }
{
    for line in lines {
        line.delivered = Some(moment);
    }
}

/// The moment of delivery of an order's lines, set.
pub fn stamp(rows: &mut [OrderLineRow], warehouse: u32, district: u32, order: u32, moment: Moment)
    requires keyed { is_ascending order_line_key rows.old ≡ true }
    ensures { rows.new ≡ updated (is_line_of warehouse district order)
        (λ l. record l { delivered = Some moment }) rows.old }
{
    let (start, end) = place_of(rows, warehouse, district, order);
    stamp_all(&mut rows[start..end], moment);
}
