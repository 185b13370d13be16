//! What is shown of the ORDER-LINE rows of an order.
ghost use Rattle.std.specs.Prelude.{◌≡◌, ◌≤◌, length, map};
ghost use Rattle.tpcc_rows.specs.Lookups.{status_line};

use tpcc_rows::{OrderLineRow, StatusLine, StatusLines};

/// What is shown of an ORDER-LINE row.
fn shown_line(row: &OrderLineRow) -> StatusLine
    ensures { result ≡ status_line row.now }
{
    StatusLine {
        supply: row.supply,
        item: row.item,
        quantity: row.quantity,
        amount: row.amount,
        delivered: row.delivered,
    }
}

/// What is shown of an order's lines, of which there are at most 15 (1.3.1).
pub fn shown_lines(rows: &[OrderLineRow]) -> StatusLines
    requires few { length rows.now ≤ 15 }
    ensures { result ≡ map status_line rows.now }
{
    let mut lines = StatusLines::empty();
    for row in rows {
        lines.push(shown_line(row));
    }
    lines
}
