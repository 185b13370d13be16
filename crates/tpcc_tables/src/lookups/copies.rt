//! The lines of an order, copied out of the tables.
ghost use Rattle.std.specs.Prelude.{◌≡◌, ◌≤◌, length};

use tpcc_rows::{Few, OrderLineRow};

/// At most 15 lines as a value.
pub fn copy_lines(lines: &[OrderLineRow]) -> Few<OrderLineRow, 15>
    requires few { length lines.now ≤ 15 }
    ensures { result ≡ lines.now }
{
    let mut rows = Few::empty();
    for line in lines {
        rows.push(*line);
    }
    rows
}
