//! What the lines of an order leave of a STOCK row (2.4.2.2).
ghost use Rattle.std.specs.Prelude.{◌≡◌, ◌≤◌, length, true};
ghost use Rattle.std.specs.List.{list_all};
ghost use Rattle.tpcc_rows.specs.Ranges.{is_within, is_stock_row};
ghost use Rattle.tpcc_rows.specs.NewOrder.{quantity_after, stock_after};
ghost use Rattle.tpcc_new_order.specs.Internal.Supplied.{numbers_of, numbers_after_line, IsNear};

use tpcc_rows::{Line, StockRow};

/// The columns of a STOCK row that an order changes.
#[derive(Clone, Copy)]
pub struct StockNumbers {
    /// S_QUANTITY.
    pub quantity: u32,
    /// S_YTD.
    pub ytd: u32,
    /// S_ORDER_CNT.
    pub order_count: u32,
    /// S_REMOTE_CNT.
    pub remote_count: u32,
}

fn numbers_of(row: &StockRow) -> StockNumbers
    ensures { result ≡ numbers_of row.now }
{
    StockNumbers {
        quantity: row.quantity,
        ytd: row.ytd,
        order_count: row.order_count,
        remote_count: row.remote_count,
    }
}

/// S_QUANTITY after a line: 91 more where fewer than 10 would be left.
fn quantity_after(stock: u32, quantity: u32) -> u32
    requires stock { stock ≤ 100 }
    requires quantity { quantity ≤ 10 }
    ensures { result ≡ quantity_after stock quantity }
{
    if quantity + 10 <= stock {
        stock - quantity
    } else {
        stock + 91 - quantity
    }
}

/// The numbers after one more line.
fn after_line(numbers: StockNumbers, row: &StockRow, home: u32, line: &Line) -> StockNumbers
    requires near { IsNear 15 numbers }
    requires quantity { line.now.quantity ≤ 10 }
    ensures { result ≡ numbers_after_line home row.now numbers line.now }
{
    if line.supply != row.warehouse || line.item != row.item {
        return numbers;
    }
    let remote = u32::from(row.warehouse != home);
    StockNumbers {
        quantity: quantity_after(numbers.quantity, line.quantity),
        ytd: numbers.ytd + line.quantity,
        order_count: numbers.order_count + 1,
        remote_count: numbers.remote_count + remote,
    }
}

/// The numbers after those of the lines that the row supplies.
pub fn numbers_after(row: &StockRow, home: u32, lines: &[Line]) -> StockNumbers
    requires row { is_stock_row row.now ≡ true }
    requires few { length lines.now ≤ 15 }
    requires quantities { list_all (λ l. is_within 1 10 l.quantity) lines.now ≡ true }
    ensures { result ≡ numbers_of (stock_after home lines.now row.now) }
{
    let mut numbers = numbers_of(row);
    for line in lines {
        numbers = after_line(numbers, row, home, line);
    }
    numbers
}
