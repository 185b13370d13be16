//! The amount of an order's line (2.4.2.2).
ghost use Rattle.std.specs.Prelude.{◌≡◌, ◌≤ℤ◌, true, pos};
ghost use Rattle.tpcc_money.specs.Amounts.{line_amount};
ghost use Rattle.tpcc_rows.specs.Ranges.{is_within, is_item_row};
ghost use Rattle.tpcc_rows.specs.declared.limits.TheConstants.{GREATEST_LINE_AMOUNT};

use tpcc_money::Cents;
use tpcc_rows::{ItemRow, Line};

/// OL_AMOUNT of a line of an item: 0.01 to 9,999.90.
pub fn amount(item: &ItemRow, line: &Line) -> Cents
    requires item { is_item_row item.now ≡ true }
    requires quantity { is_within 1 10 line.now.quantity ≡ true }
    ensures amount { result ≡ line_amount item.now.price line.now.quantity }
    ensures low { pos 0 ≤ℤ result }
    ensures high { result ≤ℤ GREATEST_LINE_AMOUNT }
{
    tpcc_money::line_amount(item.price, line.quantity)
}
