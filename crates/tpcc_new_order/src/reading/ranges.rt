//! The order's number and the columns of its STOCK rows, tested against their ranges.
ghost use Rattle.std.specs.Prelude.{◌≡◌, nat_lt, not, true, map};
ghost use Rattle.tpcc_rows.specs.Lists.{first_finding};
ghost use Rattle.tpcc_rows.specs.Ranges.{is_count, greatest_stock_ytd};
ghost use Rattle.tpcc_rows.specs.Tables.{stock_at};
ghost use Rattle.tpcc_rows.specs.NewOrder.{order_number, order_refusal_by_range, stock_after, stocks_after};
ghost use Rattle.tpcc_new_order.specs.Internal.Supplied.{numbers_of, is_far, is_servable_line, IsServable};
ghost use Rattle.tpcc_new_order.specs.Internal.Tests.{overruns_of, overruns_with, range_tests};

use crate::reading::lookups::stock_of;
use crate::writing::supply::{StockNumbers, numbers_after};
use tpcc_rows::limits::{GREATEST_COUNT, GREATEST_ORDER, GREATEST_STOCK_YTD};
use tpcc_rows::{Field, Line, Order, Refusal, StockRow};
use tpcc_tables::Tables;

/// Which columns would leave their ranges in some STOCK row of an order.
#[derive(Clone, Copy)]
pub struct Overruns {
    /// S_ORDER_CNT.
    orders: bool,
    /// S_REMOTE_CNT.
    remotes: bool,
    /// S_YTD.
    ytd: bool,
}

/// The same, with one STOCK row more.
fn with_row(over: Overruns, numbers: StockNumbers) -> Overruns
    ensures { result ≡ overruns_with over numbers }
{
    Overruns {
        orders: over.orders || GREATEST_COUNT < numbers.order_count,
        remotes: over.remotes || GREATEST_COUNT < numbers.remote_count,
        ytd: over.ytd || GREATEST_STOCK_YTD < numbers.ytd,
    }
}

/// Whether no order can take a column of the row out of its range: its at most fifteen lines add 150 to S_YTD at most.
fn is_far(stock: &StockRow) -> bool
    ensures { result ≡ is_far stock.now }
{
    stock.ytd <= GREATEST_STOCK_YTD - 150
        && stock.order_count <= GREATEST_COUNT - 15
        && stock.remote_count <= GREATEST_COUNT - 15
}

/// The same, with the STOCK row of one line more. The lines of a row are looked at only where it is near a limit.
fn with_line(over: Overruns, tables: &Tables, home: u32, lines: &[Line], line: &Line) -> Overruns
    requires servable { IsServable tables.now.rows lines.now }
    requires line { is_servable_line tables.now.rows line.now ≡ true }
    ensures { result
        ≡ overruns_with over (numbers_of (stock_after home lines.now
        (stock_at tables.now.rows line.now.supply line.now.item))) }
{
    let stock = stock_of(tables, line);
    if is_far(stock) {
        return over;
    }
    with_row(over, numbers_after(stock, home, lines))
}

/// Which columns of the lines' STOCK rows would leave their ranges.
fn overruns_after(tables: &Tables, home: u32, lines: &[Line]) -> Overruns
    requires servable { IsServable tables.now.rows lines.now }
    ensures { result
        ≡ overruns_of
        (map (λ l. stock_after home lines.now (stock_at tables.now.rows l.supply l.item))
        lines.now) }
{
    let mut over = Overruns {
        orders: false,
        remotes: false,
        ytd: false,
    };
    for line in lines {
        over = with_line(over, tables, home, lines, line);
    }
    over
}

/// The first refusal of the number and of the columns, if there is one.
#[tactic(auto, unfolding(crate::specs::Internal::Tests::range_tests))]
fn first_overrun(number: u32, over: Overruns) -> Option<Refusal>
    ensures { result ≡ first_finding (range_tests number over) }
{
    if number == GREATEST_ORDER {
        return Some(Refusal::OrderNumbers);
    }
    if over.orders {
        return Some(Refusal::Count(Field::StockOrders));
    }
    if over.remotes {
        return Some(Refusal::Count(Field::RemoteOrders));
    }
    if over.ytd {
        return Some(Refusal::Total(Field::StockYtd));
    }
    None
}

/// The first refusal of an order that would take the number, if there is one.
#[tactic(auto, unfolding(tpcc_rows::specs::NewOrder::order_range_tests, crate::specs::Internal::Tests::range_tests))]
pub fn range_refusal(tables: &Tables, order: &Order, number: u32) -> Option<Refusal>
    requires servable { IsServable tables.now.rows order.now.lines }
    requires number { number ≡ order_number tables.now.rows order.now }
    ensures { result ≡ order_refusal_by_range tables.now.rows order.now }
{
    let over = overruns_after(tables, order.warehouse, order.lines.as_slice());
    first_overrun(number, over)
}
