//! The values of an order's lines (2.4.2.2, 2.4.3.3).
ghost use Rattle.std.specs.Prelude.{◌≡◌, ◌≤◌, ◌≤ℤ◌, [], true, map, length, pos};
ghost use Rattle.std.specs.List.{enumerate_from, list_all};
ghost use Rattle.tpcc_money.specs.Amounts.{total};
ghost use Rattle.tpcc_rows.specs.Ranges.{is_within, is_item_row, is_stock_row};
ghost use Rattle.tpcc_rows.specs.NewOrder.{amount_of, district_information_of, entered_line, order_line_rows, order_number, entered_line_from};
ghost use Rattle.tpcc_new_order.specs.Internal.Supplied.{IsServable};
ghost use Rattle.tpcc_new_order.specs.Internal.Prepares.{order_line_from};
ghost use Rattle.tpcc_rows.specs.declared.limits.TheConstants.{GREATEST_LINE_AMOUNT};
ghost use Rattle.tpcc_money.specs.declared.amounts.TheConstants.{GREATEST_SUM};

use crate::reading::lookups::{item_of, stock_of};
use crate::reply::amounts::amount;
use crate::reply::brand::brand;
use crate::writing::supply::numbers_after;
use tpcc_money::Cents;
use tpcc_rows::{
    EnteredLine, EnteredLines, Few, ItemRow, Line, Order, OrderLineRow, StockRow, Text,
};
use tpcc_tables::Tables;

/// S_DIST_xx of a district.
fn district_information(stock: &StockRow, district: u32) -> Text<24>
    requires district { is_within 1 10 district ≡ true }
    requires row { is_stock_row stock.now ≡ true }
    ensures { result ≡ district_information_of stock.now district }
{
    stock.district_information[(district - 1) as usize]
}

/// The ORDER-LINE row of a line as it is shown, in the order of that id.
fn order_line(order: &Order, id: u32, shown: &EnteredLine, stock: &StockRow) -> OrderLineRow
    requires district { is_within 1 10 order.now.district ≡ true }
    requires row { is_stock_row stock.now ≡ true }
    ensures { result ≡ order_line_from order.now id shown.now stock.now }
{
    OrderLineRow {
        order: id,
        district: order.district,
        warehouse: order.warehouse,
        number: shown.number,
        item: shown.item,
        supply: shown.supply,
        delivered: None,
        quantity: shown.quantity,
        amount: shown.amount,
        district_information: district_information(stock, order.district),
    }
}

/// The line with that number, as the terminal shows it.
fn entered_line(
    order: &Order,
    number: u32,
    line: &Line,
    item: &ItemRow,
    stock: &StockRow,
) -> EnteredLine
    requires number { number ≤ length order.now.lines }
    requires few { length order.now.lines ≤ 15 }
    requires quantities { list_all (λ l. is_within 1 10 l.quantity) order.now.lines ≡ true }
    requires quantity { is_within 1 10 line.now.quantity ≡ true }
    requires item { is_item_row item.now ≡ true }
    requires stock { is_stock_row stock.now ≡ true }
    ensures shown { result ≡ entered_line_from order.now number line.now item.now stock.now }
    ensures low { pos 0 ≤ℤ result.amount }
    ensures high { result.amount ≤ℤ GREATEST_LINE_AMOUNT }
{
    let taken = &order.lines.as_slice()[..number as usize];
    EnteredLine {
        number,
        supply: line.supply,
        item: line.item,
        name: item.name,
        quantity: line.quantity,
        stock: numbers_after(stock, order.warehouse, taken).quantity,
        brand: brand(item, stock),
        price: item.price,
        amount: amount(item, line),
    }
}

/// Adds the ORDER-LINE rows of an order's lines, in the order of that id, and the lines as the terminal shows them;
/// gives the sum of their amounts.
pub fn add_lines(
    tables: &Tables,
    order: &Order,
    lines: &[Line],
    id: u32,
    rows: &mut Few<OrderLineRow, 15>,
    shown: &mut EnteredLines,
) -> Cents
    requires district { is_within 1 10 order.now.district ≡ true }
    requires id { id ≡ order_number tables.now.rows order.now }
    requires lines { lines.now ≡ order.now.lines }
    requires servable { IsServable tables.now.rows lines.now }
    requires no_row { rows.old ≡ [] }
    requires none_shown { shown.old ≡ [] }
    ensures rows { rows.new ≡ order_line_rows tables.now.rows order.now }
    ensures shown { shown.new
        ≡ map (λ line. entered_line tables.now.rows order.now line.0 line.1)
        (enumerate_from 1 order.now.lines) }
    ensures sum { result ≡ total (amount_of tables.now.rows) order.now.lines }
    ensures low { pos 0 ≤ℤ result }
    ensures high { result ≤ℤ GREATEST_SUM }
{
    let mut sum = Cents::new(0);
    for (index, line) in lines.iter().enumerate() {
        let stock = stock_of(tables, line);
        let entered = entered_line(order, index as u32 + 1, line, item_of(tables, line), stock);
        rows.push(order_line(order, id, &entered, stock));
        shown.push(entered);
        sum = sum.plus(entered.amount);
    }
    sum
}
