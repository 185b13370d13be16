//! What the terminal shows of an order (2.4.3.3, 2.4.3.4).
ghost use Rattle.std.specs.Prelude.{◌≡◌, ◌≤◌, [], None, false, length, pos};
ghost use Rattle.tpcc_rows.specs.WellKeyed.{IsStocked};
ghost use Rattle.tpcc_rows.specs.NewOrder.{accepted_order, is_rolled_back, order_line_rows, order_refusal, rolled_back_order, accepted_from};

use crate::reading::order_rows::{OrderRows, named_rows};
use crate::reply::lines::add_lines;
use tpcc_money::{Cents, order_total};
use tpcc_rows::{AcceptedOrder, Few, Order, OrderLineRow, RolledBackOrder, recall};
use tpcc_tables::Tables;

/// What is shown of an order's three rows, with no line yet and no total.
fn show_head(order: &Order, named: &OrderRows) -> AcceptedOrder
    requires few { length order.now.lines ≤ 15 }
    ensures { result
        ≡ accepted_from order.now named.now.warehouse.now named.now.district.now
        named.now.customer.now (pos 0) [] }
{
    let OrderRows {
        warehouse,
        district,
        customer,
    } = named;
    AcceptedOrder {
        warehouse: order.warehouse,
        district: order.district,
        customer: order.customer,
        last: customer.last,
        credit: customer.credit,
        discount: customer.discount,
        order: district.next_order,
        line_count: order.lines.as_slice().len() as u32,
        warehouse_tax: warehouse.tax,
        district_tax: district.tax,
        entry_date: order.moment,
        total: Cents::new(0),
        lines: Few::empty(),
    }
}

/// What is shown of an order that is entered; its ORDER-LINE rows are put into an empty list.
pub fn show_order(tables: &Tables, order: &Order, rows: &mut Few<OrderLineRow, 15>) -> AcceptedOrder
    requires stocked { IsStocked tables.now.rows }
    requires accepted { order_refusal tables.now.rows order.now ≡ None }
    requires entered { is_rolled_back tables.now.rows order.now ≡ false }
    requires empty { rows.old ≡ [] }
    ensures rows { rows.new ≡ order_line_rows tables.now.rows order.now }
    ensures reply { result ≡ accepted_order tables.now.rows order.now }
{
    // For the proof: the tables are well-keyed.
    recall!(tables.well_keyed());
    let named = named_rows(tables, order);
    let mut shown = show_head(order, &named);
    let lines = order.lines.as_slice();
    let sum = add_lines(tables, order, lines, shown.order, rows, &mut shown.lines);
    shown.total = order_total(sum, shown.discount, shown.warehouse_tax, shown.district_tax);
    shown
}

/// What is shown of an order that is rolled back.
pub fn show_rollback(tables: &Tables, order: &Order) -> RolledBackOrder
    requires accepted { order_refusal tables.now.rows order.now ≡ None }
    ensures { result ≡ rolled_back_order tables.now.rows order.now }
{
    let named = named_rows(tables, order);
    RolledBackOrder {
        warehouse: order.warehouse,
        district: order.district,
        customer: order.customer,
        last: named.customer.last,
        credit: named.customer.credit,
        order: named.district.next_order,
    }
}
