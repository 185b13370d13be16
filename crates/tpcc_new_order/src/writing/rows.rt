//! The rows that an order writes (2.4.2.2).
ghost use Rattle.std.specs.Prelude.{◌≡◌, ◌==◌, ◌<◌, ◌≤◌, None, false, length};
ghost use Rattle.std.specs.List.{list_all};
ghost use Rattle.tpcc_rows.specs.WellKeyed.{IsStocked};
ghost use Rattle.tpcc_rows.specs.NewOrder.{accepted_order, after_order, is_rolled_back, order_refusal, order_row_from};

use crate::reply::replies::show_order;
use tpcc_rows::{AcceptedOrder, Few, Line, Order, OrderRow, recall};
use tpcc_tables::Tables;

/// Whether the warehouse supplies every line (O_ALL_LOCAL).
fn are_local(warehouse: u32, lines: &[Line]) -> bool
    ensures { result ≡ list_all (λ l. l.supply == warehouse) lines.now }
{
    lines.iter().all(|line| line.supply == warehouse)
}

/// The ORDER row (2.4.2.2) of the order with that number.
fn order_row(order: &Order, number: u32) -> OrderRow
    requires few { length order.now.lines ≤ 15 }
    ensures { result ≡ order_row_from number order.now }
{
    let lines = order.lines.as_slice();
    OrderRow {
        id: number,
        district: order.district,
        warehouse: order.warehouse,
        customer: order.customer,
        entry_date: order.moment,
        carrier: None,
        line_count: lines.len() as u32,
        all_local: are_local(order.warehouse, lines),
    }
}

/// Writes the rows of an order that is entered, and gives what is shown of it.
pub fn write_order(tables: &mut Tables, order: &Order) -> AcceptedOrder
    requires stocked { IsStocked tables.old.rows }
    requires accepted { order_refusal tables.old.rows order.now ≡ None }
    requires entered { is_rolled_back tables.old.rows order.now ≡ false }
    requires room { length order.now.lines < tables.old.order_room }
    ensures rows { tables.new.rows ≡ after_order tables.old.rows order.now }
    ensures reply { result ≡ accepted_order tables.old.rows order.now }
{
    // For the proof: the moment is in its range.
    recall!(order.moment.seconds());
    let mut lines = Few::empty();
    let shown = show_order(tables, order, &mut lines);
    tables.append_order(order_row(order, shown.order), lines.as_slice());
    shown
}
