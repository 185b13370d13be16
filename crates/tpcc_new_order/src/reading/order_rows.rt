//! The rows that an order names, and why its input may be refused.
ghost use Rattle.std.specs.Prelude.{◌≡◌, IfOk, IfErr, Some, None, is_none, not};
ghost use Rattle.std.specs.List.{list_any};
ghost use Rattle.tpcc_rows.specs.Lists.{first_finding};
ghost use Rattle.tpcc_rows.specs.Ranges.{is_within};
ghost use Rattle.tpcc_rows.specs.Tables.{find_warehouse};
ghost use Rattle.tpcc_rows.specs.NewOrder.{order_refusal, order_refusal_by_input};
ghost use Rattle.tpcc_new_order.specs.Internal.Tests.{IsNamed, line_tests};

use tpcc_rows::{CustomerRow, DistrictRow, Line, Order, Refusal, WarehouseRow};
use tpcc_tables::Tables;

/// The rows that an order names.
#[derive(Drop)]
pub struct OrderRows<'a> {
    /// The WAREHOUSE row.
    pub warehouse: &'a WarehouseRow,
    /// The DISTRICT row.
    pub district: &'a DistrictRow,
    /// The row of the customer who orders.
    pub customer: &'a CustomerRow,
}

fn has_wrong_quantity(line: &Line) -> bool
    ensures { result ≡ not (is_within 1 10 line.now.quantity) }
{
    line.quantity < 1 || 10 < line.quantity
}

fn has_no_supply(tables: &Tables, line: &Line) -> bool
    ensures { result ≡ is_none (find_warehouse tables.now.rows line.now.supply) }
{
    tables.warehouse(line.supply).is_none()
}

fn has_wrong_quantities(lines: &[Line]) -> bool
    ensures { result ≡ list_any (λ l. not (is_within 1 10 l.quantity)) lines.now }
{
    lines.iter().any(|line| has_wrong_quantity(line))
}

fn has_no_supplies(tables: &Tables, lines: &[Line]) -> bool
    ensures { result ≡ list_any (λ l. is_none (find_warehouse tables.now.rows l.supply)) lines.now }
{
    lines.iter().any(|line| has_no_supply(tables, line))
}

/// The first refusal of an order's lines, if there is one.
#[tactic(auto, unfolding(crate::specs::Internal::Tests::line_tests))]
fn line_refusal(tables: &Tables, lines: &[Line]) -> Option<Refusal>
    ensures { result ≡ first_finding (line_tests tables.now.rows lines.now) }
{
    if lines.len() < 5 || 15 < lines.len() {
        return Some(Refusal::LineCount);
    }
    if has_wrong_quantities(lines) {
        return Some(Refusal::Quantity);
    }
    if has_no_supplies(tables, lines) {
        return Some(Refusal::NoSupply);
    }
    None
}

/// The rows of an order whose input nothing refuses.
pub fn rows_of_order<'a>(tables: &'a Tables, order: &Order) -> Result<OrderRows<'a>, Refusal>
    ensures ok { IfOk result (IsNamed tables.now.rows order.now) }
    ensures err { IfErr result (λ refusal.
        order_refusal_by_input tables.now.rows order.now ≡ Some refusal) }
{
    let Some(warehouse) = tables.warehouse(order.warehouse) else {
        return Err(Refusal::NoWarehouse);
    };
    let Some(district) = tables.district(order.warehouse, order.district) else {
        return Err(Refusal::NoDistrict);
    };
    let Some(customer) = tables.customer(order.warehouse, order.district, order.customer) else {
        return Err(Refusal::NoCustomer);
    };
    match line_refusal(tables, order.lines.as_slice()) {
        Some(refusal) => Err(refusal),
        None => Ok(OrderRows {
            warehouse,
            district,
            customer,
        }),
    }
}

/// The rows of an order that nothing refuses.
pub fn named_rows<'a>(tables: &'a Tables, order: &Order) -> OrderRows<'a>
    requires accepted { order_refusal tables.now.rows order.now ≡ None }
    ensures { IsNamed tables.now.rows order.now result }
{
    OrderRows {
        warehouse: tables.warehouse(order.warehouse).unwrap(),
        district: tables.district(order.warehouse, order.district).unwrap(),
        customer: tables
            .customer(order.warehouse, order.district, order.customer)
            .unwrap(),
    }
}
