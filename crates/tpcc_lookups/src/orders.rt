//! Order-Status (2.6): a customer and the customer's last order.
ghost use Rattle.std.specs.Prelude.{◌≡◌, IfOk, IfErr, OnOk, Some, None, option_map, is_some, true};
ghost use Rattle.tpcc_rows.specs.ChosenCustomer.{chosen_customer};
ghost use Rattle.tpcc_rows.specs.Lookups.{last_order_number, shown_order, status_refusal, status_reply};
ghost use Rattle.tpcc_rows.specs.Tables.{find_order};

use crate::lines::shown_lines;
use crate::queries::asking_customer;
use tpcc_rows::{CustomerRow, LastOrder, Refusal, Status, StatusQuery};
use tpcc_tables::Tables;

/// An order with its lines.
fn show_order(tables: &Tables, warehouse: u32, district: u32, order: u32) -> LastOrder
    requires { is_some (find_order tables.now.rows warehouse district order) ≡ true }
    ensures { result ≡ shown_order tables.now.rows warehouse district order }
{
    let row = tables.order(warehouse, district, order).unwrap();
    let lines = tables.order_lines(warehouse, district, order);
    LastOrder {
        order,
        entry_date: row.entry_date,
        carrier: row.carrier,
        lines: shown_lines(lines.as_slice()),
    }
}

/// A customer's last order, if there is one.
#[tactic(auto, using(crate::proofs::Low::last_is_there))]
fn last_order(tables: &Tables, warehouse: u32, district: u32, customer: u32) -> Option<LastOrder>
    ensures { result ≡ option_map (shown_order tables.now.rows warehouse district)
        (last_order_number tables.now.rows warehouse district customer) }
{
    match tables.last_order(warehouse, district, customer) {
        Some(order) => Some(show_order(tables, warehouse, district, order)),
        None => None,
    }
}

/// What the terminal shows of a customer.
#[tactic(auto, unfolding(tpcc_rows::specs::Lookups::status_reply))]
fn status(tables: &Tables, query: &StatusQuery, customer: &CustomerRow) -> Status
    requires { chosen_customer tables.now.rows query.now.warehouse query.now.district query.now.who
        ≡ Some customer.now }
    ensures { result ≡ status_reply tables.now.rows query.now }
{
    Status {
        warehouse: query.warehouse,
        district: query.district,
        customer: customer.id,
        first: customer.first,
        middle: customer.middle,
        last: customer.last,
        balance: customer.balance,
        order: last_order(tables, query.warehouse, query.district, customer.id),
    }
}

/// Why an Order-Status is refused, if it is: as [`order_status`] tells it, with nothing looked up for the reply.
pub fn judge_status(tables: &Tables, query: &StatusQuery) -> Result<(), Refusal>
    ensures accepted { OnOk result (status_refusal tables.now.rows query.now ≡ None) }
    ensures refused { IfErr result
        (λ refusal. status_refusal tables.now.rows query.now ≡ Some refusal) }
{
    asking_customer(tables, query)?;
    Ok(())
}

/// One Order-Status. The refusals are NoWarehouse, NoDistrict and NoCustomer, the first that
/// applies. Takes no memory.
pub fn order_status(tables: &Tables, query: &StatusQuery) -> Result<Status, Refusal>
    ensures accepted { OnOk result (status_refusal tables.now.rows query.now ≡ None) }
    ensures reply { IfOk result (λ status. status ≡ status_reply tables.now.rows query.now) }
    ensures refused { IfErr result
        (λ refusal. status_refusal tables.now.rows query.now ≡ Some refusal) }
{
    let customer = asking_customer(tables, query)?;
    Ok(status(tables, query, customer))
}
