//! Why the delivery of an order may be refused (2.7.4.2): its customer's columns would leave their ranges.
ghost use Rattle.std.specs.Prelude.{◌≡◌, ◌+◌, ◌+ℤ◌, Some};
ghost use Rattle.tpcc_rows.specs.Lists.{first_finding};
ghost use Rattle.tpcc_rows.specs.Delivery.{district_refusal};
ghost use Rattle.tpcc_rows.specs.Ranges.{is_balance, is_count};
ghost use Rattle.tpcc_rows.specs.Tables.{customer_at, order_at};
ghost use Rattle.tpcc_delivery.specs.Internal.Runs.{charge_tests};

use tpcc_money::Cents;
use tpcc_rows::limits::{GREATEST_COUNT, GREATEST_TOTAL};
use tpcc_rows::{Field, Refusal};
use tpcc_tables::Tables;

fn is_count_after(count: u32) -> bool
    ensures { result ≡ is_count (count + 1) }
{
    count < GREATEST_COUNT
}

fn is_balance_after(balance: Cents, amount: Cents) -> bool
    ensures { result ≡ is_balance (balance +ℤ amount) }
{
    match balance.checked_add(amount) {
        Some(sum) => -GREATEST_TOTAL <= sum.value() && sum.value() <= GREATEST_TOTAL,
        None => false,
    }
}

#[tactic(auto, unfolding(crate::specs::Internal::Runs::charge_tests))]
fn charge_refusal(balance: Cents, delivery_count: u32, amount: Cents) -> Option<Refusal>
    ensures { result ≡ first_finding (charge_tests balance delivery_count amount) }
{
    if !is_count_after(delivery_count) {
        Some(Refusal::Count(Field::DeliveryCount))
    } else if !is_balance_after(balance, amount) {
        Some(Refusal::Total(Field::Balance))
    } else {
        None
    }
}

/// The customer of an order, 0 where there is no such order.
fn customer_of(tables: &Tables, warehouse: u32, district: u32, order: u32) -> u32
    ensures { result ≡ (order_at tables.now.rows warehouse district order).customer }
{
    match tables.order(warehouse, district, order) {
        Some(row) => row.customer,
        None => 0,
    }
}

fn balance_of(tables: &Tables, warehouse: u32, district: u32, customer: u32) -> Cents
    ensures { result ≡ (customer_at tables.now.rows warehouse district customer).balance }
{
    match tables.customer(warehouse, district, customer) {
        Some(row) => row.balance,
        None => Cents::new(0),
    }
}

fn delivery_count_of(tables: &Tables, warehouse: u32, district: u32, customer: u32) -> u32
    ensures { result ≡ (customer_at tables.now.rows warehouse district customer).delivery_count }
{
    match tables.customer(warehouse, district, customer) {
        Some(row) => row.delivery_count,
        None => 0,
    }
}

/// Why the delivery of an order is refused.
#[tactic(auto, unfolding(crate::specs::Internal::Runs::charge_tests))]
fn order_refusal(tables: &Tables, warehouse: u32, district: u32, order: u32) -> Option<Refusal>
    ensures refusal { result ≡ district_refusal tables.now.rows warehouse district (Some order) }
{
    let customer = customer_of(tables, warehouse, district, order);
    let balance = balance_of(tables, warehouse, district, customer);
    let delivery_count = delivery_count_of(tables, warehouse, district, customer);
    let amount = tables.order_amount(warehouse, district, order);
    charge_refusal(balance, delivery_count, amount)
}

/// Why a district's delivery is refused, where it has an order to deliver.
pub fn district_refusal(
    tables: &Tables,
    warehouse: u32,
    district: u32,
    order: Option<u32>,
) -> Option<Refusal>
    ensures refusal { result ≡ district_refusal tables.now.rows warehouse district order }
{
    match order {
        Some(order) => order_refusal(tables, warehouse, district, order),
        None => None,
    }
}
