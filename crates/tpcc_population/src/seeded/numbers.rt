//! The number of a row among all of its table, from 1: with it the row's stream is known.
ghost use Rattle.std.specs.Prelude.{◌≡◌, ◌+◌, ◌*◌, ◌≤◌};
ghost use Rattle.tpcc_population.specs.Seeded.{district_number, line_number, number_in_districts, stock_number};
ghost use Rattle.tpcc_rows.specs.declared.limits.TheConstants.{GREATEST_WAREHOUSE, GREATEST_DISTRICT, GREATEST_CUSTOMER, GREATEST_ITEM};
ghost use Rattle.tpcc_population.specs.declared.rules.TheConstants.{MOST_ORDER_LINES};
ghost use Rattle.tpcc_population.specs.declared.seeded.numbers.TheConstants.{MOST_DISTRICTS};

use crate::rules::MOST_ORDER_LINES;
use crate::scale::Scale;
use tpcc_rows::limits::{GREATEST_DISTRICT, GREATEST_WAREHOUSE};

/// The districts of all warehouses.
const MOST_DISTRICTS: u32 = GREATEST_WAREHOUSE * GREATEST_DISTRICT;

// The number of a district among all, from 1.
pub(super) fn district_number(warehouse: u32, district: u32) -> u64
    requires least { 1 ≤ warehouse }
    requires warehouse { warehouse ≤ GREATEST_WAREHOUSE }
    requires district { district ≤ GREATEST_DISTRICT }
    ensures number { result ≡ district_number warehouse district }
    ensures small { result ≤ MOST_DISTRICTS }
{
    u64::from((warehouse - 1) * GREATEST_DISTRICT + district)
}

// The number of a row of CUSTOMER, HISTORY or ORDER among all of its table, from 1.
pub(super) fn number_in_districts(scale: &Scale, warehouse: u32, district: u32, number: u32) -> u64
    requires warehouse_least { 1 ≤ warehouse }
    requires warehouse { warehouse ≤ GREATEST_WAREHOUSE }
    requires district_least { 1 ≤ district }
    requires district { district ≤ GREATEST_DISTRICT }
    requires least { 1 ≤ number }
    requires most { number ≤ GREATEST_CUSTOMER }
    ensures number { result ≡ number_in_districts scale.now warehouse district number }
    ensures least { 1 ≤ result }
    ensures small { result ≤ (MOST_DISTRICTS + 1) * GREATEST_CUSTOMER }
{
    let before = district_number(warehouse, district) - 1;
    rows_before(before, scale.customers()) + u64::from(number)
}

// The number of an ORDER-LINE row among all, from 1: each order has room for the same.
pub(super) fn line_number(
    scale: &Scale,
    warehouse: u32,
    district: u32,
    order: u32,
    number: u32,
) -> u64
    requires warehouse_least { 1 ≤ warehouse }
    requires warehouse { warehouse ≤ GREATEST_WAREHOUSE }
    requires district_least { 1 ≤ district }
    requires district { district ≤ GREATEST_DISTRICT }
    requires order_least { 1 ≤ order }
    requires order_most { order ≤ GREATEST_CUSTOMER }
    requires most { number ≤ MOST_ORDER_LINES }
    ensures number { result ≡ line_number scale.now warehouse district order number }
{
    let order = number_in_districts(scale, warehouse, district, order);
    u64::from(MOST_ORDER_LINES) * (order - 1) + u64::from(number)
}

#[tactic(auto, using(crate::proofs::Range::small_product))]
fn rows_before(districts: u64, customers: u32) -> u64
    requires districts { districts ≤ MOST_DISTRICTS }
    requires customers { customers ≤ GREATEST_CUSTOMER }
    ensures product { result ≡ districts * customers }
    ensures small { result ≤ MOST_DISTRICTS * GREATEST_CUSTOMER }
{
    districts * u64::from(customers)
}

// The number of a STOCK row among all, from 1.
pub(super) fn stock_number(scale: &Scale, warehouse: u32, item: u32) -> u64
    requires least { 1 ≤ warehouse }
    requires warehouse { warehouse ≤ GREATEST_WAREHOUSE }
    requires item { item ≤ GREATEST_ITEM }
    ensures number { result ≡ stock_number scale.now warehouse item }
    ensures small { result ≤ GREATEST_WAREHOUSE * GREATEST_ITEM }
{
    u64::from((warehouse - 1) * scale.items() + item)
}
