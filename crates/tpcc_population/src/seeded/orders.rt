//! What orders and their lines draw.
ghost use Rattle.std.specs.Prelude.{◌≡◌, ◌≤◌, IfOk, length};
ghost use Rattle.tpcc_draws.specs.Draws.{answers};
ghost use Rattle.tpcc_population.specs.Seeded.{drawn_amount, drawn_carrier, drawn_customers, seeded_order};
ghost use Rattle.tpcc_population.specs.declared.rules.TheConstants.{MOST_ORDER_LINES};
ghost use Rattle.tpcc_rows.specs.declared.limits.TheConstants.{GREATEST_WAREHOUSE, GREATEST_DISTRICT, GREATEST_CUSTOMER};

use super::SeededRules;
use super::numbers::{district_number, number_in_districts};
use crate::rules::MOST_ORDER_LINES;
use std::alloc::Global;
use tpcc_draws::Stream;
use tpcc_money::Cents;
use tpcc_rows::NoMemory;
use tpcc_rows::limits::{GREATEST_CARRIER, GREATEST_LINE_AMOUNT};

// A carrier where the order is delivered; else null, and nothing is drawn.
#[tactic(auto, unfolding(crate::specs::Seeded::drawn_carrier))]
fn drawn_carrier(stream: &mut Stream, is_delivered: bool) -> Option<u32>
    ensures drawn { (result, answers stream.new) ≡ drawn_carrier is_delivered (answers stream.old) }
{
    if is_delivered {
        Some(stream.between(1, GREATEST_CARRIER))
    } else {
        None
    }
}

// O_CARRIER_ID and O_OL_CNT of an order, the two columns that its own stream gives.
pub(super) fn carrier_and_lines(
    rules: &SeededRules,
    warehouse: u32,
    district: u32,
    order: u32,
) -> (Option<u32>, u32)
    requires warehouse_least { 1 ≤ warehouse }
    requires warehouse_most { warehouse ≤ GREATEST_WAREHOUSE }
    requires district_least { 1 ≤ district }
    requires district_most { district ≤ GREATEST_DISTRICT }
    requires least { 1 ≤ order }
    requires most { order ≤ GREATEST_CUSTOMER }
    ensures carrier { result.0 ≡ (seeded_order rules.now warehouse district order).carrier }
    ensures lines { result.1 ≡ (seeded_order rules.now warehouse district order).line_count }
    ensures few { result.1 ≤ MOST_ORDER_LINES }
{
    let row = number_in_districts(&rules.scale, warehouse, district, order);
    let mut stream = Stream::of(rules.seed, 5, row);
    let carrier = drawn_carrier(&mut stream, rules.scale.is_delivered(order));
    let line_count = stream.between(5, MOST_ORDER_LINES);
    (carrier, line_count)
}

// The customers of a district in the order of their orders.
pub(super) fn order_customers(
    alloc: Global,
    rules: &SeededRules,
    warehouse: u32,
    district: u32,
) -> Result<Vec<u32>, NoMemory>
    requires warehouse_least { 1 ≤ warehouse }
    requires warehouse_most { warehouse ≤ GREATEST_WAREHOUSE }
    requires district_most { district ≤ GREATEST_DISTRICT }
    ensures customers { IfOk result (λ v. v.items ≡ drawn_customers rules.now warehouse district) }
    ensures length { IfOk result (λ v. length v.items ≡ rules.now.scale.customers) }
{
    let mut stream = Stream::of(rules.seed, 11, district_number(warehouse, district));
    let customers = stream.permutation(alloc, rules.scale.customers())?;
    Ok(customers)
}

// A delivered line costs nothing, and nothing is drawn for it.
#[tactic(auto, unfolding(crate::specs::Seeded::drawn_amount))]
pub(super) fn drawn_amount(stream: &mut Stream, is_delivered: bool) -> Cents
    ensures drawn { (result, answers stream.new) ≡ drawn_amount is_delivered (answers stream.old) }
{
    if is_delivered {
        Cents::new(0)
    } else {
        Cents::new(i64::from(stream.between(1, GREATEST_LINE_AMOUNT as u32)))
    }
}
