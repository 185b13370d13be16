//! The conditions, and the first row at which one of them fails.
ghost use Rattle.std.specs.Prelude.{◌≡◌, IfErr, OnOk, Some, None, option_map, if◌then◌else◌};
ghost use Rattle.tpcc_conditions.specs.Broken.{as_model};
ghost use Rattle.tpcc_conditions.specs.First.{first_of};
ghost use Rattle.tpcc_conditions.specs.Internal.First.{failing_at, tested_table};

use crate::broken::{Broken, at_customer, at_district, at_order, at_order_line, at_warehouse};
use crate::{keeps, places};
use tpcc_rows::Table;
use tpcc_tables::Tables;

/// The conditions of clause 3.3.2.
#[derive(Clone, Copy)]
pub enum Condition {
    /// W_YTD is the sum of the D_YTD of its districts (3.3.2.1).
    One,
    /// D_NEXT_O_ID - 1 is the largest O_ID and NO_O_ID of the district (3.3.2.2).
    Two,
    /// A district's NEW-ORDER rows are as many as their numbers span (3.3.2.3).
    Three,
    /// A district's O_OL_CNT add up to its order lines (3.3.2.4).
    Four,
    /// O_CARRIER_ID is null where there is a NEW-ORDER row (3.3.2.5).
    Five,
    /// O_OL_CNT is the number of the order's lines (3.3.2.6).
    Six,
    /// OL_DELIVERY_D is null where O_CARRIER_ID is (3.3.2.7).
    Seven,
    /// W_YTD is the sum of the H_AMOUNT paid into it (3.3.2.8).
    Eight,
    /// D_YTD is the sum of the H_AMOUNT paid into it (3.3.2.9).
    Nine,
    /// C_BALANCE is what was delivered less what was paid (3.3.2.10).
    Ten,
    /// A district of an opening with so many customers has 7/10 as many delivered orders (3.3.2.11).
    Eleven(u32),
    /// C_BALANCE and C_YTD_PAYMENT together are what was delivered (3.3.2.12).
    Twelve,
}

fn unless(keeps: bool, broken: Broken) -> Option<Broken>
    ensures { option_map as_model result ≡ (if keeps then None else Some (as_model broken)) }
{
    if keeps { None } else { Some(broken) }
}

#[tactic(auto, unfolding(crate::specs::Internal::First::failing_at))]
fn broken_warehouse(tables: &Tables, condition: Condition, position: usize) -> Option<Broken>
    requires tested { tested_table condition ≡ Table.Warehouse }
    ensures { option_map as_model result ≡ failing_at condition tables.now.rows position }
{
    let row = places::warehouse(tables, position)?;
    match condition {
        Condition::One => unless(
            keeps::totals_of_districts(tables, row),
            at_warehouse(1, row),
        ),
        Condition::Eight => unless(
            keeps::payments_of_warehouse(tables, row),
            at_warehouse(8, row),
        ),
        _ => None,
    }
}

#[tactic(auto, unfolding(crate::specs::Internal::First::failing_at))]
fn broken_district(tables: &Tables, condition: Condition, position: usize) -> Option<Broken>
    requires tested { tested_table condition ≡ Table.District }
    ensures { option_map as_model result ≡ failing_at condition tables.now.rows position }
{
    let row = places::district(tables, position)?;
    match condition {
        Condition::Two => unless(keeps::next_number(tables, row), at_district(2, row)),
        Condition::Three => unless(keeps::no_gap(tables, row), at_district(3, row)),
        Condition::Four => unless(keeps::lines_of_district(tables, row), at_district(4, row)),
        Condition::Nine => unless(
            keeps::payments_of_district(tables, row),
            at_district(9, row),
        ),
        Condition::Eleven(customers) => unless(
            keeps::delivered_orders(tables, row, customers),
            at_district(11, row),
        ),
        _ => None,
    }
}

#[tactic(auto, unfolding(crate::specs::Internal::First::failing_at))]
fn broken_order(tables: &Tables, condition: Condition, position: usize) -> Option<Broken>
    requires tested { tested_table condition ≡ Table.Order }
    ensures { option_map as_model result ≡ failing_at condition tables.now.rows position }
{
    let row = places::order(tables, position)?;
    match condition {
        Condition::Five => unless(keeps::carrier(tables, row), at_order(5, row)),
        Condition::Six => unless(keeps::lines_of_order(tables, row), at_order(6, row)),
        _ => None,
    }
}

#[tactic(auto, unfolding(crate::specs::Internal::First::failing_at))]
fn broken_line(tables: &Tables, position: usize) -> Option<Broken>
    ensures { option_map as_model result ≡ failing_at Condition.Seven tables.now.rows position }
{
    let row = places::line(tables, position)?;
    unless(keeps::delivery_date(tables, row), at_order_line(7, row))
}

#[tactic(auto, unfolding(crate::specs::Internal::First::failing_at))]
fn broken_customer(tables: &Tables, condition: Condition, position: usize) -> Option<Broken>
    requires tested { tested_table condition ≡ Table.Customer }
    ensures { option_map as_model result ≡ failing_at condition tables.now.rows position }
{
    let row = places::customer(tables, position)?;
    match condition {
        Condition::Ten => unless(keeps::balance(tables, row), at_customer(10, row)),
        Condition::Twelve => unless(
            keeps::balance_and_payments(tables, row),
            at_customer(12, row),
        ),
        _ => None,
    }
}

/// What is broken at the row at a place, if there is a row and it fails.
fn broken_at(tables: &Tables, condition: Condition, position: usize) -> Option<Broken>
    ensures { option_map as_model result ≡ failing_at condition tables.now.rows position }
{
    match condition {
        Condition::One | Condition::Eight => broken_warehouse(tables, condition, position),
        Condition::Two
        | Condition::Three
        | Condition::Four
        | Condition::Nine
        | Condition::Eleven(_) => broken_district(tables, condition, position),
        Condition::Five | Condition::Six => broken_order(tables, condition, position),
        Condition::Seven => broken_line(tables, position),
        Condition::Ten | Condition::Twelve => broken_customer(tables, condition, position),
    }
}

fn table(condition: Condition) -> Table
    ensures { result ≡ tested_table condition }
{
    match condition {
        Condition::One => Table::Warehouse,
        Condition::Two => Table::District,
        Condition::Three => Table::District,
        Condition::Four => Table::District,
        Condition::Five => Table::Order,
        Condition::Six => Table::Order,
        Condition::Seven => Table::OrderLine,
        Condition::Eight => Table::Warehouse,
        Condition::Nine => Table::District,
        Condition::Ten => Table::Customer,
        Condition::Eleven(_) => Table::District,
        Condition::Twelve => Table::Customer,
    }
}

/// Tests a condition at the rows of its table, in the order of their keys.
pub fn test(tables: &Tables, condition: Condition) -> Result<(), Broken>
    ensures held { OnOk result (first_of condition tables.now.rows ≡ None) }
    ensures broken { IfErr result (λ b. first_of condition tables.now.rows ≡ Some (as_model b)) }
{
    for position in 0..tables.count(table(condition)) {
        if let Some(broken) = broken_at(tables, condition, position) {
            return Err(broken);
        }
    }
    Ok(())
}
