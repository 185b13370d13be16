//! Conditions of one row (3.3.2).
ghost use Rattle.std.specs.Prelude.{◌≡◌, ◌+ℤ◌, ◌-ℤ◌, ◌+◌, ◌==◌, ◌||◌, is_none, length, unwrap_or};
ghost use Rattle.std.specs.Ordering.{int_eq};
ghost use Rattle.tpcc_rows.specs.Lists.{largest};
ghost use Rattle.tpcc_rows.specs.Tables.{order_at};
ghost use Rattle.tpcc_rows.specs.Conditions.{keeps_1, keeps_2, keeps_3, keeps_4, keeps_5, keeps_6, keeps_7, keeps_8, keeps_9, keeps_10, keeps_11, keeps_12, largest_order, new_order_numbers};

use crate::district_totals::district_totals;
use tpcc_money::Cents;
use tpcc_rows::{CustomerRow, DistrictRow, OrderLineRow, OrderRow, WarehouseRow};
use tpcc_tables::Tables;

/// Condition 1: W_YTD is the sum of D_YTD.
#[tactic(auto, unfolding(tpcc_rows::specs::Conditions::keeps_1))]
pub fn totals_of_districts(tables: &Tables, row: &WarehouseRow) -> bool
    ensures { result ≡ keeps_1 tables.now.rows row.now }
{
    i128::from(row.ytd.value()) == district_totals(tables, row.id)
}

/// Whether D_NEXT_O_ID follows a number.
fn is_next(row: &DistrictRow, number: u32) -> bool
    ensures { result ≡ (row.now.next_order == number + 1) }
{
    u64::from(row.next_order) == u64::from(number) + 1
}

/// Whether D_NEXT_O_ID follows the largest O_ID, or is 1 where there is no order.
fn follows_orders(tables: &Tables, row: &DistrictRow) -> bool
    ensures { result ≡ (row.now.next_order == largest_order tables.now.rows row.now + 1) }
{
    match tables.district_counts(row.warehouse, row.id).newest_order {
        Some(newest) => is_next(row, newest),
        None => is_next(row, 0),
    }
}

/// Whether D_NEXT_O_ID follows the largest NO_O_ID, if there is one.
#[tactic(auto, using(crate::proofs::Number::none_largest))]
fn follows_new_orders(tables: &Tables, row: &DistrictRow) -> bool
    ensures { result ≡ ((length (new_order_numbers tables.now.rows row.now) == 0)
        || (row.now.next_order
        == unwrap_or (largest (new_order_numbers tables.now.rows row.now)) 0 + 1)) }
{
    match tables.district_counts(row.warehouse, row.id).newest_new {
        Some(newest) => is_next(row, newest),
        None => true,
    }
}

/// Condition 2: D_NEXT_O_ID follows the largest O_ID and the largest NO_O_ID.
#[tactic(auto, unfolding(tpcc_rows::specs::Conditions::keeps_2))]
pub fn next_number(tables: &Tables, row: &DistrictRow) -> bool
    ensures { result ≡ keeps_2 tables.now.rows row.now }
{
    follows_orders(tables, row) && follows_new_orders(tables, row)
}

/// Whether the NO_O_IDs of a district are as many as from the oldest one to the newest.
fn is_span(tables: &Tables, row: &DistrictRow, oldest: u32, newest: u32) -> bool
    ensures { result ≡ (newest + 1
        == oldest + length (new_order_numbers tables.now.rows row.now)) }
{
    let count = tables.district_counts(row.warehouse, row.id).new_orders;
    u128::from(newest) + 1 == u128::from(oldest) + count as u128
}

/// Condition 3: the NO_O_IDs have no gap.
#[tactic(auto, unfolding(tpcc_rows::specs::Conditions::keeps_3), using(crate::proofs::Number::none_largest, crate::proofs::Number::none_smallest))]
pub fn no_gap(tables: &Tables, row: &DistrictRow) -> bool
    ensures { result ≡ keeps_3 tables.now.rows row.now }
{
    let Some(oldest) = tables.oldest_new(row.warehouse, row.id) else {
        return true;
    };
    let Some(newest) = tables.district_counts(row.warehouse, row.id).newest_new else {
        return true;
    };
    is_span(tables, row, oldest, newest)
}

/// Condition 11, of an opening: 7/10 as many orders as customers are delivered.
#[tactic(auto, unfolding(tpcc_rows::specs::Conditions::keeps_11))]
pub fn delivered_orders(tables: &Tables, row: &DistrictRow, customers: u32) -> bool
    ensures { result ≡ keeps_11 customers tables.now.rows row.now }
{
    let delivered = 7 * u64::from(customers) / 10;
    let counts = tables.district_counts(row.warehouse, row.id);
    counts.orders as u128 == counts.new_orders as u128 + u128::from(delivered)
}

/// Condition 4: the sum of O_OL_CNT is the number of ORDER-LINE rows.
#[tactic(auto, unfolding(tpcc_rows::specs::Conditions::keeps_4), using(crate::proofs::Number::pos_eq))]
pub fn lines_of_district(tables: &Tables, row: &DistrictRow) -> bool
    ensures { result ≡ keeps_4 tables.now.rows row.now }
{
    let lines = tables.line_count(row.warehouse, row.id);
    tables.counted_lines(row.warehouse, row.id) == lines as i128
}

/// Condition 5: O_CARRIER_ID is null exactly if there is a NEW-ORDER row.
#[tactic(auto, unfolding(tpcc_rows::specs::Conditions::keeps_5))]
pub fn carrier(tables: &Tables, row: &OrderRow) -> bool
    ensures { result ≡ keeps_5 tables.now.rows row.now }
{
    row.carrier.is_none()
        == tables
            .new_order(row.warehouse, row.district, row.id)
            .is_some()
}

/// Condition 6: O_OL_CNT is the number of the order's ORDER-LINE rows.
#[tactic(auto, unfolding(tpcc_rows::specs::Conditions::keeps_6))]
pub fn lines_of_order(tables: &Tables, row: &OrderRow) -> bool
    ensures { result ≡ keeps_6 tables.now.rows row.now }
{
    row.line_count as usize == tables.order_line_count(row.warehouse, row.district, row.id)
}

/// Whether an order's carrier is null, as it is of an order that is not there.
fn waits(tables: &Tables, warehouse: u32, district: u32, order: u32) -> bool
    ensures { result ≡ is_none (order_at tables.now.rows warehouse district order).carrier }
{
    match tables.order(warehouse, district, order) {
        Some(row) => row.carrier.is_none(),
        None => true,
    }
}

/// Condition 7: OL_DELIVERY_D is null exactly if the order's O_CARRIER_ID is.
#[tactic(auto, unfolding(tpcc_rows::specs::Conditions::keeps_7))]
pub fn delivery_date(tables: &Tables, row: &OrderLineRow) -> bool
    ensures { result ≡ keeps_7 tables.now.rows row.now }
{
    row.delivered.is_none() == waits(tables, row.warehouse, row.district, row.order)
}

/// Condition 8: W_YTD is the sum of H_AMOUNT paid into the warehouse.
#[tactic(auto, unfolding(tpcc_rows::specs::Conditions::keeps_8))]
pub fn payments_of_warehouse(tables: &Tables, row: &WarehouseRow) -> bool
    ensures { result ≡ keeps_8 tables.now.rows row.now }
{
    i128::from(row.ytd.value()) == tables.warehouse_paid(row.id)
}

/// Condition 9: D_YTD is the sum of H_AMOUNT paid into the district.
#[tactic(auto, unfolding(tpcc_rows::specs::Conditions::keeps_9))]
pub fn payments_of_district(tables: &Tables, row: &DistrictRow) -> bool
    ensures { result ≡ keeps_9 tables.now.rows row.now }
{
    i128::from(row.ytd.value()) == tables.district_paid(row.warehouse, row.id)
}

/// Whether a balance is what was delivered less what was paid.
fn is_difference(balance: Cents, delivered: i128, paid: i128) -> bool
    ensures { result ≡ int_eq balance (delivered -ℤ paid) }
{
    match delivered.checked_sub(paid) {
        Some(difference) => i128::from(balance.value()) == difference,
        None => false,
    }
}

/// Condition 10: C_BALANCE is the sum of the delivered OL_AMOUNT less the sum of H_AMOUNT.
#[tactic(auto, unfolding(tpcc_rows::specs::Conditions::keeps_10))]
pub fn balance(tables: &Tables, row: &CustomerRow) -> bool
    ensures { result ≡ keeps_10 tables.now.rows row.now }
{
    let delivered = tables.customer_delivered(row.warehouse, row.district, row.id);
    let paid = tables.customer_paid(row.warehouse, row.district, row.id);
    is_difference(row.balance, delivered, paid)
}

/// The sum of two amounts.
fn both(a: Cents, b: Cents) -> i128
    ensures { result ≡ a +ℤ b }
{
    i128::from(a.value()) + i128::from(b.value())
}

/// Condition 12: C_BALANCE and C_YTD_PAYMENT together are the sum of the delivered OL_AMOUNT.
#[tactic(auto, unfolding(tpcc_rows::specs::Conditions::keeps_12))]
pub fn balance_and_payments(tables: &Tables, row: &CustomerRow) -> bool
    ensures { result ≡ keeps_12 tables.now.rows row.now }
{
    both(row.balance, row.ytd_payment)
        == tables.customer_delivered(row.warehouse, row.district, row.id)
}
