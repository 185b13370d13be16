//! The amounts and counts of a payment, tested against the ranges of their columns.
ghost use Rattle.std.specs.Prelude.{◌≡◌, ◌+◌, ◌+ℤ◌, ◌-ℤ◌, pos};
ghost use Rattle.tpcc_rows.specs.Lists.{first_finding};
ghost use Rattle.tpcc_rows.specs.Ranges.{is_amount_within, is_total, is_balance, is_count};
ghost use Rattle.tpcc_rows.specs.Payment.{payment_range_tests};
ghost use Rattle.tpcc_rows.specs.declared.limits.TheConstants.{LEAST_PAYMENT, GREATEST_PAYMENT};

use crate::payment_rows::PaymentRows;
use tpcc_money::Cents;
use tpcc_rows::limits::{GREATEST_COUNT, GREATEST_PAYMENT, GREATEST_TOTAL, LEAST_PAYMENT};
use tpcc_rows::{Field, Refusal};

// A sum of two amounts has more bits than an amount.
const GREATEST: i128 = GREATEST_TOTAL as i128;

fn is_total_after(total: Cents, amount: Cents) -> bool
    ensures { result ≡ is_total (total +ℤ amount) }
{
    let sum = i128::from(total.value()) + i128::from(amount.value());
    0 <= sum && sum <= GREATEST
}

fn is_balance_after(balance: Cents, amount: Cents) -> bool
    ensures { result ≡ is_balance (balance -ℤ amount) }
{
    let sum = i128::from(balance.value()) - i128::from(amount.value());
    -GREATEST <= sum && sum <= GREATEST
}

fn is_count_after(count: u32) -> bool
    ensures { result ≡ is_count (count + 1) }
{
    count < GREATEST_COUNT
}

fn is_payable(amount: Cents) -> bool
    ensures { result ≡ is_amount_within LEAST_PAYMENT GREATEST_PAYMENT amount }
{
    LEAST_PAYMENT <= amount.value() && amount.value() <= GREATEST_PAYMENT
}

/// The first refusal of the amounts and counts, if there is one.
pub fn range_refusal(named: &PaymentRows, amount: Cents) -> Option<Refusal>
    ensures { result
        ≡ first_finding (payment_range_tests named.now.warehouse.now named.now.district.now
        named.now.customer.now amount) }
{
    if !is_payable(amount) {
        return Some(Refusal::Amount);
    }
    if !is_count_after(named.customer.payment_count) {
        return Some(Refusal::Count(Field::PaymentCount));
    }
    if !is_total_after(named.warehouse.ytd, amount) {
        return Some(Refusal::Total(Field::WarehouseYtd));
    }
    if !is_total_after(named.district.ytd, amount) {
        return Some(Refusal::Total(Field::DistrictYtd));
    }
    if !is_balance_after(named.customer.balance, amount) {
        return Some(Refusal::Total(Field::Balance));
    }
    if !is_total_after(named.customer.ytd_payment, amount) {
        return Some(Refusal::Total(Field::YtdPayment));
    }
    None
}
