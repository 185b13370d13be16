//! The amounts of New-Order (2.4.2).
ghost use Rattle.std.specs.Prelude.{◌≡◌, ◌≤◌, ◌≤ℤ◌, pos};
ghost use Rattle.tpcc_money.specs.Amounts as amounts;
ghost use Rattle.tpcc_money.specs.declared.amounts.TheConstants.{GREATEST_PRICE, GREATEST_SUM};

use crate::cents::Cents;
use crate::rate::Rate;

/// I_PRICE, in cents: 0.01 to 999.99.
pub const GREATEST_PRICE: i64 = 99_999;

/// The lines of an order together, in cents: 15 of at most 10,000.00.
pub const GREATEST_SUM: i64 = 15_000_000;

/// OL_AMOUNT, a line's quantity times I_PRICE (2.4.2.2), of a price of 0.01 to 999.99 and a
/// quantity of 1 to 10.
pub fn line_amount(price: Cents, quantity: u32) -> Cents
    requires price { (pos 1 ≤ℤ price) × (price ≤ℤ GREATEST_PRICE) }
    requires quantity { (1 ≤ quantity) × (quantity ≤ 10) }
    ensures { result ≡ amounts.line_amount price quantity }
{
    Cents::new(price.value() * i64::from(quantity))
}

/// The total of an order whose lines add up to 0.00 to 150,000.00: the sum, less the customer's
/// discount, with the taxes of warehouse and district (2.4.2.2), rounded half up to a cent.
#[tactic(auto, using(crate::proofs::Total::scaled_fits, crate::proofs::Total::rounds))]
pub fn order_total(sum: Cents, discount: Rate, warehouse_tax: Rate, district_tax: Rate) -> Cents
    requires { (pos 0 ≤ℤ sum) × (sum ≤ℤ GREATEST_SUM) }
    ensures { result ≡ amounts.order_total sum discount warehouse_tax district_tax }
{
    let after_discount = u64::from(Rate::WHOLE) - u64::from(discount.value());
    let taxes = u64::from(warehouse_tax.value()) + u64::from(district_tax.value());
    let with_tax = u64::from(Rate::WHOLE) + taxes;
    let scaled = sum.value().unsigned_abs() * (after_discount * with_tax);
    Cents::new(((scaled + 50_000_000) / 100_000_000) as i64)
}
