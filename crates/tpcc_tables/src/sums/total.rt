//! Sums of payments.
ghost use Rattle.std.specs.Prelude.{◌≡◌, ◌+ℤ◌, pos, true};
ghost use Rattle.tpcc_tables.specs.Internal.Sums.{is_payments_sum};

use std::marker::Model;
use tpcc_money::Cents;

/// The sum of as many payments as there can be, in whole cents: more than 64 bits hold.
#[derive(Clone, Copy)]
pub struct Total(i128);

impl Model for Total {
    ghost use Rattle.std.specs.Prelude.{ℤ};

    ghost Value = { ℤ };

    ghost view = { λ t. t.0 };

    ghost inverse = { λ z. record { 0 = z } };
}

impl Total {
    /// No cents.
    pub fn zero() -> Total
        ensures { result ≡ pos 0 }
    {
        Total(0)
    }

    /// The number of cents.
    pub fn value(self) -> i128
        ensures { result ≡ self }
    {
        self.0
    }

    /// The sum with one payment more.
    pub fn plus(self, amount: Cents) -> Total
        requires { is_payments_sum self ≡ true }
        ensures { result ≡ self +ℤ amount }
    {
        Total(self.value() + i128::from(amount.value()))
    }
}
