//! Amounts of money.
ghost use Rattle.std.specs.Prelude.{◌≡◌, ◌+ℤ◌, ◌-ℤ◌, ◌↔◌, IsSome, IfSome, FitsSigned};
ghost use Rattle.std.specs.Int.{w64};

use std::fmt;
use std::marker::Model;

/// A whole number of cents, of either sign.
#[derive(Clone, Copy, Debug, PartialEq, Eq, PartialOrd, Ord)]
pub struct Cents(i64);

impl Model for Cents {
    ghost use Rattle.std.specs.Prelude.{ℤ};

    ghost Value = { ℤ };

    ghost view = { λ c. c.0 };

    ghost inverse = { λ z. record { 0 = z } };
}

impl Cents {
    /// So many cents.
    pub fn new(cents: i64) -> Self
        ensures { result ≡ cents }
    {
        Cents(cents)
    }

    /// The number of cents.
    pub fn value(self) -> i64
        ensures { result ≡ self }
    {
        self.0
    }

    /// The sum, or none exactly where 64 bits don't hold it.
    pub fn checked_add(self, other: Self) -> Option<Self>
        ensures sum { IfSome result (λ c. c ≡ self +ℤ other) }
        ensures fits { IsSome result ↔ FitsSigned w64 (self +ℤ other) }
    {
        self.value().checked_add(other.value()).map(Cents::new)
    }

    /// The sum, where 64 bits hold it.
    pub fn plus(self, other: Self) -> Self
        requires { FitsSigned w64 (self +ℤ other) }
        ensures { result ≡ self +ℤ other }
    {
        Cents(self.value() + other.value())
    }

    /// The difference, where 64 bits hold it.
    pub fn minus(self, other: Self) -> Self
        requires { FitsSigned w64 (self -ℤ other) }
        ensures { result ≡ self -ℤ other }
    {
        Cents(self.value() - other.value())
    }
}

/// Whole units, a point and two digits, behind a minus sign where the amount is negative: `-11.00`.
impl fmt::Display for Cents {
    ghost use Rattle.std.specs.Prelude.{Some};
    ghost use Rattle.tpcc_money.specs.Texts.{amount_text};

    ghost output = { λ c. Some (amount_text c) };

    fn fmt<W: fmt::Write>(&self, f: &mut fmt::Formatter<W>) -> fmt::Result {
        let sign = if self.value() < 0 { "-" } else { "" };
        let size = self.value().unsigned_abs();
        let (units, cents) = (size / 100, size % 100);
        write!(f, "{sign}{units}.{cents:02}")
    }
}
