//! Taxes and discounts.
ghost use Rattle.std.specs.Prelude.{◌≡◌, ◌<◌};
ghost use Rattle.tpcc_money.specs.declared.rate.TheConstants.Rate.{WHOLE};

use std::fmt;
use std::marker::Model;

/// A rate from 0.0000 to 0.9999, a whole number of ten-thousandths.
#[derive(Clone, Copy, Debug, PartialEq, Eq, PartialOrd, Ord)]
pub struct Rate(u16);

impl Model for Rate {
    ghost use Rattle.std.specs.Prelude.{ℕ, ◌<◌};
    ghost use Rattle.tpcc_money.specs.declared.rate.TheConstants.Rate.{WHOLE};

    ghost Value = { ℕ };

    ghost view = { λ r. r.0 };

    ghost inverse = { λ n. record { 0 = n } };

    ghost invariant = { λ r. r.0 < WHOLE };
}

impl Rate {
    /// How many ten-thousandths make the rate 1, which is none.
    pub const WHOLE: u16 = 10_000;

    /// So many ten-thousandths.
    pub fn new(ten_thousandths: u16) -> Self
        requires { ten_thousandths < WHOLE }
        ensures { result ≡ ten_thousandths }
    {
        Rate(ten_thousandths)
    }

    /// The number of ten-thousandths.
    pub fn value(self) -> u16
        ensures value { result ≡ self }
        ensures range { self < WHOLE }
    {
        self.0
    }
}

/// Zero, a point and four digits: `0.0100`.
impl fmt::Display for Rate {
    ghost use Rattle.std.specs.Prelude.{Some};
    ghost use Rattle.tpcc_money.specs.Texts.{rate_text};

    ghost output = { λ r. Some (rate_text r) };

    fn fmt<W: fmt::Write>(&self, f: &mut fmt::Formatter<W>) -> fmt::Result {
        write!(f, "0.{:04}", self.value())
    }
}
