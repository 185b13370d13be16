//! Numbers within texts.
ghost use Rattle.std.specs.Prelude.{◌≡◌, ◌+◌, ◌≤◌, ◌++◌, decimal, length};
ghost use Rattle.tpcc_money.specs.Texts.{padded_number};
ghost use Rattle.tpcc_rows.specs.declared.limits.TheConstants.{MOST_PLACES};

use crate::values::text::Text;
use itoa::Buffer;

impl<const N: usize> Text<N> {
    /// A number in decimal digits at the end.
    pub fn extend_number(&mut self, number: u32)
        requires short { N ≤ MOST_PLACES }
        requires room { length self.old + 10 ≤ N }
        ensures written { self.new ≡ self.old ++ decimal number }
        ensures few { length self.new ≤ length self.old + 10 }
    {
        let mut buffer = Buffer::new();
        self.extend(buffer.format(number).as_bytes());
    }

    /// A number at the end in so many places, at most 16, with leading zeros.
    pub fn extend_padded(&mut self, places: usize, number: u32)
        requires short { N ≤ MOST_PLACES }
        requires few { places ≤ 16 }
        requires digits { length (decimal number) ≤ places }
        requires room { length self.old + places ≤ N }
        ensures written { self.new ≡ self.old ++ padded_number places number }
        ensures long { length self.new ≡ length self.old + places }
    {
        let mut buffer = Buffer::new();
        let digits = buffer.format(number).as_bytes();
        self.extend(&b"0000000000000000"[..places - digits.len()]);
        self.extend(digits);
    }
}
