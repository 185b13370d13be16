//! What the lines of a screen are made of.
ghost use Rattle.std.specs.Prelude.{◌≡◌, ◌++◌};
ghost use Rattle.tpcc_text.specs.Internal.Pieces.{piece_text};
ghost use Rattle.tpcc_text.specs.Screens.{shown_moment, shown_number};

use tpcc_money::{Cents, Moment, Rate};
use tpcc_rows::Address;

/// A word, or a name with a value behind it.
#[derive(Clone, Copy)]
pub enum Piece<'a> {
    /// Bytes as they are.
    Word(&'a [u8]),
    /// A text.
    Text(&'a [u8], &'a [u8]),
    /// A number in decimal.
    Number(&'a [u8], u32),
    /// A count in decimal.
    Count(&'a [u8], u64),
    /// An amount with two decimals.
    Amount(&'a [u8], Cents),
    /// A rate with four decimals.
    Rate(&'a [u8], Rate),
    /// A moment as `1970-01-01T00:00:00`.
    Moment(&'a [u8], Moment),
    /// The five columns of an address, divided by commas.
    Address(&'a [u8], &'a Address),
}

/// A number, or a hyphen where it is null.
pub fn nullable_number(name: &[u8], number: Option<u32>) -> Piece<'_>
    ensures { piece_text result ≡ name.now ++ shown_number number }
{
    match number {
        Some(number) => Piece::Number(name, number),
        None => Piece::Text(name, b"-"),
    }
}

/// A moment, or a hyphen where it is null.
pub fn nullable_moment(name: &[u8], moment: Option<Moment>) -> Piece<'_>
    ensures { piece_text result ≡ name.now ++ shown_moment moment }
{
    match moment {
        Some(moment) => Piece::Moment(name, moment),
        None => Piece::Text(name, b"-"),
    }
}
