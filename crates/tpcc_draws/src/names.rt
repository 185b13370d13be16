//! Last names (4.3.2.3).
ghost use Rattle.std.specs.Prelude.{◌≡◌, ◌<◌, ◌≤◌, length, true};
ghost use Rattle.std.specs.List.{list_all};
ghost use Rattle.tpcc_rows.specs.Printable.{is_printable};
ghost use Rattle.tpcc_rows.specs.LastName.{last_name, syllable};
ghost use Rattle.tpcc_draws.specs.declared.names.TheConstants.{LAST_NAMES};

use tpcc_rows::Text;

/// How many last names there are (4.3.2.3): one for each number of three digits.
pub const LAST_NAMES: u32 = 1_000;

/// The last name of a number from 0 to 999: a syllable for each of its three decimal digits,
/// leading zeros kept (4.3.2.3). At most 15 bytes.
pub fn last_name(number: u32) -> Text<16>
    requires small { number < LAST_NAMES }
    ensures name { result ≡ last_name number }
{
    let mut name = Text::empty();
    name.extend(syllable(number / 100));
    name.extend(syllable(number / 10 % 10));
    name.extend(syllable(number % 10));
    name
}

fn syllable(digit: u32) -> &'static [u8]
    requires { digit < 10 }
    ensures syllable { result.now ≡ syllable digit }
    ensures short { length result.now ≤ 5 }
    ensures printable { list_all is_printable result.now ≡ true }
{
    match digit {
        0 => b"BAR",
        1 => b"OUGHT",
        2 => b"ABLE",
        3 => b"PRI",
        4 => b"PRES",
        5 => b"ESE",
        6 => b"ANTI",
        7 => b"CALLY",
        8 => b"ATION",
        _ => b"EING",
    }
}
