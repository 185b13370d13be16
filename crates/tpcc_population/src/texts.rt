//! Texts of the openings that are not drawn.
ghost use Rattle.std.specs.Prelude.{◌≡◌, ◌++◌, ◌+◌, ◌<◌, ◌≤◌, ◌^◌, true, if◌then◌else◌, codes, length};
ghost use Rattle.std.specs.List.{list_all};
ghost use Rattle.tpcc_money.specs.Texts.{padded_number};
ghost use Rattle.tpcc_rows.specs.Opening.{plain_district_information};
ghost use Rattle.tpcc_rows.specs.Printable.{is_printable};
ghost use Rattle.tpcc_rows.specs.declared.limits.TheConstants.{MOST_PLACES};

use tpcc_rows::Text;

/// A prefix and a number with leading zeros in so many places.
pub(crate) fn numbered_text<const N: usize>(prefix: &[u8], places: usize, number: u32) -> Text<N>
    requires printable { list_all is_printable prefix.now ≡ true }
    requires some { 0 < places }
    requires few { places ≤ 16 }
    requires small { number < 10 ^ places }
    requires room { length prefix.now + places ≤ N }
    requires short { N ≤ MOST_PLACES }
    ensures text { result ≡ prefix.now ++ padded_number places number }
{
    let mut text = Text::of(prefix);
    text.extend_padded(places, number);
    text
}

/// C_CREDIT: `BC` for bad, `GC` for good.
pub(crate) fn credit(is_bad: bool) -> Text<2>
    ensures text { result ≡ (if is_bad then codes "BC" else codes "GC") }
{
    if is_bad {
        Text::of(b"BC")
    } else {
        Text::of(b"GC")
    }
}

/// The text of a district, in its lines and its stock.
pub(crate) fn district_information(district: u32) -> Text<24>
    requires { district ≤ 10 }
    ensures { result ≡ plain_district_information district }
{
    numbered_text(b"dddddddddddddddddddddd", 2, district)
}
