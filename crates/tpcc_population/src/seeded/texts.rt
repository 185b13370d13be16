//! The drawn texts: last names, texts with ORIGINAL, a stock's texts for its districts.
ghost use Rattle.std.specs.Prelude.{◌≡◌, ◌+◌, ◌≤◌, length};
ghost use Rattle.tpcc_draws.specs.Draws.{answers};
ghost use Rattle.tpcc_population.specs.Seeded.{drawn_information, drawn_last, drawn_texts, with_original};
ghost use Rattle.tpcc_rows.specs.declared.limits.TheConstants.{GREATEST_CUSTOMER};

use tpcc_draws::{LAST_NAMES, Stream, last_name};
use tpcc_rows::Text;

// The name of the customer's number for the first thousand.
#[tactic(auto, unfolding(crate::specs::Seeded::drawn_last))]
pub(super) fn drawn_last(stream: &mut Stream, number: u32) -> Text<16>
    requires least { 1 ≤ number }
    requires most { number ≤ GREATEST_CUSTOMER }
    ensures drawn { (result, answers stream.new) ≡ drawn_last number (answers stream.old) }
{
    if number <= LAST_NAMES {
        last_name(number - 1)
    } else {
        last_name(stream.nurand(255, 100, 0, LAST_NAMES - 1))
    }
}

// The text with ORIGINAL in place of the eight bytes from a place on.
fn with_original(text: &Text<50>, place: usize) -> Text<50>
    requires inside { place + 8 ≤ length text.now }
    ensures text { result ≡ with_original place text.now }
{
    let bytes = text.bytes();
    let mut replaced = Text::of(&bytes[..place]);
    replaced.extend(b"ORIGINAL");
    replaced.extend(&bytes[place + 8..]);
    replaced
}

// A text of 26 to 50 letters and digits that one time in ten holds ORIGINAL.
#[tactic(auto, unfolding(crate::specs::Seeded::drawn_information))]
pub(super) fn drawn_information(stream: &mut Stream) -> Text<50>
    ensures drawn { (result, answers stream.new) ≡ drawn_information (answers stream.old) }
{
    let text = stream.a_string(26, 50);
    if stream.between(1, 10) != 1 {
        return text;
    }
    let place = stream.between(0, text.len() as u32 - 8);
    with_original(&text, place as usize)
}

// S_DIST_01 to S_DIST_10.
pub(super) fn drawn_texts(stream: &mut Stream) -> [Text<24>; 10]
    ensures drawn { (result, answers stream.new) ≡ drawn_texts 10 (answers stream.old) }
{
    let d1 = stream.a_string(24, 24);
    let d2 = stream.a_string(24, 24);
    let d3 = stream.a_string(24, 24);
    let d4 = stream.a_string(24, 24);
    let d5 = stream.a_string(24, 24);
    let d6 = stream.a_string(24, 24);
    let d7 = stream.a_string(24, 24);
    let d8 = stream.a_string(24, 24);
    let d9 = stream.a_string(24, 24);
    let d10 = stream.a_string(24, 24);
    [d1, d2, d3, d4, d5, d6, d7, d8, d9, d10]
}
