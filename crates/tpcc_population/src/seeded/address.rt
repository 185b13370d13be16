//! The addresses of the drawn opening.
ghost use Rattle.std.specs.Prelude.{◌≡◌};
ghost use Rattle.tpcc_draws.specs.Draws.{answers};
ghost use Rattle.tpcc_population.specs.Seeded.{drawn_zip, drawn_address};

use tpcc_draws::Stream;
use tpcc_rows::{Address, Text};

// Four digits and five ones.
#[tactic(auto, unfolding(crate::specs::Seeded::drawn_zip))]
fn zip(stream: &mut Stream) -> Text<9>
    ensures drawn { (result, answers stream.new) ≡ drawn_zip (answers stream.old) }
{
    let mut zip: Text<9> = stream.n_string(4, 4);
    zip.extend(b"11111");
    zip
}

#[tactic(auto, unfolding(crate::specs::Seeded::drawn_address))]
pub(super) fn drawn_address(stream: &mut Stream) -> Address
    ensures drawn { (result, answers stream.new) ≡ drawn_address (answers stream.old) }
{
    let street_1 = stream.a_string(10, 20);
    let street_2 = stream.a_string(10, 20);
    let city = stream.a_string(10, 20);
    let state = stream.a_string(2, 2);
    let zip = zip(stream);
    Address {
        street_1,
        street_2,
        city,
        state,
        zip,
    }
}
