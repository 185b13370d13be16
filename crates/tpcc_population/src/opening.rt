//! The openings: the rows that the tables start with.
ghost use Rattle.tpcc_population.specs.Opening.{opening_rows, opening_scale, seeded_rows, IsSoundOpening};
ghost use Rattle.tpcc_rows.specs.Opening.{plain_rows};

use crate::scale::Scale;
use tpcc_money::Moment;
use tpcc_rows::recall;

/// How the tables start: each row by its numbers alone, or drawn from its own stream.
#[derive(Clone, Copy)]
pub enum Opening {
    /// Each row is a plain formula of its numbers.
    Plain {
        /// How large the tables start.
        scale: Scale,
    },
    /// Each row is drawn from a stream of its own (4.3.2), named by the seed, the table and the row.
    Seeded {
        /// How large the tables start.
        scale: Scale,
        /// The seed of all streams.
        seed: u64,
        /// C_SINCE, H_DATE, O_ENTRY_D and, of a delivered order, OL_DELIVERY_D of each row.
        moment: Moment,
    },
}

/// Each opening is well-keyed, stocked and consistent, at every scale.
pub fn opening_is_sound(opening: Opening)
    ensures { IsSoundOpening (opening_scale opening).customers (opening_rows opening) }
{
    match opening {
        Opening::Plain { scale } => plain_is_sound(scale),
        Opening::Seeded {
            scale,
            seed,
            moment,
        } => seeded_is_sound(scale, seed, moment),
    }
}

pub(crate) fn plain_is_sound(scale: Scale)
    ensures { IsSoundOpening scale.customers (plain_rows scale) }
{
    // For the proof: the scale is in its ranges.
    recall!(scale.customers());
}

pub(crate) fn seeded_is_sound(scale: Scale, seed: u64, moment: Moment)
    ensures { IsSoundOpening scale.customers
        (seeded_rows (record { scale = scale; seed = seed; moment = moment })) }
{
    // For the proof: the scale is in its ranges; the moment is in its range.
    recall!(scale.customers());
    recall!(moment.seconds());
}
