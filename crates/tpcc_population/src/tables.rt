//! The tables of an opening: each list in the order of its key.
ghost use Rattle.tpcc_rows.specs.Layout.{laid_out};
ghost use Rattle.tpcc_rows.specs.WellKeyed.{IsKeyed};

mod customers;
mod goods;
mod homes;
mod orders;

use crate::rules::RowRules;
pub(crate) use customers::{customers, histories};
pub(crate) use goods::{items, stocks};
pub(crate) use homes::{districts, warehouses};
pub(crate) use orders::{new_orders, order_lines, orders};
use tpcc_rows::recall;

/// Each table is in the order of its key.
pub(crate) fn is_keyed<R: RowRules>(rules: R)
    ensures { IsKeyed (laid_out (R.sizes rules) (R.rules rules)) }
{
    // For the proof: the conditions hold of the opening.
    recall!(rules.is_sound());
}
