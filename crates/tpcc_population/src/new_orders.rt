//! NEW-ORDER, the same in both openings.
ghost use Rattle.std.specs.Prelude.{◌≡◌};
ghost use Rattle.tpcc_rows.specs.Opening.{plain_new_order};

use tpcc_rows::NewOrderRow;

pub(crate) fn opening_new_order(warehouse: u32, district: u32, order: u32) -> NewOrderRow
    ensures { result ≡ plain_new_order warehouse district order }
{
    NewOrderRow {
        order,
        district,
        warehouse,
    }
}
