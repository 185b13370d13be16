//! The number of a district's next order.
ghost use Rattle.std.specs.Prelude.{◌≡◌, ◌+◌, ◌<◌, ◌^◌, find, true, Some, refl};
ghost use Rattle.tpcc_rows.specs.declared.tables.rows.DistrictRow.{DistrictRow};
ghost use Rattle.tpcc_rows.specs.Lists.{updated, is_ascending};
ghost use Rattle.tpcc_rows.specs.Tables.{is_district, district_key};
ghost use Rattle.tpcc_rows.specs.NewOrder.{with_next_order};

use tpcc_rows::{DistrictKey, DistrictRow};
use tpcc_storage::{KeyedRows, RowChange};

/// D_NEXT_O_ID raised by one.
#[derive(Drop)]
struct NextOrderNumber;

impl RowChange<DistrictRow> for NextOrderNumber {
    ghost changed = { λ rise. with_next_order };

    ghost fits = { λ rise d. d.next_order + 1 < 2 ^ 32 };

    ghost keeps_key = { λ rise d. refl };

    fn apply(&self, row: &mut DistrictRow) {
        row.next_order += 1;
    }
}

/// The next order number of a district raised by one.
pub fn raise_next_order(rows: &mut KeyedRows<DistrictRow>, warehouse: u32, district: u32)
    requires keyed { is_ascending district_key rows.old.items ≡ true }
    requires fits { (d : DistrictRow) → find (is_district warehouse district) rows.old.items
        ≡ Some d → d.next_order + 1 < 2 ^ 32 }
    ensures { rows.new.items
        ≡ updated (is_district warehouse district) with_next_order rows.old.items }
{
    let key = DistrictKey {
        warehouse,
        district,
    };
    rows.change(&key, &NextOrderNumber);
}
