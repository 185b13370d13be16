//! The parts of districts in ascending order, found and put in by their districts' numbers.
ghost use Rattle.std.specs.Prelude.{◌≡◌, OnOk, OnErr, true};
ghost use Rattle.tpcc_rows.specs.Lists.{is_ascending, key_before};
ghost use Rattle.tpcc_storage.specs.ByDistrict.{district_numbers};
ghost use Rattle.tpcc_storage.specs.Internal.DistrictWords.{part_numbers, IsOpened};

use crate::by_district::in_district::InDistrict;
use crate::by_district::one_district::OneDistrict;
use crate::by_district::store::Store;
use crate::keyed_row::{KeyedRow, SortedRow};
use crate::{insertion, places};
use std::alloc::Global;
use tpcc_rows::{DistrictKey, NoMemory};

/// Whether a district stands before another one: by warehouse, then by its own number.
pub fn is_before(key: DistrictKey, other: DistrictKey) -> bool
    ensures { result ≡ key_before (district_numbers key) (district_numbers other) }
{
    (key.warehouse, key.district) < (other.warehouse, other.district)
}

impl<T: InDistrict, S: Store<T>> KeyedRow for OneDistrict<T, S> {
    type Key = DistrictKey;

    ghost use Rattle.tpcc_storage.specs.ByDistrict.{district_numbers};
    ghost use Rattle.tpcc_storage.specs.Internal.DistrictWords.{part_numbers};

    ghost key = { part_numbers };

    ghost numbers = { district_numbers };

    fn comes_before(&self, other: &OneDistrict<T, S>) -> bool {
        is_before(self.owner(), other.owner())
    }

    fn has_key(&self, sought: &DistrictKey) -> bool {
        let owner = self.owner();
        owner.warehouse == sought.warehouse && owner.district == sought.district
    }

    fn likely_place(_parts: &[OneDistrict<T, S>], sought: &DistrictKey) -> usize {
        places::of_district(sought.warehouse, sought.district)
    }
}

impl<T: InDistrict, S: Store<T>> SortedRow for OneDistrict<T, S> {
    fn is_before(&self, sought: &DistrictKey) -> bool {
        is_before(self.owner(), *sought)
    }
}

/// A part for a district that has none, with room for so many rows.
pub fn open_district<T: InDistrict, S: Store<T>>(
    parts: &mut Vec<OneDistrict<T, S>>,
    owner: DistrictKey,
    room: usize,
    alloc: Global,
) -> Result<(), NoMemory>
    requires rising { is_ascending part_numbers parts.old.items ≡ true }
    ensures opened { OnOk result (IsOpened owner room parts.old.items parts.new.items) }
    ensures same { OnErr result (parts.new.items ≡ parts.old.items) }
{
    let rows = S::with_room(room, alloc)?;
    insertion::insert(parts, OneDistrict::new(owner, rows))
}
