//! Room for more rows in each part.
ghost use Rattle.std.specs.Prelude.{◌≡◌, ◌≤◌, ℕ, All, OnOk, map};
ghost use Rattle.tpcc_storage.specs.Internal.DistrictWords.{owner_and_rows, HasRoom};

use crate::by_district::in_district::InDistrict;
use crate::by_district::one_district::OneDistrict;
use crate::by_district::store::Store;
use tpcc_rows::NoMemory;

/// Room for so many more rows in each part. A refused growth leaves all rows and the room there was.
pub fn grow_all<T: InDistrict, S: Store<T>>(
    parts: &mut Vec<OneDistrict<T, S>>,
    room: usize,
) -> Result<(), NoMemory>
    ensures same { map owner_and_rows parts.new.items ≡ map owner_and_rows parts.old.items }
    ensures kept { (less : ℕ)
        → All (HasRoom less) parts.old.items → All (HasRoom less) parts.new.items }
    ensures grown { OnOk result (All (HasRoom room) parts.new.items) }
{
    for place in 0..parts.len() {
        parts[place].reserve(room)?;
    }
    Ok(())
}
