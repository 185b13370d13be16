//! Rows in order, read into parts district by district.
ghost use Rattle.std.specs.Prelude.{◌≡◌, ◌<◌, IfOk, length, not, take, true};
ghost use Rattle.std.specs.List.{prefix_len};
ghost use Rattle.tpcc_rows.specs.Lists.{is_ascending, key_before};
ghost use Rattle.tpcc_storage.specs.ByDistrict.{district_numbers};
ghost use Rattle.tpcc_storage.specs.Internal.DistrictWords.{AreRead};

use crate::by_district::in_district::InDistrict;
use crate::by_district::one_district::OneDistrict;
use crate::by_district::place::is_before;
use crate::by_district::store::Store;
use std::alloc::Global;
use tpcc_rows::{DistrictKey, NoMemory};

/// How many rows at the front are not of a later district.
fn run_len<T: InDistrict>(rows: &[T], owner: DistrictKey) -> usize
    requires keyed { is_ascending T.key rows.now ≡ true }
    ensures { result ≡ prefix_len
        (λ row. not (key_before (district_numbers owner) (take 2 (T.key row)))) rows.now }
{
    rows.partition_point(
        |row: &T| -> bool
            ensures { result ≡ not (key_before (district_numbers owner) (take 2 (T.key row.now))) }
        { !is_before(owner, row.owner()) },
    )
}

/// One more part, of the rows from a place on that are of one district; gives the place after them.
pub fn read_run<T: InDistrict, S: Store<T>>(
    parts: &mut Vec<OneDistrict<T, S>>,
    rows: &[T],
    start: usize,
    alloc: Global,
) -> Result<usize, NoMemory>
    requires keyed { is_ascending T.key rows.now ≡ true }
    requires more { start < length rows.now }
    requires read { AreRead T.key rows.now start parts.old.items }
    ensures { IfOk result (λ end. (start < end) × AreRead T.key rows.now end parts.new.items) }
{
    let rest = &rows[start..];
    let owner = rest[0].owner();
    let count = run_len(rest, owner);
    let run = S::of_rows(&rest[..count], alloc)?;
    parts.push(OneDistrict::new(owner, run))?;
    Ok(start + count)
}
