//! Room for the rows of orders to come.
ghost use Rattle.std.specs.Prelude.{◌≡◌, ◌≤◌, OnOk, true};
ghost use Rattle.tpcc_tables.specs.Internal.Ready.{is_open, IsKept, IsOpen};

use tpcc_rows::{DistrictKey, DistrictRow, NoMemory, OrderLineRow, OrderRow};
use tpcc_storage::{ByDistrict, DistrictVecs, InDistrict, PendingOrders, Store};

// A part for each of the districts.
fn open_all<T: InDistrict, S: Store<T>>(
    parts: &mut ByDistrict<T, S>,
    districts: &[DistrictRow],
) -> Result<(), NoMemory>
    ensures kept { IsKept parts.old parts.new }
    ensures opened { OnOk result (is_open parts.new.owners districts.now ≡ true) }
{
    for district in districts {
        parts.open(DistrictKey {
            warehouse: district.warehouse,
            district: district.id,
        })?;
    }
    Ok(())
}

/// A part of each of the three tables for each of the districts. A refused growth leaves the rows and their room as they were.
pub fn open(
    orders: &mut DistrictVecs<OrderRow>,
    lines: &mut DistrictVecs<OrderLineRow>,
    news: &mut PendingOrders,
    districts: &[DistrictRow],
) -> Result<(), NoMemory>
    ensures orders { IsKept orders.old orders.new }
    ensures lines { IsKept lines.old lines.new }
    ensures news { IsKept news.old news.new }
    ensures opened { OnOk result (IsOpen districts.now orders.new lines.new news.new) }
{
    open_all(orders, districts)?;
    open_all(lines, districts)?;
    open_all(news, districts)
}

/// Room for so many rows more in each part. Where there is less, room is made for many orders at
/// once, since each part has to grow.
pub fn make<T: InDistrict, S: Store<T>>(
    parts: &mut ByDistrict<T, S>,
    wanted: usize,
    spare: usize,
) -> Result<(), NoMemory>
    ensures rows { parts.new.rows ≡ parts.old.rows }
    ensures owners { parts.new.owners ≡ parts.old.owners }
    ensures kept { parts.old.room ≤ parts.new.room }
    ensures made { OnOk result (wanted ≤ parts.new.room) }
{
    if parts.room() < wanted {
        parts.reserve(wanted.max(spare))?;
    }
    Ok(())
}
