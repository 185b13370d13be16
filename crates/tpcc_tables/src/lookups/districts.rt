//! The rows of orders of one district.
ghost use Rattle.std.specs.Prelude.{◌≡◌, ◌==◌, ◌&&◌, filter, length, map, slice_get, true};
ghost use Rattle.tpcc_rows.specs.Lists.{largest, smallest, is_ascending};
ghost use Rattle.tpcc_rows.specs.Tables.{new_order_key, order_key};

use tpcc_rows::{DistrictKey, NewOrderRow, OrderLineRow, OrderRow};
use tpcc_storage::{DistrictVecs, PendingOrders};

/// The ORDER rows of a district.
pub fn orders(rows: &DistrictVecs<OrderRow>, warehouse: u32, district: u32) -> &[OrderRow]
    ensures { result.now
        ≡ filter (λ o. (o.warehouse == warehouse) && (o.district == district)) rows.now.rows }
{
    rows.part(DistrictKey {
        warehouse,
        district,
    })
}

/// The ORDER-LINE rows of a district.
pub fn lines(rows: &DistrictVecs<OrderLineRow>, warehouse: u32, district: u32) -> &[OrderLineRow]
    ensures { result.now
        ≡ filter (λ l. (l.warehouse == warehouse) && (l.district == district)) rows.now.rows }
{
    rows.part(DistrictKey {
        warehouse,
        district,
    })
}

/// How many NEW-ORDER rows a district has.
pub fn count_new(rows: &PendingOrders, warehouse: u32, district: u32) -> usize
    ensures { result ≡ length
        (filter (λ n. (n.warehouse == warehouse) && (n.district == district)) rows.now.rows) }
{
    rows.len_of(DistrictKey {
        warehouse,
        district,
    })
}

/// The NEW-ORDER row of a district at a place, from 0, in the order of numbers.
fn nth_new(rows: &PendingOrders, warehouse: u32, district: u32, place: usize) -> Option<NewOrderRow>
    ensures { result ≡ slice_get
        (filter (λ n. (n.warehouse == warehouse) && (n.district == district)) rows.now.rows) place }
{
    let owner = DistrictKey {
        warehouse,
        district,
    };
    rows.copy_of(owner, place)
}

/// The largest O_ID of a district.
pub fn newest_order(rows: &DistrictVecs<OrderRow>, warehouse: u32, district: u32) -> Option<u32>
    requires keyed { is_ascending order_key rows.now.rows ≡ true }
    ensures { result ≡ largest (map (λ o. o.id)
        (filter (λ o. (o.warehouse == warehouse) && (o.district == district)) rows.now.rows)) }
{
    match orders(rows, warehouse, district).last() {
        Some(row) => Some(row.id),
        None => None,
    }
}

/// The largest NO_O_ID of a district.
pub fn newest_new(rows: &PendingOrders, warehouse: u32, district: u32) -> Option<u32>
    requires keyed { is_ascending new_order_key rows.now.rows ≡ true }
    ensures { result ≡ largest (map (λ n. n.order)
        (filter (λ n. (n.warehouse == warehouse) && (n.district == district)) rows.now.rows)) }
{
    let last = count_new(rows, warehouse, district).saturating_sub(1);
    match nth_new(rows, warehouse, district, last) {
        Some(row) => Some(row.order),
        None => None,
    }
}

/// The smallest NO_O_ID of a district.
pub fn oldest_new(rows: &PendingOrders, warehouse: u32, district: u32) -> Option<u32>
    requires keyed { is_ascending new_order_key rows.now.rows ≡ true }
    ensures { result ≡ smallest (map (λ n. n.order)
        (filter (λ n. (n.warehouse == warehouse) && (n.district == district)) rows.now.rows)) }
{
    match nth_new(rows, warehouse, district, 0) {
        Some(row) => Some(row.order),
        None => None,
    }
}
