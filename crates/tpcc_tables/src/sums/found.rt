//! The sums of a key, which are nothing where no row has the key.
ghost use Rattle.std.specs.Prelude.{◌≡◌, find, true, unwrap_or, [], ◌∷◌};
ghost use Rattle.tpcc_rows.specs.Lists.{is_ascending};
ghost use Rattle.tpcc_tables.specs.Internal.Sums.{has_key, warehouse_sums_key, district_sums_key, customer_sums_key, no_warehouse_sums, no_district_sums, no_customer_sums};

use super::entry::{CustomerSums, DistrictSums, WarehouseSums};
use tpcc_rows::{CustomerKey, DistrictKey, WarehouseKey};
use tpcc_storage::search;

/// The sums of a warehouse.
pub fn of_warehouse(entries: &[WarehouseSums], warehouse: u32) -> WarehouseSums
    requires keyed { is_ascending warehouse_sums_key entries.now ≡ true }
    ensures { result ≡ unwrap_or (find (has_key warehouse_sums_key (warehouse ∷ [])) entries.now)
        (no_warehouse_sums warehouse) }
{
    match search::find(entries, &WarehouseKey { warehouse }) {
        Some(entry) => *entry,
        None => WarehouseSums::none(warehouse),
    }
}

/// The sums of a district.
pub fn of_district(entries: &[DistrictSums], warehouse: u32, district: u32) -> DistrictSums
    requires keyed { is_ascending district_sums_key entries.now ≡ true }
    ensures { result
        ≡ unwrap_or (find (has_key district_sums_key (warehouse ∷ district ∷ [])) entries.now)
        (no_district_sums warehouse district) }
{
    let key = DistrictKey {
        warehouse,
        district,
    };
    match search::find(entries, &key) {
        Some(entry) => *entry,
        None => DistrictSums::none(warehouse, district),
    }
}

/// The sums of a customer.
pub fn of_customer(
    entries: &[CustomerSums],
    warehouse: u32,
    district: u32,
    customer: u32,
) -> CustomerSums
    requires keyed { is_ascending customer_sums_key entries.now ≡ true }
    ensures { result ≡ unwrap_or (find
        (has_key customer_sums_key (warehouse ∷ district ∷ customer ∷ [])) entries.now)
        (no_customer_sums warehouse district customer) }
{
    let key = CustomerKey {
        warehouse,
        district,
        customer,
    };
    match search::find(entries, &key) {
        Some(entry) => *entry,
        None => CustomerSums::none(warehouse, district, customer),
    }
}
