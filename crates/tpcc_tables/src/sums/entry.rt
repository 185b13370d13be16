//! The sums of one key.
ghost use Rattle.std.specs.Prelude.{◌≡◌, pos, None, ◌∷◌, []};
ghost use Rattle.tpcc_tables.specs.Internal.Sums.{no_warehouse_sums, no_district_sums, no_customer_sums};

use super::total::Total;
use tpcc_money::Cents;
use tpcc_rows::{CustomerKey, DistrictKey, WarehouseKey};
use tpcc_storage::{KeyedRow, SortedRow, places};

/// The sums of a warehouse.
#[derive(Clone, Copy)]
pub struct WarehouseSums {
    /// W_ID.
    pub warehouse: u32,
    /// H_AMOUNT of the payments into the warehouse.
    pub paid: Total,
}

/// The sums of a district.
#[derive(Clone, Copy)]
pub struct DistrictSums {
    /// D_W_ID.
    pub warehouse: u32,
    /// D_ID.
    pub district: u32,
    /// O_OL_CNT of its orders.
    pub counted_lines: u32,
    /// H_AMOUNT of the payments into the district.
    pub paid: Total,
}

/// The sums of a customer.
#[derive(Clone, Copy)]
pub struct CustomerSums {
    /// C_W_ID.
    pub warehouse: u32,
    /// C_D_ID.
    pub district: u32,
    /// C_ID.
    pub customer: u32,
    /// The largest O_ID of its orders, if there is one.
    pub last_order: Option<u32>,
    /// OL_AMOUNT of the delivered lines of its orders.
    pub delivered: Cents,
    /// H_AMOUNT of its payments.
    pub paid: Total,
}

impl WarehouseSums {
    /// The sums of a warehouse for which nothing is counted yet.
    pub fn none(warehouse: u32) -> WarehouseSums
        ensures { result ≡ no_warehouse_sums warehouse }
    {
        WarehouseSums {
            warehouse,
            paid: Total::zero(),
        }
    }
}

impl DistrictSums {
    /// The sums of a district for which nothing is counted yet.
    pub fn none(warehouse: u32, district: u32) -> DistrictSums
        ensures { result ≡ no_district_sums warehouse district }
    {
        DistrictSums {
            warehouse,
            district,
            counted_lines: 0,
            paid: Total::zero(),
        }
    }
}

impl CustomerSums {
    /// The sums of a customer for whom nothing is counted yet.
    pub fn none(warehouse: u32, district: u32, customer: u32) -> CustomerSums
        ensures { result ≡ no_customer_sums warehouse district customer }
    {
        CustomerSums {
            warehouse,
            district,
            customer,
            last_order: None,
            delivered: Cents::new(0),
            paid: Total::zero(),
        }
    }
}

impl KeyedRow for WarehouseSums {
    type Key = WarehouseKey;

    ghost use Rattle.tpcc_tables.specs.Internal.Sums.{warehouse_sums_key};

    ghost key = { warehouse_sums_key };

    ghost numbers = { λ k. k.warehouse ∷ [] };

    fn comes_before(&self, other: &WarehouseSums) -> bool {
        self.warehouse < other.warehouse
    }

    fn has_key(&self, sought: &WarehouseKey) -> bool {
        self.warehouse == sought.warehouse
    }

    fn likely_place(_sums: &[WarehouseSums], sought: &WarehouseKey) -> usize {
        places::after_first(1, sought.warehouse)
    }
}

impl SortedRow for WarehouseSums {
    fn is_before(&self, sought: &WarehouseKey) -> bool {
        self.warehouse < sought.warehouse
    }
}

impl KeyedRow for DistrictSums {
    type Key = DistrictKey;

    ghost use Rattle.tpcc_tables.specs.Internal.Sums.{district_sums_key};

    ghost key = { district_sums_key };

    ghost numbers = { λ k. k.warehouse ∷ k.district ∷ [] };

    fn comes_before(&self, other: &DistrictSums) -> bool {
        (self.warehouse, self.district) < (other.warehouse, other.district)
    }

    fn has_key(&self, sought: &DistrictKey) -> bool {
        self.warehouse == sought.warehouse && self.district == sought.district
    }

    fn likely_place(_sums: &[DistrictSums], sought: &DistrictKey) -> usize {
        places::of_district(sought.warehouse, sought.district)
    }
}

impl SortedRow for DistrictSums {
    fn is_before(&self, sought: &DistrictKey) -> bool {
        (self.warehouse, self.district) < (sought.warehouse, sought.district)
    }
}

impl KeyedRow for CustomerSums {
    type Key = CustomerKey;

    ghost use Rattle.tpcc_tables.specs.Internal.Sums.{customer_sums_key};

    ghost key = { customer_sums_key };

    ghost numbers = { λ k. k.warehouse ∷ k.district ∷ k.customer ∷ [] };

    fn comes_before(&self, other: &CustomerSums) -> bool {
        (self.warehouse, self.district, self.customer)
            < (other.warehouse, other.district, other.customer)
    }

    fn has_key(&self, sought: &CustomerKey) -> bool {
        self.warehouse == sought.warehouse
            && self.district == sought.district
            && self.customer == sought.customer
    }

    fn likely_place(sums: &[CustomerSums], sought: &CustomerKey) -> usize {
        let Some(last) = sums.last() else {
            return 0;
        };
        let before = places::of_district(sought.warehouse, sought.district);
        before
            .wrapping_mul(last.customer as usize)
            .wrapping_add(places::after_first(1, sought.customer))
    }
}

impl SortedRow for CustomerSums {
    fn is_before(&self, sought: &CustomerKey) -> bool {
        (self.warehouse, self.district, self.customer)
            < (sought.warehouse, sought.district, sought.customer)
    }
}
