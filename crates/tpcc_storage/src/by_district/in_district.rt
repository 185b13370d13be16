//! Rows of a district.
ghost use Rattle.std.specs.Prelude.{◌≡◌, take};
ghost use Rattle.tpcc_storage.specs.ByDistrict.{district_numbers};

use crate::keyed_row::SortedRow;
use tpcc_rows::{
    DistrictKey, NewOrderKey, NewOrderRow, OrderKey, OrderLineKey, OrderLineRow, OrderRow,
};

/// A row of a district: the key begins with the district's two numbers.
pub trait InDistrict: SortedRow + Copy {
    /// The district of the row.
    fn owner(&self) -> DistrictKey
        ensures { district_numbers result ≡ take 2 (Self.key self.now) };

    /// The district of the row that a key names.
    fn owner_of(key: &Self::Key) -> DistrictKey
        ensures { district_numbers result ≡ take 2 (Self.numbers key.now) };
}

impl InDistrict for OrderRow {
    fn owner(&self) -> DistrictKey {
        DistrictKey {
            warehouse: self.warehouse,
            district: self.district,
        }
    }

    fn owner_of(key: &OrderKey) -> DistrictKey {
        DistrictKey {
            warehouse: key.warehouse,
            district: key.district,
        }
    }
}

impl InDistrict for OrderLineRow {
    fn owner(&self) -> DistrictKey {
        DistrictKey {
            warehouse: self.warehouse,
            district: self.district,
        }
    }

    fn owner_of(key: &OrderLineKey) -> DistrictKey {
        DistrictKey {
            warehouse: key.warehouse,
            district: key.district,
        }
    }
}

impl InDistrict for NewOrderRow {
    fn owner(&self) -> DistrictKey {
        DistrictKey {
            warehouse: self.warehouse,
            district: self.district,
        }
    }

    fn owner_of(key: &NewOrderKey) -> DistrictKey {
        DistrictKey {
            warehouse: key.warehouse,
            district: key.district,
        }
    }
}
