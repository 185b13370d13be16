//! Rows that stand in a map under their keys.
ghost use Rattle.std.specs.Prelude.{◌≡◌};
ghost use Rattle.tpcc_storage.specs.Searches.{is_same_key};

use crate::keyed_row::KeyedRow;
use tpcc_rows::{
    CustomerKey, CustomerRow, DistrictKey, DistrictRow, ItemKey, ItemRow, StockKey, StockRow,
    WarehouseKey, WarehouseRow,
};

/// A row that can tell its key, so that it can stand in a map under it.
pub trait MapRow: KeyedRow + Copy {
    /// The key of this row.
    fn key_of(&self) -> Self::Key
        ensures { Self.numbers result ≡ Self.key self.now };

    /// Keys are equal where their numbers are.
    ghost same_keys: { (sought key : Self.Key) → Self.Key.eq sought key
        ≡ is_same_key (Self.numbers key) (Self.numbers sought) };
}

impl MapRow for WarehouseRow {
    ghost use Rattle.tpcc_storage.specs.Internal.MapKeys.{same_warehouse};

    ghost same_keys = { same_warehouse };

    fn key_of(&self) -> WarehouseKey {
        WarehouseKey { warehouse: self.id }
    }
}

impl MapRow for DistrictRow {
    ghost use Rattle.tpcc_storage.specs.Internal.MapKeys.{same_district};

    ghost same_keys = { same_district };

    fn key_of(&self) -> DistrictKey {
        DistrictKey {
            warehouse: self.warehouse,
            district: self.id,
        }
    }
}

impl MapRow for CustomerRow {
    ghost use Rattle.tpcc_storage.specs.Internal.MapKeys.{same_customer};

    ghost same_keys = { same_customer };

    fn key_of(&self) -> CustomerKey {
        CustomerKey {
            warehouse: self.warehouse,
            district: self.district,
            customer: self.id,
        }
    }
}

impl MapRow for ItemRow {
    ghost use Rattle.tpcc_storage.specs.Internal.MapKeys.{same_item};

    ghost same_keys = { same_item };

    fn key_of(&self) -> ItemKey {
        ItemKey { item: self.id }
    }
}

impl MapRow for StockRow {
    ghost use Rattle.tpcc_storage.specs.Internal.MapKeys.{same_stock};

    ghost same_keys = { same_stock };

    fn key_of(&self) -> StockKey {
        StockKey {
            warehouse: self.warehouse,
            item: self.item,
        }
    }
}
