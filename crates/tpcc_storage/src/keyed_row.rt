//! Rows with a primary key.
ghost use Rattle.std.specs.Prelude.{[], ◌∷◌, ◌≡◌};
ghost use Rattle.tpcc_rows.specs.Lists.{key_before};
ghost use Rattle.tpcc_storage.specs.Searches.{is_same_key};

use crate::places;
use std::hash::Hash;
use tpcc_rows::{
    CustomerKey, CustomerRow, DistrictKey, DistrictRow, ItemKey, ItemRow, NewOrderKey, NewOrderRow,
    OrderKey, OrderLineKey, OrderLineRow, OrderRow, StockKey, StockRow, WarehouseKey, WarehouseRow,
};

/// A row whose key is a list of numbers; the first that differs decides.
pub trait KeyedRow: Sized {
    ghost use Rattle.std.specs.Prelude.{ℕ, List};

    /// The columns of the key alone.
    type Key: Copy + Eq + Hash;

    /// The key of a row, as the list of its numbers.
    ghost key: { Self → List ℕ };

    /// The numbers of a key, in the same order.
    ghost numbers: { Self.Key → List ℕ };

    /// Whether this row's key is before another row's.
    fn comes_before(&self, other: &Self) -> bool
        ensures { result ≡ key_before (key self.now) (key other.now) };

    /// Whether this row is the one of a key.
    fn has_key(&self, sought: &Self::Key) -> bool
        ensures { result ≡ is_same_key (key self.now) (numbers sought.now) };

    /// Where the row of a key stands, if no number is missing before it. It may be any place: a
    /// search looks whether the row is there.
    fn likely_place(rows: &[Self], sought: &Self::Key) -> usize;
}

/// A row of lists, in which it is searched by halves where the likely place has another one.
pub trait SortedRow: KeyedRow {
    /// Whether this row's key is before a sought one.
    fn is_before(&self, sought: &Self::Key) -> bool
        ensures { result ≡ key_before (Self.key self.now) (Self.numbers sought.now) };
}

impl KeyedRow for WarehouseRow {
    type Key = WarehouseKey;

    ghost use Rattle.tpcc_rows.specs.Tables.{warehouse_key};

    ghost key = { warehouse_key };

    ghost numbers = { λ k. k.warehouse ∷ [] };

    fn comes_before(&self, other: &WarehouseRow) -> bool {
        self.id < other.id
    }

    fn has_key(&self, sought: &WarehouseKey) -> bool {
        self.id == sought.warehouse
    }

    fn likely_place(_rows: &[WarehouseRow], sought: &WarehouseKey) -> usize {
        places::after_first(1, sought.warehouse)
    }
}

impl KeyedRow for DistrictRow {
    type Key = DistrictKey;

    ghost use Rattle.tpcc_rows.specs.Tables.{district_key};

    ghost key = { district_key };

    ghost numbers = { λ k. k.warehouse ∷ k.district ∷ [] };

    fn comes_before(&self, other: &DistrictRow) -> bool {
        (self.warehouse, self.id) < (other.warehouse, other.id)
    }

    fn has_key(&self, sought: &DistrictKey) -> bool {
        self.warehouse == sought.warehouse && self.id == sought.district
    }

    fn likely_place(_rows: &[DistrictRow], sought: &DistrictKey) -> usize {
        places::of_district(sought.warehouse, sought.district)
    }
}

impl KeyedRow for CustomerRow {
    type Key = CustomerKey;

    ghost use Rattle.tpcc_rows.specs.Tables.{customer_key};

    ghost key = { customer_key };

    ghost numbers = { λ k. k.warehouse ∷ k.district ∷ k.customer ∷ [] };

    fn comes_before(&self, other: &CustomerRow) -> bool {
        (self.warehouse, self.district, self.id) < (other.warehouse, other.district, other.id)
    }

    fn has_key(&self, sought: &CustomerKey) -> bool {
        self.warehouse == sought.warehouse
            && self.district == sought.district
            && self.id == sought.customer
    }

    fn likely_place(rows: &[CustomerRow], sought: &CustomerKey) -> usize {
        let Some(last) = rows.last() else {
            return 0;
        };
        let before = places::of_district(sought.warehouse, sought.district);
        before
            .wrapping_mul(last.id as usize)
            .wrapping_add(places::after_first(1, sought.customer))
    }
}

impl KeyedRow for OrderRow {
    type Key = OrderKey;

    ghost use Rattle.tpcc_rows.specs.Tables.{order_key};

    ghost key = { order_key };

    ghost numbers = { λ k. k.warehouse ∷ k.district ∷ k.order ∷ [] };

    fn comes_before(&self, other: &OrderRow) -> bool {
        (self.warehouse, self.district, self.id) < (other.warehouse, other.district, other.id)
    }

    fn has_key(&self, sought: &OrderKey) -> bool {
        self.warehouse == sought.warehouse
            && self.district == sought.district
            && self.id == sought.order
    }

    fn likely_place(rows: &[OrderRow], sought: &OrderKey) -> usize {
        let Some(first) = rows.first() else {
            return 0;
        };
        places::after_first(first.id, sought.order)
    }
}

impl SortedRow for OrderRow {
    fn is_before(&self, sought: &OrderKey) -> bool {
        (self.warehouse, self.district, self.id) < (sought.warehouse, sought.district, sought.order)
    }
}

impl KeyedRow for OrderLineRow {
    type Key = OrderLineKey;

    ghost use Rattle.tpcc_rows.specs.Tables.{order_line_key};

    ghost key = { order_line_key };

    ghost numbers = { λ k. k.warehouse ∷ k.district ∷ k.order ∷ k.number ∷ [] };

    fn comes_before(&self, other: &OrderLineRow) -> bool {
        (self.warehouse, self.district, self.order, self.number)
            < (other.warehouse, other.district, other.order, other.number)
    }

    fn has_key(&self, sought: &OrderLineKey) -> bool {
        self.warehouse == sought.warehouse
            && self.district == sought.district
            && self.order == sought.order
            && self.number == sought.number
    }

    fn likely_place(rows: &[OrderLineRow], _sought: &OrderLineKey) -> usize {
        rows.len()
    }
}

impl SortedRow for OrderLineRow {
    fn is_before(&self, sought: &OrderLineKey) -> bool {
        (self.warehouse, self.district, self.order, self.number)
            < (
                sought.warehouse,
                sought.district,
                sought.order,
                sought.number,
            )
    }
}

impl KeyedRow for NewOrderRow {
    type Key = NewOrderKey;

    ghost use Rattle.tpcc_rows.specs.Tables.{new_order_key};

    ghost key = { new_order_key };

    ghost numbers = { λ k. k.warehouse ∷ k.district ∷ k.order ∷ [] };

    fn comes_before(&self, other: &NewOrderRow) -> bool {
        (self.warehouse, self.district, self.order) < (other.warehouse, other.district, other.order)
    }

    fn has_key(&self, sought: &NewOrderKey) -> bool {
        self.warehouse == sought.warehouse
            && self.district == sought.district
            && self.order == sought.order
    }

    fn likely_place(rows: &[NewOrderRow], sought: &NewOrderKey) -> usize {
        let Some(first) = rows.first() else {
            return 0;
        };
        places::after_first(first.order, sought.order)
    }
}

impl SortedRow for NewOrderRow {
    fn is_before(&self, sought: &NewOrderKey) -> bool {
        (self.warehouse, self.district, self.order)
            < (sought.warehouse, sought.district, sought.order)
    }
}

impl KeyedRow for ItemRow {
    type Key = ItemKey;

    ghost use Rattle.tpcc_rows.specs.Tables.{item_key};

    ghost key = { item_key };

    ghost numbers = { λ k. k.item ∷ [] };

    fn comes_before(&self, other: &ItemRow) -> bool {
        self.id < other.id
    }

    fn has_key(&self, sought: &ItemKey) -> bool {
        self.id == sought.item
    }

    fn likely_place(_rows: &[ItemRow], sought: &ItemKey) -> usize {
        places::after_first(1, sought.item)
    }
}

impl KeyedRow for StockRow {
    type Key = StockKey;

    ghost use Rattle.tpcc_rows.specs.Tables.{stock_key};

    ghost key = { stock_key };

    ghost numbers = { λ k. k.warehouse ∷ k.item ∷ [] };

    fn comes_before(&self, other: &StockRow) -> bool {
        (self.warehouse, self.item) < (other.warehouse, other.item)
    }

    fn has_key(&self, sought: &StockKey) -> bool {
        self.warehouse == sought.warehouse && self.item == sought.item
    }

    fn likely_place(rows: &[StockRow], sought: &StockKey) -> usize {
        let Some(last) = rows.last() else {
            return 0;
        };
        places::of_group(sought.warehouse, last.item, sought.item)
    }
}
