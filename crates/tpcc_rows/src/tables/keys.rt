//! The primary keys of the eight keyed tables (1.3). HISTORY has none.
//!
//! Keys are ordered as the tables are: the warehouse first, then the district,
//! then the row's own number.

/// W_ID.
#[derive(Clone, Copy, PartialEq, Eq, Hash)]
pub struct WarehouseKey {
    /// W_ID.
    pub warehouse: u32,
}

/// (D_W_ID, D_ID).
#[derive(Clone, Copy, PartialEq, Eq, Hash)]
pub struct DistrictKey {
    /// D_W_ID.
    pub warehouse: u32,
    /// D_ID.
    pub district: u32,
}

/// (C_W_ID, C_D_ID, C_ID).
#[derive(Clone, Copy, PartialEq, Eq, Hash)]
pub struct CustomerKey {
    /// C_W_ID.
    pub warehouse: u32,
    /// C_D_ID.
    pub district: u32,
    /// C_ID.
    pub customer: u32,
}

/// (NO_W_ID, NO_D_ID, NO_O_ID).
#[derive(Clone, Copy, PartialEq, Eq, Hash)]
pub struct NewOrderKey {
    /// NO_W_ID.
    pub warehouse: u32,
    /// NO_D_ID.
    pub district: u32,
    /// NO_O_ID.
    pub order: u32,
}

/// (O_W_ID, O_D_ID, O_ID).
#[derive(Clone, Copy, PartialEq, Eq, Hash)]
pub struct OrderKey {
    /// O_W_ID.
    pub warehouse: u32,
    /// O_D_ID.
    pub district: u32,
    /// O_ID.
    pub order: u32,
}

/// (OL_W_ID, OL_D_ID, OL_O_ID, OL_NUMBER).
#[derive(Clone, Copy, PartialEq, Eq, Hash)]
pub struct OrderLineKey {
    /// OL_W_ID.
    pub warehouse: u32,
    /// OL_D_ID.
    pub district: u32,
    /// OL_O_ID.
    pub order: u32,
    /// OL_NUMBER.
    pub number: u32,
}

/// I_ID.
#[derive(Clone, Copy, PartialEq, Eq, Hash)]
pub struct ItemKey {
    /// I_ID.
    pub item: u32,
}

/// (S_W_ID, S_I_ID).
#[derive(Clone, Copy, PartialEq, Eq, Hash)]
pub struct StockKey {
    /// S_W_ID.
    pub warehouse: u32,
    /// S_I_ID.
    pub item: u32,
}
