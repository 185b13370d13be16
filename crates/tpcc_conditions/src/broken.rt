//! Where a condition does not hold.
ghost use Rattle.std.specs.Prelude.{◌≡◌};
ghost use Rattle.tpcc_rows.specs.Conditions as model;
ghost use Rattle.tpcc_conditions.specs.Broken.{as_model};

use tpcc_rows::{CustomerRow, DistrictRow, OrderLineRow, OrderRow, WarehouseRow};

/// A condition of clause 3.3.2 that does not hold, and the key of the first row at which it fails.
#[derive(Clone, Copy, Debug, PartialEq, Eq)]
pub struct Broken {
    /// 1 to 10 or 12.
    pub condition: u32,
    /// W_ID of the row.
    pub warehouse: u32,
    /// 0 where the row is a warehouse's.
    pub district: u32,
    /// The number of the order, or of the line's order, or of the customer; 0 of a warehouse or district.
    pub number: u32,
}

/// A condition that fails at a WAREHOUSE row.
pub fn at_warehouse(condition: u32, row: &WarehouseRow) -> Broken
    ensures { as_model result ≡ model.at_warehouse condition row.now }
{
    Broken {
        condition,
        warehouse: row.id,
        district: 0,
        number: 0,
    }
}

/// A condition that fails at a DISTRICT row.
pub fn at_district(condition: u32, row: &DistrictRow) -> Broken
    ensures { as_model result ≡ model.at_district condition row.now }
{
    Broken {
        condition,
        warehouse: row.warehouse,
        district: row.id,
        number: 0,
    }
}

/// A condition that fails at an ORDER row.
pub fn at_order(condition: u32, row: &OrderRow) -> Broken
    ensures { as_model result ≡ model.at_order condition row.now }
{
    Broken {
        condition,
        warehouse: row.warehouse,
        district: row.district,
        number: row.id,
    }
}

/// A condition that fails at an ORDER-LINE row; the line's own number is not told.
pub fn at_order_line(condition: u32, row: &OrderLineRow) -> Broken
    ensures { as_model result ≡ model.at_order_line condition row.now }
{
    Broken {
        condition,
        warehouse: row.warehouse,
        district: row.district,
        number: row.order,
    }
}

/// A condition that fails at a CUSTOMER row.
pub fn at_customer(condition: u32, row: &CustomerRow) -> Broken
    ensures { as_model result ≡ model.at_customer condition row.now }
{
    Broken {
        condition,
        warehouse: row.warehouse,
        district: row.district,
        number: row.id,
    }
}
