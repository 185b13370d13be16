//! What is counted of one district.

/// What the consistency conditions count and compare of a district's orders.
#[derive(Clone, Copy)]
pub struct DistrictCounts {
    /// How many ORDER rows there are (3.3.2.11).
    pub orders: usize,
    /// How many NEW-ORDER rows there are (3.3.2.3).
    pub new_orders: usize,
    /// The largest O_ID (3.3.2.2), if there is an order.
    pub newest_order: Option<u32>,
    /// The largest NO_O_ID (3.3.2.2), if there is a row.
    pub newest_new: Option<u32>,
}
