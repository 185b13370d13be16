//! Nine lists of rows that stand ready to be tables.

use tpcc_rows::{
    CustomerRow, DistrictRow, HistoryRow, ItemRow, NewOrderRow, OrderLineRow, OrderRow, StockRow,
    WarehouseRow,
};
use tpcc_storage::{DistrictVecs, KeyedRows, PendingOrders};

/// The rows of each table, in ascending key order; those of orders in parts of their districts.
#[derive(Drop)]
pub struct Lists {
    /// WAREHOUSE.
    pub warehouses: KeyedRows<WarehouseRow>,
    /// DISTRICT.
    pub districts: KeyedRows<DistrictRow>,
    /// CUSTOMER.
    pub customers: KeyedRows<CustomerRow>,
    /// HISTORY, whose rows have no key: in the order of appending.
    pub histories: Vec<HistoryRow>,
    /// ORDER.
    pub orders: DistrictVecs<OrderRow>,
    /// ORDER-LINE.
    pub order_lines: DistrictVecs<OrderLineRow>,
    /// NEW-ORDER.
    pub new_orders: PendingOrders,
    /// ITEM.
    pub items: KeyedRows<ItemRow>,
    /// STOCK.
    pub stocks: KeyedRows<StockRow>,
}
