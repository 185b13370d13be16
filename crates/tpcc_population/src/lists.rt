//! The rows of an opening in three groups, so that a list that is refused memory lets few others go.
ghost use Rattle.std.specs.Prelude.{◌≡◌};
ghost use Rattle.tpcc_tables.specs.DistrictVecs.{listed};

use tpcc_rows::{
    CustomerRow, DistrictRow, HistoryRow, ItemRow, NewOrderRow, OrderLineRow, OrderRow, StockRow,
    WarehouseRow,
};
use tpcc_storage::{DistrictVecs, KeyedRows, PendingOrders};
use tpcc_tables::Lists;

/// The tables of warehouses, their districts and the customers there.
#[derive(Drop)]
pub(crate) struct HomeLists {
    /// By W_ID.
    pub warehouses: KeyedRows<WarehouseRow>,
    /// By D_W_ID and D_ID: 10 of each warehouse.
    pub districts: KeyedRows<DistrictRow>,
    /// By C_W_ID, C_D_ID and C_ID.
    pub customers: KeyedRows<CustomerRow>,
    /// One of each customer, in the customers' order.
    pub histories: Vec<HistoryRow>,
}

/// The tables of orders, in parts of their districts.
#[derive(Drop)]
pub(crate) struct OrderLists {
    /// One of each customer.
    pub orders: DistrictVecs<OrderRow>,
    /// As many of each order as its O_OL_CNT.
    pub order_lines: DistrictVecs<OrderLineRow>,
    /// One of each order that is not delivered.
    pub new_orders: PendingOrders,
}

/// The tables of items and of their stock.
#[derive(Drop)]
pub(crate) struct GoodsLists {
    /// By I_ID.
    pub items: KeyedRows<ItemRow>,
    /// By S_W_ID and S_I_ID: one of each item in each warehouse.
    pub stocks: KeyedRows<StockRow>,
}

/// All nine.
pub(crate) fn join(homes: HomeLists, orders: OrderLists, goods: GoodsLists) -> Lists
    ensures { listed result
        ≡ record {
          warehouses = homes.warehouses.items;
          districts = homes.districts.items;
          customers = homes.customers.items;
          histories = homes.histories.items;
          orders = orders.orders.rows;
          order_lines = orders.order_lines.rows;
          new_orders = orders.new_orders.rows;
          items = goods.items.items;
          stocks = goods.stocks.items;
        } }
{
    Lists {
        warehouses: homes.warehouses,
        districts: homes.districts,
        customers: homes.customers,
        histories: homes.histories,
        orders: orders.orders,
        order_lines: orders.order_lines,
        new_orders: orders.new_orders,
        items: goods.items,
        stocks: goods.stocks,
    }
}
