//! One row of any table, and the tables' names.
use crate::tables::rows::{
    CustomerRow, DistrictRow, HistoryRow, ItemRow, NewOrderRow, OrderLineRow, OrderRow, StockRow,
    WarehouseRow,
};

/// The nine tables (1.3).
#[derive(Clone, Copy, Debug, PartialEq, Eq)]
pub enum Table {
    /// WAREHOUSE.
    Warehouse,
    /// DISTRICT.
    District,
    /// CUSTOMER.
    Customer,
    /// HISTORY.
    History,
    /// ORDER.
    Order,
    /// ORDER-LINE.
    OrderLine,
    /// NEW-ORDER.
    NewOrder,
    /// ITEM.
    Item,
    /// STOCK.
    Stock,
}

impl Table {
    /// The tables in the order of the standard's clause 1.3.
    pub const ALL: [Table; 9] = [
        Table::Warehouse,
        Table::District,
        Table::Customer,
        Table::History,
        Table::Order,
        Table::OrderLine,
        Table::NewOrder,
        Table::Item,
        Table::Stock,
    ];
}

/// One row of one of the nine tables.
#[derive(Clone, Copy, PartialEq, Eq)]
pub enum Row {
    /// Of WAREHOUSE.
    Warehouse(WarehouseRow),
    /// Of DISTRICT.
    District(DistrictRow),
    /// Of CUSTOMER.
    Customer(CustomerRow),
    /// Of HISTORY.
    History(HistoryRow),
    /// Of ORDER.
    Order(OrderRow),
    /// Of ORDER-LINE.
    OrderLine(OrderLineRow),
    /// Of NEW-ORDER.
    NewOrder(NewOrderRow),
    /// Of ITEM.
    Item(ItemRow),
    /// Of STOCK.
    Stock(StockRow),
}

/// A row that stands in its table. NEW-ORDER rows are plain numbers and go out by value.
#[derive(Clone, Copy)]
pub enum RowRef<'a> {
    /// Of WAREHOUSE.
    Warehouse(&'a WarehouseRow),
    /// Of DISTRICT.
    District(&'a DistrictRow),
    /// Of CUSTOMER.
    Customer(&'a CustomerRow),
    /// Of HISTORY.
    History(&'a HistoryRow),
    /// Of ORDER.
    Order(&'a OrderRow),
    /// Of ORDER-LINE.
    OrderLine(&'a OrderLineRow),
    /// Of NEW-ORDER.
    NewOrder(NewOrderRow),
    /// Of ITEM.
    Item(&'a ItemRow),
    /// Of STOCK.
    Stock(&'a StockRow),
}
