//! The nine tables' rows, the requests and replies of the five transactions, and
//! the model of order entry that every contract cites (`specs/`).
#![tactic(auto)]

pub mod limits;
mod memory;
mod recall;
mod tables;
mod transactions;
mod values;

pub use memory::NoMemory;
pub use tables::keys::{
    CustomerKey, DistrictKey, ItemKey, NewOrderKey, OrderKey, OrderLineKey, StockKey, WarehouseKey,
};
pub use tables::row::{Row, RowRef, Table};
pub use tables::rows::{
    Address, CustomerRow, DistrictRow, HistoryRow, ItemRow, NewOrderRow, OrderLineRow, OrderRow,
    StockRow, WarehouseRow,
};
pub use transactions::entry::Entry;
pub use transactions::refusals::{Field, Refusal};
pub use transactions::replies::{
    AcceptedOrder, Brand, Delivered, Delivery, DistrictDelivery, Entered, EnteredLine,
    EnteredLines, LastOrder, Level, Paid, Reply, RolledBackOrder, Status, StatusLine, StatusLines,
};
pub use transactions::requests::{
    Line, Lines, Order, Payment, QueuedTicket, Request, StatusQuery, StockQuery, Ticket, Who,
};
pub use values::few::{Few, Filler};
pub use values::text::{Text, TextFault, are_plain};
