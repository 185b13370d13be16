//! Rows found by their keys: in maps, in ascending lists, and in a list for each district.
//!
//! A row tells its key (`KeyedRow`); the rows of a list are searched by halves (`SortedRow`). `KeyedRows` is a map whose rows stand in the
//! order of their keys. `ByDistrict` keeps the rows of orders in a list for each district, so that a new order is pushed and no row of
//! another district moves. `Names` finds customers by their last names.
#![tactic(auto)]

mod by_district;
pub mod insertion;
mod keyed_row;
mod keyed_rows;
mod map_row;
mod names;
pub mod places;
mod row_change;
pub mod search;

pub use by_district::ByDistrict;
pub use by_district::district_vecs::DistrictVecs;
pub use by_district::in_district::InDistrict;
pub use by_district::pending::PendingOrders;
pub use by_district::store::Store;
pub use keyed_row::{KeyedRow, SortedRow};
pub use keyed_rows::KeyedRows;
pub use map_row::MapRow;
pub use names::{CustomerName, Names};
pub use row_change::RowChange;
