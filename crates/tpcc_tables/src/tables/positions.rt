//! Whole tables, row by row.
ghost use Rattle.std.specs.Prelude.{◌≡◌, option_map};
ghost use Rattle.tpcc_tables.specs.Positions.{count_of, row_at, lent_row};

use super::Tables;
use tpcc_rows::{RowRef, Table};

impl Tables {
    /// How many rows a table has.
    #[tactic(auto, unfolding(crate::specs::Positions::count_of))]
    pub fn count(&self, table: Table) -> usize
        ensures { result ≡ count_of self.now.rows table }
    {
        match table {
            Table::Warehouse => self.warehouses.len(),
            Table::District => self.districts.len(),
            Table::Customer => self.customers.len(),
            Table::History => self.histories.len(),
            Table::Order => self.orders.len(),
            Table::OrderLine => self.order_lines.len(),
            Table::NewOrder => self.new_orders.len(),
            Table::Item => self.items.len(),
            Table::Stock => self.stocks.len(),
        }
    }

    /// The row at a place, from 0: in ascending order of keys, of HISTORY in order of appending.
    /// None behind the last row.
    #[tactic(auto, unfolding(crate::specs::Positions::row_at))]
    pub fn row(&self, table: Table, position: usize) -> Option<RowRef<'_>>
        ensures { option_map lent_row result ≡ row_at self.now.rows table position }
    {
        Some(match table {
            Table::Warehouse => RowRef::Warehouse(self.warehouses.get(position)?),
            Table::District => RowRef::District(self.districts.get(position)?),
            Table::Customer => RowRef::Customer(self.customers.get(position)?),
            Table::History => RowRef::History(self.histories.get(position)?),
            Table::Order => RowRef::Order(self.orders.get(position)?),
            Table::OrderLine => RowRef::OrderLine(self.order_lines.get(position)?),
            Table::NewOrder => RowRef::NewOrder(self.new_orders.copy_at(position)?),
            Table::Item => RowRef::Item(self.items.get(position)?),
            Table::Stock => RowRef::Stock(self.stocks.get(position)?),
        })
    }
}
