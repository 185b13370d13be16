//! The lines of one order, and of orders in a row, which lie side by side in their district's part.
ghost use Rattle.std.specs.Prelude.{◌≡◌, ◌≤◌, filter, true, Some};
ghost use Rattle.tpcc_rows.specs.Lists.{is_ascending, updated};
ghost use Rattle.tpcc_rows.specs.Tables.{is_line_of, order_line_key};
ghost use Rattle.tpcc_storage.specs.Runs.{is_line_between};

use crate::by_district::district_vecs::DistrictVecs;
use crate::by_district::runs;
use crate::search::place_of;
use tpcc_money::Moment;
use tpcc_rows::{DistrictKey, OrderLineRow};

impl DistrictVecs<OrderLineRow> {
    /// The lines of an order.
    pub fn lines_of(&self, warehouse: u32, district: u32, order: u32) -> &[OrderLineRow]
        requires keyed { is_ascending order_line_key self.now.rows ≡ true }
        ensures { result.now ≡ filter (is_line_of warehouse district order) self.now.rows }
    {
        let part = self.part(DistrictKey {
            warehouse,
            district,
        });
        runs::lines_of(part, warehouse, district, order)
    }

    /// The lines of a district's orders from number `first` on, and below `next`.
    pub fn lines_between(
        &self,
        warehouse: u32,
        district: u32,
        first: u32,
        next: u32,
    ) -> &[OrderLineRow]
        requires keyed { is_ascending order_line_key self.now.rows ≡ true }
        requires order { first ≤ next }
        ensures { result.now
            ≡ filter (is_line_between warehouse district first next) self.now.rows }
    {
        let part = self.part(DistrictKey {
            warehouse,
            district,
        });
        runs::lines_between(part, warehouse, district, first, next)
    }

    /// The moment of delivery of an order's lines, set.
    pub fn stamp(&mut self, warehouse: u32, district: u32, order: u32, moment: Moment)
        requires keyed { is_ascending order_line_key self.old.rows ≡ true }
        ensures rows { self.new.rows ≡ updated (is_line_of warehouse district order)
            (λ l. record l { delivered = Some moment }) self.old.rows }
        ensures owners { self.new.owners ≡ self.old.owners }
        ensures room { self.new.room ≡ self.old.room }
    {
        let owner = DistrictKey {
            warehouse,
            district,
        };
        let Some(place) = place_of(self.parts.as_slice(), &owner) else {
            return;
        };
        self.parts[place].stamp(warehouse, district, order, moment);
    }
}
