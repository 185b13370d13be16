//! Orders of one district that wait, numbered one after another.
ghost use Rattle.std.specs.Prelude.{◌≡◌, ◌++◌, ◌∷◌, ◌-◌, ◌<◌, ◌≤◌, ◌^◌, [], IfSome, IsTrue, IsFalse, length, position, remove, slice_get, true};
ghost use Rattle.tpcc_rows.specs.Lists.{is_ascending};
ghost use Rattle.tpcc_rows.specs.Tables.{new_order_key};
ghost use Rattle.tpcc_storage.specs.Searches.{is_same_key};

use crate::keyed_row::KeyedRow;
use std::marker::Model;
use tpcc_rows::{NewOrderKey, NewOrderRow};

/// NEW-ORDER rows of one district, of which each has the number after the one before it: they are
/// told by the first and by the number after the last.
#[derive(Drop)]
pub struct OrderRange {
    /// The oldest row, where there is one.
    first: NewOrderRow,
    /// The number after the newest; where there is no row, that of `first`.
    next: u32,
}

impl Model for OrderRange {
    ghost use Rattle.std.specs.Prelude.{List};
    ghost use Rattle.tpcc_rows.specs.declared.tables.rows.NewOrderRow.{NewOrderRow};

    ghost Value = { List NewOrderRow };

    ghost use Rattle.tpcc_storage.specs.Internal.OrderRangeView.{rows_of_range, IsRange};

    ghost view = { rows_of_range };

    ghost invariant = { IsRange };
}

impl OrderRange {
    /// No rows.
    pub fn new() -> OrderRange
        ensures { result ≡ [] }
    {
        OrderRange {
            first: NewOrderRow {
                order: 0,
                district: 0,
                warehouse: 0,
            },
            next: 0,
        }
    }

    /// These rows, where each has the number after the one before it.
    pub fn of_rows(rows: &[NewOrderRow]) -> Option<OrderRange>
        ensures { IfSome result (λ range. range ≡ rows.now) }
    {
        let mut range = OrderRange::new();
        for row in rows {
            if !range.push(*row) {
                return None;
            }
        }
        Some(range)
    }

    /// How many rows there are.
    pub fn len(&self) -> usize
        ensures len { result ≡ length self.now }
        ensures few { result < 2 ^ 32 }
    {
        (self.next - self.first.order) as usize
    }

    /// The row at a place, from 0.
    pub fn get(&self, place: usize) -> Option<NewOrderRow>
        ensures { result ≡ slice_get self.now place }
    {
        if place >= (self.next - self.first.order) as usize {
            return None;
        }
        let mut row = self.first;
        row.order += place as u32;
        Some(row)
    }

    /// The place of the row of a key.
    pub fn place_of(&self, key: &NewOrderKey) -> Option<usize>
        ensures { result ≡ position (λ row. is_same_key (new_order_key row)
            (key.now.warehouse ∷ key.now.district ∷ key.now.order ∷ [])) self.now }
    {
        if key.order < self.first.order {
            return None;
        }
        let place = (key.order - self.first.order) as usize;
        let row = self.get(place)?;
        if row.has_key(key) {
            return Some(place);
        }
        None
    }

    /// Takes a row behind the others where it has the next number; else changes nothing.
    pub fn push(&mut self, row: NewOrderRow) -> bool
        ensures pushed { IsTrue result → self.new ≡ self.old ++ row ∷ [] }
        ensures rising { IsTrue result → is_ascending new_order_key self.new ≡ true }
        ensures same { IsFalse result → self.new ≡ self.old }
    {
        if row.order == u32::MAX {
            return false;
        }
        if self.first.order == self.next {
            self.first = row;
            self.next = row.order + 1;
            return true;
        }
        let mut follower = self.first;
        follower.order = self.next;
        if row != follower {
            return false;
        }
        self.next += 1;
        true
    }

    /// The oldest row taken out.
    pub fn pop_first(&mut self)
        requires { 0 < length self.old }
        ensures { self.new ≡ remove self.old 0 }
    {
        self.first.order += 1;
    }

    /// The newest row taken out.
    pub fn pop_last(&mut self)
        requires { 0 < length self.old }
        ensures { self.new ≡ remove self.old (length self.old - 1) }
    {
        self.next -= 1;
    }
}
