//! The orders of one district that wait for delivery.
ghost use Rattle.std.specs.Prelude.{◌≡◌, ◌+◌, ◌++◌, ◌<◌, ◌≤◌, [], length, vec_capacity};

use crate::by_district::ByDistrict;
use crate::by_district::range::OrderRange;
use crate::by_district::store::Store;
use crate::{insertion, search};
use std::alloc::Global;
use std::marker::Model;
use tpcc_rows::{NewOrderKey, NewOrderRow, NoMemory};

/// The NEW-ORDER rows of one district: a range of numbers, or a list from the first gap on until
/// no row is left.
#[derive(Drop)]
pub struct PendingRows {
    range: OrderRange,
    /// Empty beside a range, but with the room of its rows, so that a gap takes no memory.
    listed: Vec<NewOrderRow>,
}

/// NEW-ORDER rows: of each district a range of numbers, or a list where there is a gap.
pub type PendingOrders = ByDistrict<NewOrderRow, PendingRows>;

impl Model for PendingRows {
    ghost use Rattle.tpcc_rows.specs.declared.tables.rows.NewOrderRow.{NewOrderRow};
    ghost use Rattle.tpcc_storage.specs.KeptRows.{KeptRows};

    ghost Value = { KeptRows NewOrderRow };

    ghost use Rattle.tpcc_storage.specs.Internal.PendingView.{pending_rows, IsPending};

    ghost view = { pending_rows };

    ghost invariant = { IsPending };
}

/// The rows of a range put into the list beside it, for which it has room.
fn list(range: &mut OrderRange, listed: &mut Vec<NewOrderRow>)
    requires alone { 0 < length range.old → listed.old.items ≡ [] }
    requires room { length range.old ≤ vec_capacity listed.old }
    ensures range { range.new ≡ [] }
    ensures listed { listed.new.items ≡ range.old ++ listed.old.items }
    ensures capacity { vec_capacity listed.old ≤ vec_capacity listed.new }
{
    for place in 0..range.len() {
        listed.push_reserved(range.get(place).unwrap());
    }
    *range = OrderRange::new();
}

impl Store<NewOrderRow> for PendingRows {
    ghost kept = { λ waiting. waiting };

    fn with_room(room: usize, alloc: Global) -> Result<PendingRows, NoMemory> {
        Ok(PendingRows {
            range: OrderRange::new(),
            listed: Vec::with_capacity(alloc, room)?,
        })
    }

    fn of_rows(rows: &[NewOrderRow], alloc: Global) -> Result<PendingRows, NoMemory> {
        match OrderRange::of_rows(rows) {
            Some(range) => Ok(PendingRows {
                range,
                listed: Vec::with_capacity(alloc, rows.len())?,
            }),
            None => Ok(PendingRows {
                range: OrderRange::new(),
                listed: Vec::from_slice(alloc, rows)?,
            }),
        }
    }

    fn len(&self) -> usize {
        match self.range.len() {
            0 => self.listed.len(),
            count => count,
        }
    }

    fn get(&self, place: usize) -> Option<NewOrderRow> {
        match self.range.len() {
            0 => self.listed.as_slice().get(place).copied(),
            _ => self.range.get(place),
        }
    }

    fn place_of(&self, key: &NewOrderKey) -> Option<usize> {
        match self.range.len() {
            0 => search::place_of(self.listed.as_slice(), key),
            _ => self.range.place_of(key),
        }
    }

    fn reserve(&mut self, room: usize) -> Result<(), NoMemory> {
        let Some(wanted) = self.range.len().checked_add(room) else {
            return Err(NoMemory);
        };
        self.listed.reserve(wanted)?;
        Ok(())
    }

    fn put(&mut self, row: NewOrderRow) -> Result<(), NoMemory> {
        if self.listed.len() == 0 {
            self.listed.reserve(self.range.len() + 1)?;
            if self.range.push(row) {
                return Ok(());
            }
        }
        list(&mut self.range, &mut self.listed);
        insertion::insert(&mut self.listed, row)
    }

    fn remove(&mut self, place: usize) {
        match self.range.len() {
            0 => {
                self.listed.remove(place);
            }
            _ if place == 0 => self.range.pop_first(),
            count if place == count - 1 => self.range.pop_last(),
            _ => {
                list(&mut self.range, &mut self.listed);
                self.listed.remove(place);
            }
        }
    }
}
