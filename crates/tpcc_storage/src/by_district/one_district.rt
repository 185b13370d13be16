//! The rows of one district, and changes of them.
ghost use Rattle.std.specs.Prelude.{◌≡◌, ◌+◌, ◌<◌, ◌≤◌, IsOk, OnOk, OnErr, length, position, remove, slice_get, slice_set, true, Some};
ghost use Rattle.tpcc_rows.specs.Lists.{by_key, is_ascending, inserted, updated};
ghost use Rattle.tpcc_rows.specs.Tables.{is_line_of, order_line_key};
ghost use Rattle.tpcc_storage.specs.Searches.{is_same_key};
ghost use Rattle.tpcc_storage.specs.Internal.DistrictWords.{HasRoom};

use crate::by_district::in_district::InDistrict;
use crate::by_district::runs;
use crate::by_district::store::Store;
use std::marker::{Model, PhantomData};
use tpcc_money::Moment;
use tpcc_rows::{DistrictKey, NoMemory, OrderLineRow};

/// The rows of one district.
#[derive(Drop)]
pub struct OneDistrict<T: InDistrict, S: Store<T>> {
    /// The district.
    owner: DistrictKey,
    /// Its rows, in ascending order of their keys.
    rows: S,
    of: PhantomData<T>,
}

impl<T: InDistrict, S: Store<T>> Model for OneDistrict<T, S> {
    ghost use Rattle.tpcc_storage.specs.Internal.DistrictRows.{DistrictRows};

    ghost Value = { DistrictRows T };

    ghost use Rattle.tpcc_storage.specs.Internal.DistrictRowsView.{rows_of_part};

    ghost view = { rows_of_part S.kept };
}

impl<T: InDistrict, S: Store<T>> OneDistrict<T, S> {
    /// The rows of a district.
    pub fn new(owner: DistrictKey, rows: S) -> OneDistrict<T, S>
        ensures { result ≡ record { owner = owner; rows = S.kept rows } }
    {
        OneDistrict {
            owner,
            rows,
            of: PhantomData,
        }
    }

    /// The district.
    pub fn owner(&self) -> DistrictKey
        ensures { result ≡ self.now.owner }
    {
        self.owner
    }

    /// How many rows there are.
    pub fn len(&self) -> usize
        ensures { result ≡ length self.now.rows.items }
    {
        self.rows.len()
    }

    /// The row at a place, from 0.
    pub fn get(&self, place: usize) -> Option<T>
        ensures { result ≡ slice_get self.now.rows.items place }
    {
        self.rows.get(place)
    }

    /// The place of the row of a key.
    pub fn place_of(&self, key: &T::Key) -> Option<usize>
        requires keyed { is_ascending T.key self.now.rows.items ≡ true }
        ensures { result
            ≡ position (λ row. is_same_key (T.key row) (T.numbers key.now)) self.now.rows.items }
    {
        self.rows.place_of(key)
    }

    /// Room for so many more rows. A refused growth leaves the rows and the room there was.
    pub fn reserve(&mut self, room: usize) -> Result<(), NoMemory>
        ensures owner { self.new.owner ≡ self.old.owner }
        ensures rows { self.new.rows.items ≡ self.old.rows.items }
        ensures capacity { self.old.rows.capacity ≤ self.new.rows.capacity }
        ensures grown { OnOk result (HasRoom room self.new) }
    {
        self.rows.reserve(room)
    }

    /// Puts a row at its place; refuses only for want of memory.
    pub fn put(&mut self, row: T) -> Result<(), NoMemory>
        requires keyed { is_ascending T.key self.old.rows.items ≡ true }
        ensures owner { self.new.owner ≡ self.old.owner }
        ensures put { OnOk result
            (self.new.rows.items ≡ inserted (by_key T.key) row self.old.rows.items) }
        ensures same { OnErr result (self.new.rows.items ≡ self.old.rows.items) }
        ensures capacity { self.old.rows.capacity ≤ self.new.rows.capacity }
        ensures room { OnOk result (HasRoom 0 self.new) }
        ensures succeeds { HasRoom 1 self.old → IsOk result }
    {
        self.rows.put(row)
    }

    /// Puts a row at its place, for which there is room.
    pub fn put_in_room(&mut self, row: T)
        requires keyed { is_ascending T.key self.old.rows.items ≡ true }
        requires room { HasRoom 1 self.old }
        ensures owner { self.new.owner ≡ self.old.owner }
        ensures rows { self.new.rows.items ≡ inserted (by_key T.key) row self.old.rows.items }
        ensures capacity { self.old.rows.capacity ≤ self.new.rows.capacity }
    {
        self.put(row).unwrap();
    }

    /// The row at a place taken out. There is room for as many rows as before it.
    pub fn take_out(&mut self, place: usize)
        requires { place < length self.old.rows.items }
        ensures owner { self.new.owner ≡ self.old.owner }
        ensures rows { self.new.rows.items ≡ remove self.old.rows.items place }
        ensures capacity { self.old.rows.capacity ≤ self.new.rows.capacity }
    {
        self.rows.remove(place);
    }
}

impl<T: InDistrict> OneDistrict<T, Vec<T>> {
    /// The rows.
    pub fn as_slice(&self) -> &[T]
        ensures value { result.now ≡ self.now.rows.items }
    {
        self.rows.as_slice()
    }

    /// Another row at a place.
    pub fn exchange(&mut self, place: usize, row: T)
        requires { place < length self.old.rows.items }
        ensures owner { self.new.owner ≡ self.old.owner }
        ensures rows { self.new.rows.items ≡ slice_set self.old.rows.items place row }
        ensures capacity { self.new.rows.capacity ≡ self.old.rows.capacity }
    {
        self.rows[place] = row;
    }
}

impl OneDistrict<OrderLineRow, Vec<OrderLineRow>> {
    /// The moment of delivery of an order's lines, set.
    pub fn stamp(&mut self, warehouse: u32, district: u32, order: u32, moment: Moment)
        requires keyed { is_ascending order_line_key self.old.rows.items ≡ true }
        ensures owner { self.new.owner ≡ self.old.owner }
        ensures rows { self.new.rows.items ≡ updated (is_line_of warehouse district order)
            (λ l. record l { delivered = Some moment }) self.old.rows.items }
        ensures capacity { self.new.rows.capacity ≡ self.old.rows.capacity }
    {
        runs::stamp(&mut self.rows, warehouse, district, order, moment);
    }
}
