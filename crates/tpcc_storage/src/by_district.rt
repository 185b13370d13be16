//! Rows in ascending order of their keys, kept apart for each district.
ghost use Rattle.std.specs.Prelude.{◌≡◌, ◌+◌, ◌<◌, ◌≤◌, ℕ, List, [], ◌∷◌, OnOk, OnErr, IfOk, find, filter, not, drop, length, slice_get, take, true};
ghost use Rattle.std.specs.List.{list_all};
ghost use Rattle.std.specs.Option.{option_copied};
ghost use Rattle.tpcc_rows.specs.Lists.{by_key, is_ascending, inserted, inserted_all, updated};
ghost use Rattle.tpcc_storage.specs.Searches.{is_same_key};
ghost use Rattle.tpcc_storage.specs.ByDistrict.{district_numbers, is_of, has_owner};
ghost use Rattle.tpcc_storage.specs.Internal.ByDistrict.{rows_or_none};
ghost use Rattle.tpcc_rows.specs.declared.tables.keys.DistrictKey.{DistrictKey};

pub(crate) mod district_vecs;
mod growth;
pub(crate) mod in_district;
pub(crate) mod one_district;
mod order_lines;
pub(crate) mod pending;
pub(crate) mod place;
mod range;
mod reading;
mod runs;
pub(crate) mod store;
mod vector;

use crate::by_district::in_district::InDistrict;
use crate::search::place_of;
use growth::grow_all;
use one_district::OneDistrict;
use place::open_district;
use reading::read_run;
use std::alloc::Global;
use std::marker::Model;
use store::Store;
use tpcc_rows::{DistrictKey, NoMemory};

/// Rows in ascending order of their keys, each district's in a store of its own: a row of a
/// district's greatest key is pushed, and no row of another district moves.
#[derive(Drop)]
pub struct ByDistrict<T: InDistrict, S: Store<T>> {
    pub(crate) parts: Vec<OneDistrict<T, S>>,
    /// How many rows there are.
    len: usize,
    /// How many more rows each part can take.
    room: usize,
}

impl<T: InDistrict, S: Store<T>> Model for ByDistrict<T, S> {
    ghost use Rattle.tpcc_storage.specs.ByDistrict.{ByDistrictView};

    ghost Value = { ByDistrictView T };

    ghost use Rattle.tpcc_storage.specs.Internal.ByDistrictView.{view_by_district, IsByDistrict};

    ghost view = { view_by_district };

    ghost invariant = { IsByDistrict T.key };
}

impl<T: InDistrict, S: Store<T>> ByDistrict<T, S> {
    /// No parts.
    pub fn new(alloc: Global) -> ByDistrict<T, S>
        ensures { result ≡ record { rows = []; owners = []; room = 0 } }
    {
        ByDistrict {
            parts: Vec::new(alloc),
            len: 0,
            room: 0,
        }
    }

    /// The parts of rows that are in order already; each part has the room of its rows.
    pub fn from_sorted(rows: Vec<T>, alloc: Global) -> Result<ByDistrict<T, S>, NoMemory>
        requires keyed { is_ascending T.key rows.items ≡ true }
        ensures { IfOk result (λ parts. parts.rows ≡ rows.items) }
    {
        let mut parts = Vec::new(alloc);
        let mut start = 0;
        while start < rows.len() {
            start = read_run(&mut parts, rows.as_slice(), start, alloc)?;
        }
        Ok(ByDistrict {
            parts,
            len: rows.len(),
            room: 0,
        })
    }

    /// How many rows there are.
    pub fn len(&self) -> usize
        ensures { result ≡ length self.now.rows }
    {
        self.len
    }

    /// How many more rows any district that has a part can take with no memory.
    pub fn room(&self) -> usize
        ensures { result ≡ self.now.room }
    {
        self.room
    }

    /// A copy of the row at a place, from 0, in ascending order of keys.
    pub fn copy_at(&self, position: usize) -> Option<T>
        ensures { result ≡ slice_get self.now.rows position }
    {
        let mut before = position;
        for part in self.parts.iter() {
            if before < part.len() {
                return part.get(before);
            }
            before -= part.len();
        }
        None
    }

    /// The part of a district, where it has one.
    fn part_of(&self, owner: DistrictKey) -> Option<&OneDistrict<T, S>>
        ensures { rows_or_none (option_copied result)
            ≡ filter (λ row. is_of owner (T.key row)) self.now.rows }
    {
        let place = place_of(self.parts.as_slice(), &owner)?;
        Some(&self.parts[place])
    }

    /// How many rows a district has.
    pub fn len_of(&self, owner: DistrictKey) -> usize
        ensures { result ≡ length (filter (λ row. is_of owner (T.key row)) self.now.rows) }
    {
        match self.part_of(owner) {
            Some(part) => part.len(),
            None => 0,
        }
    }

    /// A copy of a district's row at a place, from 0, among its own.
    pub fn copy_of(&self, owner: DistrictKey, place: usize) -> Option<T>
        ensures { result
            ≡ slice_get (filter (λ row. is_of owner (T.key row)) self.now.rows) place }
    {
        self.part_of(owner)?.get(place)
    }

    /// A copy of the row of a key.
    pub fn find_copy(&self, key: &T::Key) -> Option<T>
        requires keyed { is_ascending T.key self.now.rows ≡ true }
        ensures { result
            ≡ find (λ row. is_same_key (T.key row) (T.numbers key.now)) self.now.rows }
    {
        let part = self.part_of(T::owner_of(key))?;
        part.get(part.place_of(key)?)
    }

    /// A part for a district, where it has none. A refused growth changes nothing.
    pub fn open(&mut self, owner: DistrictKey) -> Result<(), NoMemory>
        ensures rows { self.new.rows ≡ self.old.rows }
        ensures room { self.new.room ≡ self.old.room }
        ensures kept { (k : List ℕ)
            → has_owner self.old.owners k ≡ true → has_owner self.new.owners k ≡ true }
        ensures opened { OnOk result (has_owner self.new.owners (district_numbers owner) ≡ true) }
    {
        if place_of(self.parts.as_slice(), &owner).is_some() {
            return Ok(());
        }
        let alloc = *self.parts.allocator();
        open_district(&mut self.parts, owner, self.room, alloc)
    }

    /// Room for so many more rows in each district that has a part.
    pub fn reserve(&mut self, room: usize) -> Result<(), NoMemory>
        ensures rows { self.new.rows ≡ self.old.rows }
        ensures owners { self.new.owners ≡ self.old.owners }
        ensures kept { self.old.room ≤ self.new.room }
        ensures reserved { OnOk result (room ≤ self.new.room) }
    {
        if room <= self.room {
            return Ok(());
        }
        if usize::MAX - self.len < room {
            return Err(NoMemory);
        }
        grow_all(&mut self.parts, room)?;
        self.room = room;
        Ok(())
    }

    /// Puts a row at its place; refuses only for want of memory. No room is promised after it.
    pub fn load(&mut self, row: T) -> Result<(), NoMemory>
        requires keyed { is_ascending T.key self.old.rows ≡ true }
        ensures loaded { OnOk result (self.new.rows ≡ inserted (by_key T.key) row self.old.rows) }
        ensures same { OnErr result (self.new.rows ≡ self.old.rows) }
        ensures room { OnErr result (self.new.room ≡ self.old.room) }
        ensures kept { (k : List ℕ)
            → has_owner self.old.owners k ≡ true → has_owner self.new.owners k ≡ true }
    {
        if self.len == usize::MAX {
            return Err(NoMemory);
        }
        let owner = row.owner();
        self.open(owner)?;
        let place = place_of(self.parts.as_slice(), &owner).unwrap();
        self.parts[place].put(row)?;
        self.len += 1;
        self.room = 0;
        Ok(())
    }

    /// Puts a row at its place, for which there is room. Takes no memory.
    pub fn append(&mut self, row: T)
        requires keyed { is_ascending T.key self.old.rows ≡ true }
        requires owner { has_owner self.old.owners (T.key row) ≡ true }
        requires room { 0 < self.old.room }
        ensures rows { self.new.rows ≡ inserted (by_key T.key) row self.old.rows }
        ensures owners { self.new.owners ≡ self.old.owners }
        ensures room { self.new.room + 1 ≡ self.old.room }
    {
        let place = place_of(self.parts.as_slice(), &row.owner()).unwrap();
        self.parts[place].put_in_room(row);
        self.len += 1;
        self.room -= 1;
    }

    /// Puts rows at their places, one after another. Takes no memory.
    pub fn append_all(&mut self, rows: &[T])
        requires keyed { is_ascending T.key (inserted_all (by_key T.key) rows.now self.old.rows)
            ≡ true }
        requires owners { list_all (λ row. has_owner self.old.owners (T.key row)) rows.now ≡ true }
        requires room { length rows.now ≤ self.old.room }
        ensures rows { self.new.rows ≡ inserted_all (by_key T.key) rows.now self.old.rows }
        ensures owners { self.new.owners ≡ self.old.owners }
        ensures room { self.new.room + length rows.now ≡ self.old.room }
    {
        for row in rows {
            self.append(*row);
        }
    }

    /// The row of a key taken out, where there is one.
    pub fn remove(&mut self, key: &T::Key)
        requires keyed { is_ascending T.key self.old.rows ≡ true }
        ensures rows { self.new.rows
            ≡ filter (λ row. not (is_same_key (T.key row) (T.numbers key.now))) self.old.rows }
        ensures owners { self.new.owners ≡ self.old.owners }
        ensures room { self.new.room ≡ self.old.room }
    {
        let Some(place) = place_of(self.parts.as_slice(), &T::owner_of(key)) else {
            return;
        };
        let Some(line) = self.parts[place].place_of(key) else {
            return;
        };
        self.parts[place].take_out(line);
        self.len -= 1;
    }
}
