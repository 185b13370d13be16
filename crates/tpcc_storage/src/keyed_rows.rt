//! The rows of a table in a map by their keys.
ghost use Rattle.std.specs.Prelude.{◌≡◌, ◌<◌, ◌≤◌, ◌++◌, ◌∷◌, [], true, None, Some, OnOk, OnErr, IsOk, IfOk, find, position, insert, length, slice_get};
ghost use Rattle.std.specs.List.{list_all};
ghost use Rattle.std.specs.Option.{option_copied};
ghost use Rattle.indexmap.specs.IndexMap.{values, spare, index_map_len};
ghost use Rattle.tpcc_rows.specs.Lists.{by_key, is_ascending, inserted, updated};
ghost use Rattle.tpcc_storage.specs.Searches.{is_same_key};
ghost use Rattle.tpcc_storage.specs.KeyedRows.{AddsSome};
ghost use Rattle.tpcc_storage.specs.Internal.KeyedRows.{AreUnderKeys};

use crate::insertion::place_for;
use crate::map_row::MapRow;
use crate::row_change::RowChange;
use crate::search::try_likely_place;
use indexmap::IndexMap;
use std::alloc::Global;
use std::marker::Model;
use tpcc_rows::NoMemory;

/// The rows of a table, each in a map under its key, in ascending order of keys.
///
/// A row is first looked for at the place that its key tells, where it stands as long as no number
/// is missing before it, and else by the map.
pub struct KeyedRows<T: MapRow> {
    rows: IndexMap<T::Key, T>,
}

// By hand, so that who lets rows go proves none of the map's parts anew.
impl<T: MapRow> Drop for KeyedRows<T> {
    fn drop(self) {
        let KeyedRows { rows: _ } = self;
    }
}

impl<T: MapRow> Model for KeyedRows<T> {
    ghost use Rattle.tpcc_storage.specs.KeyedRows.{RowsView};

    ghost Value = { RowsView T };

    ghost use Rattle.tpcc_storage.specs.Internal.KeyedRowsView.{view_of_rows, AreKept};

    ghost view = { view_of_rows };

    ghost invariant = { AreKept T.key T.numbers };
}

/// One more row behind all others, whose key comes after theirs.
fn push<T: MapRow>(rows: &mut IndexMap<T::Key, T>, row: T) -> Result<(), NoMemory>
    requires kept { AreUnderKeys T.key T.numbers rows.old.entries }
    requires last { list_all (λ earlier. by_key T.key earlier row) (values rows.old) ≡ true }
    ensures rows { OnOk result (values rows.new ≡ values rows.old ++ row ∷ []) }
    ensures same { OnErr result (values rows.new ≡ values rows.old) }
    ensures kept { AreUnderKeys T.key T.numbers rows.new.entries }
{
    match rows.insert(row.key_of(), row) {
        Ok(_) => Ok(()),
        Err(_) => Err(NoMemory),
    }
}

/// More rows behind all others, in order already; where memory is refused, the first of them.
fn push_all<T: MapRow>(rows: &mut IndexMap<T::Key, T>, more: &[T]) -> Result<(), NoMemory>
    requires kept { AreUnderKeys T.key T.numbers rows.old.entries }
    requires keyed { is_ascending T.key (values rows.old ++ more.now) ≡ true }
    ensures rows { OnOk result (values rows.new ≡ values rows.old ++ more.now) }
    ensures part { OnErr result (AddsSome (values rows.old) (values rows.new) more.now) }
    ensures kept { AreUnderKeys T.key T.numbers rows.new.entries }
{
    for row in more {
        push(rows, *row)?;
    }
    Ok(())
}

/// A row before the one at a place, under its key, which no other row has.
fn put<T: MapRow>(rows: &mut IndexMap<T::Key, T>, place: usize, row: T) -> Result<(), NoMemory>
    requires kept { AreUnderKeys T.key T.numbers rows.old.entries }
    requires within { place ≤ index_map_len rows.old }
    requires fresh { find (λ other. is_same_key (T.key other) (T.key row)) (values rows.old)
        ≡ None }
    ensures rows { OnOk result (values rows.new ≡ insert (values rows.old) place row) }
    ensures same { OnErr result (values rows.new ≡ values rows.old) }
    ensures kept { AreUnderKeys T.key T.numbers rows.new.entries }
    ensures succeeds { 0 < spare rows.old → IsOk result }
{
    match rows.insert_before(place, row.key_of(), row) {
        Ok(_) => Ok(()),
        Err(_) => Err(NoMemory),
    }
}

impl<T: MapRow> KeyedRows<T> {
    /// No rows.
    pub fn new(alloc: Global) -> KeyedRows<T>
        ensures { result.items ≡ [] }
    {
        KeyedRows {
            rows: IndexMap::new(alloc),
        }
    }

    /// No rows yet, and room for so many.
    pub fn with_room(room: usize, alloc: Global) -> Result<KeyedRows<T>, NoMemory>
        ensures rows { IfOk result (λ rows. rows.items ≡ []) }
        ensures room { IfOk result (λ rows. room ≤ rows.spare) }
    {
        let rows = IndexMap::with_capacity(alloc, room)?;
        Ok(KeyedRows { rows })
    }

    /// More rows behind all others, in order already. Where memory is refused, the first of them are
    /// there, as many as there was memory for.
    pub fn append_sorted(&mut self, rows: &[T]) -> Result<(), NoMemory>
        requires keyed { is_ascending T.key (self.old.items ++ rows.now) ≡ true }
        ensures appended { OnOk result (self.new.items ≡ self.old.items ++ rows.now) }
        ensures part { OnErr result (AddsSome self.old.items self.new.items rows.now) }
    {
        push_all(&mut self.rows, rows)
    }

    /// How many rows there are.
    pub fn len(&self) -> usize
        ensures { result ≡ length self.now.items }
    {
        self.rows.len()
    }

    /// All rows, in the order of their keys.
    pub fn as_slice(&self) -> &[T]
        ensures { result.now ≡ self.now.items }
    {
        self.rows.values().as_slice()
    }

    /// The row at a place, from 0, in the order of keys.
    pub fn get(&self, position: usize) -> Option<&T>
        ensures { option_copied result ≡ slice_get self.now.items position }
    {
        self.as_slice().get(position)
    }

    /// The place of the row of a key: in one step where keys have no gaps.
    #[inline]
    fn place_of(&self, key: &T::Key) -> Option<usize>
        requires keyed { is_ascending T.key self.now.items ≡ true }
        ensures { result
            ≡ position (λ row. is_same_key (T.key row) (T.numbers key.now)) self.now.items }
    {
        match try_likely_place(self.as_slice(), key) {
            Some(place) => Some(place),
            None => self.rows.get_index_of(key),
        }
    }

    /// The row of a key.
    #[inline]
    pub fn find(&self, key: &T::Key) -> Option<&T>
        requires keyed { is_ascending T.key self.now.items ≡ true }
        ensures { option_copied result
            ≡ find (λ row. is_same_key (T.key row) (T.numbers key.now)) self.now.items }
    {
        let place = self.place_of(key)?;
        Some(&self.rows[place])
    }

    /// Changes the row of a key, where there is one. Takes no memory.
    pub fn change<C: RowChange<T>>(&mut self, key: &T::Key, change: &C)
        requires keyed { is_ascending T.key self.old.items ≡ true }
        requires fits { (row : T)
            → find (λ row. is_same_key (T.key row) (T.numbers key.now)) self.old.items ≡ Some row
            → C.fits change.now row }
        ensures { self.new.items ≡ updated (λ row. is_same_key (T.key row) (T.numbers key.now))
            (C.changed change.now) self.old.items }
    {
        if let Some(place) = self.place_of(key) {
            change.apply(&mut self.rows[place]);
        }
    }

    /// Makes room for one more row, so that it can be put in with no memory.
    pub fn reserve_one(&mut self) -> Result<(), NoMemory>
        ensures same { self.new.items ≡ self.old.items }
        ensures room { OnOk result (0 < self.new.spare) }
    {
        self.rows.reserve(1)?;
        Ok(())
    }

    /// Puts a row at its place, whose key no row has; refuses only for want of memory.
    pub fn insert(&mut self, row: T) -> Result<(), NoMemory>
        requires keyed { is_ascending T.key self.old.items ≡ true }
        requires fresh { find (λ other. is_same_key (T.key other) (T.key row)) self.old.items
            ≡ None }
        ensures inserted { OnOk result
            (self.new.items ≡ inserted (by_key T.key) row self.old.items) }
        ensures same { OnErr result (self.new.items ≡ self.old.items) }
        ensures succeeds { 0 < self.old.spare → IsOk result }
    {
        let place = place_for(self.as_slice(), &row);
        put(&mut self.rows, place, row)
    }

    /// Puts a row at its place, whose key no row has, and for which there is room.
    pub fn insert_in_room(&mut self, row: T)
        requires keyed { is_ascending T.key self.old.items ≡ true }
        requires fresh { find (λ other. is_same_key (T.key other) (T.key row)) self.old.items
            ≡ None }
        requires room { 0 < self.old.spare }
        ensures { self.new.items ≡ inserted (by_key T.key) row self.old.items }
    {
        self.insert(row).unwrap();
    }
}
