//! Rows that are kept in one vector for each district, and so are lent.
ghost use Rattle.std.specs.Prelude.{◌≡◌, ◌<◌, find, filter, drop, length, slice_get, take, true};
ghost use Rattle.std.specs.Option.{option_copied};
ghost use Rattle.tpcc_rows.specs.Lists.{is_ascending, updated};
ghost use Rattle.tpcc_storage.specs.Searches.{is_same_key};
ghost use Rattle.tpcc_storage.specs.ByDistrict.{is_of};

use crate::by_district::ByDistrict;
use crate::by_district::in_district::InDistrict;
use crate::search::{find, place_of};
use tpcc_rows::DistrictKey;

/// Rows that are kept in one vector for each district.
pub type DistrictVecs<T> = ByDistrict<T, Vec<T>>;

impl<T: InDistrict> DistrictVecs<T> {
    /// Rows that lie side by side, from a place on: at least one, where there is a row.
    pub fn run_from(&self, position: usize) -> &[T]
        ensures run { result.now ≡ take (length result.now) (drop position self.now.rows) }
        ensures some { position < length self.now.rows → 0 < length result.now }
    {
        let mut before = position;
        for part in self.parts.iter() {
            let rows = part.as_slice();
            if before < rows.len() {
                return &rows[before..];
            }
            before -= rows.len();
        }
        &[]
    }

    /// The row at a place, from 0, in ascending order of keys.
    pub fn get(&self, position: usize) -> Option<&T>
        ensures { option_copied result ≡ slice_get self.now.rows position }
    {
        self.run_from(position).first()
    }

    /// The rows of a district.
    pub fn part(&self, owner: DistrictKey) -> &[T]
        ensures { result.now ≡ filter (λ row. is_of owner (T.key row)) self.now.rows }
    {
        match self.part_of(owner) {
            Some(part) => part.as_slice(),
            None => &[],
        }
    }

    /// The row of a key.
    pub fn find(&self, key: &T::Key) -> Option<&T>
        requires keyed { is_ascending T.key self.now.rows ≡ true }
        ensures { option_copied result
            ≡ find (λ row. is_same_key (T.key row) (T.numbers key.now)) self.now.rows }
    {
        find(self.part(T::owner_of(key)), key)
    }

    /// Another row in the place of the one of its key, where there is one.
    pub fn replace(&mut self, key: &T::Key, row: T)
        requires keyed { is_ascending T.key self.old.rows ≡ true }
        requires key { T.key row ≡ T.numbers key.now }
        ensures rows { self.new.rows ≡ updated
            (λ old. is_same_key (T.key old) (T.numbers key.now)) (λ old. row) self.old.rows }
        ensures owners { self.new.owners ≡ self.old.owners }
        ensures room { self.new.room ≡ self.old.room }
    {
        let Some(place) = place_of(self.parts.as_slice(), &T::owner_of(key)) else {
            return;
        };
        let Some(line) = self.parts[place].place_of(key) else {
            return;
        };
        self.parts[place].exchange(line, row);
    }
}
