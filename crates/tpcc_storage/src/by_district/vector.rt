//! The rows of one district in a vector.
ghost use Rattle.std.specs.Prelude.{vec_capacity};

use crate::by_district::in_district::InDistrict;
use crate::by_district::store::Store;
use crate::{insertion, search};
use std::alloc::Global;
use tpcc_rows::NoMemory;

impl<T: InDistrict> Store<T> for Vec<T> {
    ghost kept = { λ rows. record { items = rows.items; capacity = vec_capacity rows } };

    fn with_room(room: usize, alloc: Global) -> Result<Vec<T>, NoMemory> {
        Ok(Vec::with_capacity(alloc, room)?)
    }

    fn of_rows(rows: &[T], alloc: Global) -> Result<Vec<T>, NoMemory> {
        Ok(Vec::from_slice(alloc, rows)?)
    }

    fn len(&self) -> usize {
        self.as_slice().len()
    }

    fn get(&self, place: usize) -> Option<T> {
        self.as_slice().get(place).copied()
    }

    fn place_of(&self, key: &T::Key) -> Option<usize> {
        search::place_of(self.as_slice(), key)
    }

    fn reserve(&mut self, room: usize) -> Result<(), NoMemory> {
        Vec::reserve(self, room)?;
        Ok(())
    }

    fn put(&mut self, row: T) -> Result<(), NoMemory> {
        insertion::insert(self, row)
    }

    fn remove(&mut self, place: usize) {
        Vec::remove(self, place);
    }
}
