//! What can keep the rows of one district.
ghost use Rattle.std.specs.Prelude.{◌≡◌, ◌+◌, ◌<◌, ◌≤◌, [], IfOk, IsOk, OnOk, OnErr, length, position, remove, slice_get, true};
ghost use Rattle.tpcc_rows.specs.Lists.{by_key, is_ascending, inserted};
ghost use Rattle.tpcc_storage.specs.Searches.{is_same_key};

use crate::by_district::in_district::InDistrict;
use std::alloc::Global;
use tpcc_rows::NoMemory;

/// What keeps the rows of one district in ascending order of their keys.
pub trait Store<T: InDistrict>: Drop {
    ghost use Rattle.tpcc_storage.specs.KeptRows.{KeptRows};

    /// The rows, and how many there can be with no memory.
    ghost kept: { Self → KeptRows T };

    /// No rows, and room for so many.
    fn with_room(room: usize, alloc: Global) -> Result<Self, NoMemory>
        ensures items { IfOk result (λ store. (kept store).items ≡ []) }
        ensures room { IfOk result (λ store. room ≤ (kept store).capacity) };

    /// These rows.
    fn of_rows(rows: &[T], alloc: Global) -> Result<Self, NoMemory>
        ensures items { IfOk result (λ store. (kept store).items ≡ rows.now) }
        ensures room { IfOk result (λ store. length rows.now ≤ (kept store).capacity) };

    /// How many rows there are.
    fn len(&self) -> usize
        ensures { result ≡ length (kept self.now).items };

    /// The row at a place, from 0.
    fn get(&self, place: usize) -> Option<T>
        ensures { result ≡ slice_get (kept self.now).items place };

    /// The place of the row of a key.
    fn place_of(&self, key: &T::Key) -> Option<usize>
        requires keyed { is_ascending T.key (kept self.now).items ≡ true }
        ensures { result
            ≡ position (λ row. is_same_key (T.key row) (T.numbers key.now)) (kept self.now).items };

    /// Room for so many more rows. A refused growth leaves the rows and the room there was.
    fn reserve(&mut self, room: usize) -> Result<(), NoMemory>
        ensures items { (kept self.new).items ≡ (kept self.old).items }
        ensures capacity { (kept self.old).capacity ≤ (kept self.new).capacity }
        ensures grown { OnOk result
            (length (kept self.new).items + room ≤ (kept self.new).capacity) };

    /// Puts a row at its place; refuses only for want of memory.
    fn put(&mut self, row: T) -> Result<(), NoMemory>
        requires keyed { is_ascending T.key (kept self.old).items ≡ true }
        ensures items { OnOk result
            ((kept self.new).items ≡ inserted (by_key T.key) row (kept self.old).items) }
        ensures same { OnErr result ((kept self.new).items ≡ (kept self.old).items) }
        ensures capacity { (kept self.old).capacity ≤ (kept self.new).capacity }
        ensures within { OnOk result (length (kept self.new).items ≤ (kept self.new).capacity) }
        ensures succeeds { length (kept self.old).items < (kept self.old).capacity → IsOk result };

    /// The row at a place taken out. Takes no memory, and gives none back.
    fn remove(&mut self, place: usize)
        requires { place < length (kept self.old).items }
        ensures items { (kept self.new).items ≡ remove (kept self.old).items place }
        ensures capacity { (kept self.old).capacity ≤ (kept self.new).capacity };
}
