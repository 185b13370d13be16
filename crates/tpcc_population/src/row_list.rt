//! Lists of rows that grow at their end: vectors, and tables by key.
ghost use Rattle.std.specs.Prelude.{◌≡◌, ◌++◌, [], true, IfOk, OnOk, ⊤};
ghost use Rattle.tpcc_rows.specs.Lists.{is_ascending};
ghost use Rattle.tpcc_laws.proofs.List.{ascending_front};

use std::alloc::Global;
use tpcc_rows::NoMemory;
use tpcc_storage::{KeyedRows, MapRow};

/// Rows to which more are appended, each in its order.
pub(crate) trait RowList<X: Copy>: Drop {
    ghost use Rattle.std.specs.Prelude.{List};

    /// The rows.
    ghost rows: { Self → List X };

    /// What is asked of them.
    ghost suits: { List X → Type 0 };

    /// No rows yet, and room for so many.
    fn with_room(room: usize, alloc: Global) -> Result<Self, NoMemory>
        ensures { IfOk result (λ list. rows list ≡ []) };

    /// Appends rows.
    fn append_rows(&mut self, more: &[X]) -> Result<(), NoMemory>
        requires { suits (rows self.old ++ more.now) }
        ensures { OnOk result (rows self.new ≡ rows self.old ++ more.now) };

    /// Where rows suit, those in front do.
    ghost front: { (xs ys : List X) → suits (xs ++ ys) → suits xs };
}

impl<X: Copy> RowList<X> for Vec<X> {
    ghost rows = { λ list. list.items };

    ghost suits = { λ rows. ⊤ };

    ghost front = { λ xs ys suit. tt };

    fn with_room(room: usize, alloc: Global) -> Result<Vec<X>, NoMemory> {
        let rows = Vec::with_capacity(alloc, room)?;
        Ok(rows)
    }

    fn append_rows(&mut self, more: &[X]) -> Result<(), NoMemory> {
        self.extend_from_slice(more)?;
        Ok(())
    }
}

impl<T: MapRow> RowList<T> for KeyedRows<T> {
    ghost rows = { λ list. list.items };

    ghost suits = { λ rows. is_ascending T.key rows ≡ true };

    ghost front = { ascending_front T.key };

    fn with_room(room: usize, alloc: Global) -> Result<KeyedRows<T>, NoMemory> {
        KeyedRows::with_room(room, alloc)
    }

    fn append_rows(&mut self, more: &[T]) -> Result<(), NoMemory> {
        self.append_sorted(more)
    }
}
