//! New rows put into a table in ascending order of its keys.
ghost use Rattle.std.specs.Prelude.{[], ◌∷◌, ◌++◌, ◌≡◌, ◌<◌, ◌≤◌, not, true, OnOk, OnErr, IsOk, IsTrue, ◌+◌, length, vec_len, vec_capacity};
ghost use Rattle.std.specs.List.{prefix_len};
ghost use Rattle.tpcc_rows.specs.Lists.{by_key, is_ascending, inserted};

use crate::keyed_row::KeyedRow;
use tpcc_rows::NoMemory;

/// Whether no row comes after a new one, as is so of the next number.
fn goes_last<T: KeyedRow>(rows: &[T], added: &T) -> bool
    requires keyed { is_ascending T.key rows.now ≡ true }
    ensures { IsTrue result
        → length rows.now ≡ prefix_len (λ row. not (by_key T.key added.now row)) rows.now }
{
    match rows.last() {
        Some(last) => !added.comes_before(last),
        None => false,
    }
}

/// How many rows stand before the first one that comes after a new row, searched by halves.
fn search_by_halves<T: KeyedRow>(rows: &[T], added: &T) -> usize
    requires keyed { is_ascending T.key rows.now ≡ true }
    ensures { result ≡ prefix_len (λ row. not (by_key T.key added.now row)) rows.now }
{
    rows.partition_point(
        |row: &T| -> bool
            ensures { result ≡ not (by_key T.key added.entry.now row.now) }
        { !added.comes_before(row) },
    )
}

/// How many rows stand before the first one that comes after a new row.
pub(crate) fn place_for<T: KeyedRow>(rows: &[T], added: &T) -> usize
    requires keyed { is_ascending T.key rows.now ≡ true }
    ensures { result ≡ prefix_len (λ row. not (by_key T.key added.now row)) rows.now }
{
    if goes_last(rows, added) {
        return rows.len();
    }
    search_by_halves(rows, added)
}

/// Puts a new row at its place; refuses only for want of memory.
pub fn insert<T: KeyedRow + Drop>(rows: &mut Vec<T>, added: T) -> Result<(), NoMemory>
    requires keyed { is_ascending T.key rows.old.items ≡ true }
    ensures inserted { OnOk result (rows.new.items ≡ inserted (by_key T.key) added rows.old.items) }
    ensures same { OnErr result (rows.new.items ≡ rows.old.items) }
    ensures len { vec_len rows.new ≤ vec_len rows.old + 1 }
    ensures capacity { vec_capacity rows.old ≤ vec_capacity rows.new }
    ensures succeeds { vec_len rows.old < vec_capacity rows.old → IsOk result }
{
    let place = place_for(rows.as_slice(), &added);
    rows.insert(place, added)?;
    Ok(())
}

/// Appends a row; refuses only for want of memory.
pub fn push<T: Copy>(rows: &mut Vec<T>, added: T) -> Result<(), NoMemory>
    ensures appended { OnOk result (rows.new.items ≡ rows.old.items ++ added ∷ []) }
    ensures same { OnErr result (rows.new.items ≡ rows.old.items) }
    ensures capacity { vec_capacity rows.old ≤ vec_capacity rows.new }
    ensures succeeds { vec_len rows.old < vec_capacity rows.old → IsOk result }
{
    rows.push(added)?;
    Ok(())
}

/// Puts a new row at its place, for which there is room.
pub fn insert_one<T: KeyedRow + Drop>(rows: &mut Vec<T>, added: T)
    requires keyed { is_ascending T.key rows.old.items ≡ true }
    requires room { vec_len rows.old < vec_capacity rows.old }
    ensures { rows.new.items ≡ inserted (by_key T.key) added rows.old.items }
{
    insert(rows, added).unwrap();
}
