//! Rows in ascending order of their keys, found where the key tells, or else searched by halves.
ghost use Rattle.std.specs.Prelude.{◌≡◌, IfSome, Some, find, position, true};
ghost use Rattle.std.specs.Option.{option_copied};
ghost use Rattle.tpcc_rows.specs.Lists.{is_ascending, key_before};
ghost use Rattle.tpcc_storage.specs.Searches.{is_same_key};

use crate::keyed_row::{KeyedRow, SortedRow};

/// The place of the row of a key, where it stands at the place that its key tells.
#[inline]
pub(crate) fn try_likely_place<T: KeyedRow>(rows: &[T], key: &T::Key) -> Option<usize>
    requires keyed { is_ascending T.key rows.now ≡ true }
    ensures { IfSome result (λ place. Some place
        ≡ position (λ row. is_same_key (T.key row) (T.numbers key.now)) rows.now) }
{
    let place = T::likely_place(rows, key);
    let row = rows.get(place)?;
    if row.has_key(key) {
        return Some(place);
    }
    None
}

/// The place of the row of a key, searched by halves.
fn search_by_halves<T: SortedRow>(rows: &[T], key: &T::Key) -> Option<usize>
    requires keyed { is_ascending T.key rows.now ≡ true }
    ensures { result ≡ position (λ row. is_same_key (T.key row) (T.numbers key.now)) rows.now }
{
    let place = rows.partition_point(
        |row: &T| -> bool
            ensures { result ≡ key_before (T.key row.now) (T.numbers key.entry.now) }
        { row.is_before(key) },
    );
    let row = rows.get(place)?;
    if row.has_key(key) {
        return Some(place);
    }
    None
}

/// The place of the row of a key: in one step where keys have no gaps.
pub fn place_of<T: SortedRow>(rows: &[T], key: &T::Key) -> Option<usize>
    requires keyed { is_ascending T.key rows.now ≡ true }
    ensures { result ≡ position (λ row. is_same_key (T.key row) (T.numbers key.now)) rows.now }
{
    match try_likely_place(rows, key) {
        Some(place) => Some(place),
        None => search_by_halves(rows, key),
    }
}

/// The row of a key.
pub fn find<'a, T: SortedRow>(rows: &'a [T], key: &T::Key) -> Option<&'a T>
    requires keyed { is_ascending T.key rows.now ≡ true }
    ensures { option_copied result
        ≡ find (λ row. is_same_key (T.key row) (T.numbers key.now)) rows.now }
{
    let place = place_of(rows, key)?;
    Some(&rows[place])
}
