//! Tables filled number by number, in the order of their keys.
ghost use Rattle.std.specs.Prelude.{◌≡◌, ◌+◌, ◌++◌, ◌∷◌, [], ◌≤◌, ℕ, List, IfOk};
ghost use Rattle.tpcc_rows.specs.Layout.{each};
ghost use Rattle.tpcc_rows.specs.declared.limits.TheConstants.{GREATEST_WAREHOUSE, GREATEST_DISTRICT, GREATEST_ITEM, GREATEST_ORDER};

use crate::row_list::RowList;
use std::alloc::Global;
use tpcc_rows::NoMemory;
use tpcc_rows::limits::GREATEST_DISTRICT;

/// The rows of a table by their numbers: warehouse, district and the row's own number. A table
/// that has no use for one of them is asked with 1.
pub(crate) trait TableRows {
    type Row: Copy;

    ghost rows_of: { Self → ℕ → ℕ → ℕ → List Self.Row };

    ghost most: { ℕ };

    /// Appends the rows of these numbers.
    fn append(
        &self,
        rows: &mut Vec<Self::Row>,
        warehouse: u32,
        district: u32,
        number: u32,
    ) -> Result<(), NoMemory>
        requires warehouse_least { 1 ≤ warehouse }
        requires warehouse_most { warehouse ≤ GREATEST_WAREHOUSE }
        requires district_least { 1 ≤ district }
        requires district_most { district ≤ GREATEST_DISTRICT }
        requires least { 1 ≤ number }
        requires most { number ≤ most }
        ensures { IfOk result (λ _. rows.new.items
            ≡ rows.old.items ++ rows_of self.now warehouse district number) };
}

/// One more row.
pub(crate) fn push<X: Copy>(rows: &mut Vec<X>, row: &X) -> Result<(), NoMemory>
    ensures { IfOk result (λ _. rows.new.items ≡ rows.old.items ++ row.now ∷ []) }
{
    rows.push(*row)?;
    Ok(())
}

/// The rows of `count` numbers from `low` on, those of each number drawn into `chunk` first.
fn append_each<T: TableRows, L: RowList<T::Row>>(
    table: &T,
    rows: &mut L,
    chunk: &mut Vec<T::Row>,
    warehouse: u32,
    district: u32,
    low: u32,
    count: u32,
) -> Result<(), NoMemory>
    requires warehouse_least { 1 ≤ warehouse }
    requires warehouse_most { warehouse ≤ GREATEST_WAREHOUSE }
    requires district_least { 1 ≤ district }
    requires district_most { district ≤ GREATEST_DISTRICT }
    requires least { 1 ≤ low }
    requires small { low + count ≤ GREATEST_ORDER }
    requires most { low + count ≤ T.most + 1 }
    requires suits { L.suits
        (L.rows rows.old ++ each low count (T.rows_of table.now warehouse district)) }
    ensures { IfOk result (λ _. L.rows rows.new
        ≡ L.rows rows.old ++ each low count (T.rows_of table.now warehouse district)) }
{
    for number in low..low + count {
        chunk.clear();
        table.append(chunk, warehouse, district, number)?;
        rows.append_rows(chunk.as_slice())?;
    }
    Ok(())
}

/// A table of one level: the rows of the numbers 1 to `count`.
pub(crate) fn fill_by_number<T: TableRows, L: RowList<T::Row>>(
    alloc: Global,
    table: &T,
    count: u32,
) -> Result<L, NoMemory>
    requires small { count ≤ GREATEST_ITEM }
    requires most { count ≤ T.most }
    requires suits { L.suits (each 1 count (T.rows_of table.now 1 1)) }
    ensures { IfOk result (λ list. L.rows list ≡ each 1 count (T.rows_of table.now 1 1)) }
{
    let mut rows = L::with_room(count as usize, alloc)?;
    let mut chunk = Vec::new(alloc);
    append_each(table, &mut rows, &mut chunk, 1, 1, 1, count)?;
    Ok(rows)
}

/// A table by warehouses: the rows of the numbers 1 to `count` of each.
pub(crate) fn fill_by_warehouse<T: TableRows, L: RowList<T::Row>>(
    alloc: Global,
    table: &T,
    warehouses: u32,
    count: u32,
) -> Result<L, NoMemory>
    requires warehouses { warehouses ≤ GREATEST_WAREHOUSE }
    requires small { count ≤ GREATEST_ITEM }
    requires most { count ≤ T.most }
    requires suits { L.suits (each 1 warehouses (λ w. each 1 count (T.rows_of table.now w 1))) }
    ensures { IfOk result (λ list. L.rows list
        ≡ each 1 warehouses (λ w. each 1 count (T.rows_of table.now w 1))) }
{
    let room = (warehouses as usize).saturating_mul(count as usize);
    let mut rows = L::with_room(room, alloc)?;
    let mut chunk = Vec::new(alloc);
    for warehouse in 1..warehouses + 1 {
        append_each(table, &mut rows, &mut chunk, warehouse, 1, 1, count)?;
    }
    Ok(rows)
}

/// The ten districts of a warehouse.
fn append_districts<T: TableRows, L: RowList<T::Row>>(
    table: &T,
    rows: &mut L,
    chunk: &mut Vec<T::Row>,
    warehouse: u32,
    low: u32,
    count: u32,
) -> Result<(), NoMemory>
    requires warehouse_least { 1 ≤ warehouse }
    requires warehouse_most { warehouse ≤ GREATEST_WAREHOUSE }
    requires least { 1 ≤ low }
    requires small { low + count ≤ GREATEST_ORDER }
    requires most { low + count ≤ T.most + 1 }
    requires suits { L.suits (L.rows rows.old
        ++ each 1 10 (λ d. each low count (T.rows_of table.now warehouse d))) }
    ensures { IfOk result (λ _. L.rows rows.new ≡ L.rows rows.old
        ++ each 1 10 (λ d. each low count (T.rows_of table.now warehouse d))) }
{
    for district in 1..GREATEST_DISTRICT + 1 {
        append_each(table, rows, chunk, warehouse, district, low, count)?;
    }
    Ok(())
}

/// A table by districts: the rows of `count` numbers from `low` on of each.
pub(crate) fn fill_by_district<T: TableRows, L: RowList<T::Row>>(
    alloc: Global,
    table: &T,
    warehouses: u32,
    low: u32,
    count: u32,
) -> Result<L, NoMemory>
    requires warehouses { warehouses ≤ GREATEST_WAREHOUSE }
    requires least { 1 ≤ low }
    requires small { low + count ≤ GREATEST_ORDER }
    requires most { low + count ≤ T.most + 1 }
    requires suits { L.suits (each 1 warehouses
        (λ w. each 1 10 (λ d. each low count (T.rows_of table.now w d)))) }
    ensures { IfOk result (λ list. L.rows list ≡ each 1 warehouses
        (λ w. each 1 10 (λ d. each low count (T.rows_of table.now w d)))) }
{
    let districts = (warehouses * GREATEST_DISTRICT) as usize;
    let room = districts.saturating_mul(count as usize);
    let mut rows = L::with_room(room, alloc)?;
    let mut chunk = Vec::new(alloc);
    for warehouse in 1..warehouses + 1 {
        append_districts(table, &mut rows, &mut chunk, warehouse, low, count)?;
    }
    Ok(rows)
}
