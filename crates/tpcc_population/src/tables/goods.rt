//! ITEM and STOCK.
ghost use Rattle.std.specs.Prelude.{◌≡◌, ◌∷◌, [], IfOk};
ghost use Rattle.tpcc_rows.specs.Layout.{laid_out};
ghost use Rattle.tpcc_rows.specs.declared.limits.TheConstants.{GREATEST_ITEM};

use super::is_keyed;
use crate::layout::{TableRows, fill_by_number, fill_by_warehouse, push};
use crate::rules::RowRules;
use std::alloc::Global;
use tpcc_rows::{ItemRow, NoMemory, StockRow, recall};
use tpcc_storage::KeyedRows;

#[derive(Drop)]
struct ItemTable<R> {
    rules: R,
}

impl<R: RowRules> TableRows for ItemTable<R> {
    type Row = ItemRow;

    ghost rows_of = { λ table warehouse district number. (R.rules table.rules).item number ∷ [] };

    ghost most = { GREATEST_ITEM };

    fn append(
        &self,
        rows: &mut Vec<ItemRow>,
        _warehouse: u32,
        _district: u32,
        number: u32,
    ) -> Result<(), NoMemory> {
        push(rows, &self.rules.item(number))
    }
}

#[derive(Drop)]
struct StockTable<R> {
    rules: R,
}

impl<R: RowRules> TableRows for StockTable<R> {
    type Row = StockRow;

    ghost rows_of = { λ table warehouse district number. (R.rules table.rules).stock warehouse number ∷ [] };

    ghost most = { GREATEST_ITEM };

    fn append(
        &self,
        rows: &mut Vec<StockRow>,
        warehouse: u32,
        _district: u32,
        number: u32,
    ) -> Result<(), NoMemory> {
        push(rows, &self.rules.stock(warehouse, number))
    }
}

/// ITEM.
pub(crate) fn items<R: RowRules>(alloc: Global, rules: R) -> Result<KeyedRows<ItemRow>, NoMemory>
    ensures rows { IfOk result
        (λ v. v.items ≡ (laid_out (R.sizes rules) (R.rules rules)).items) }
{
    // For the proof: the keys ascend.
    recall!(is_keyed(rules));
    fill_by_number(alloc, &ItemTable { rules }, rules.scale().items())
}

/// STOCK.
pub(crate) fn stocks<R: RowRules>(alloc: Global, rules: R) -> Result<KeyedRows<StockRow>, NoMemory>
    ensures rows { IfOk result
        (λ v. v.items ≡ (laid_out (R.sizes rules) (R.rules rules)).stocks) }
{
    let scale = rules.scale();
    // For the proof: the keys ascend.
    recall!(is_keyed(rules));
    fill_by_warehouse(
        alloc,
        &StockTable { rules },
        scale.warehouses(),
        scale.items(),
    )
}
