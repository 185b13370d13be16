//! CUSTOMER and HISTORY.
ghost use Rattle.std.specs.Prelude.{◌≡◌, ◌∷◌, [], IfOk};
ghost use Rattle.tpcc_rows.specs.Layout.{laid_out};
ghost use Rattle.tpcc_rows.specs.declared.limits.TheConstants.{GREATEST_CUSTOMER};

use super::is_keyed;
use crate::layout::{TableRows, fill_by_district, push};
use crate::rules::RowRules;
use std::alloc::Global;
use tpcc_rows::{CustomerRow, HistoryRow, NoMemory, recall};
use tpcc_storage::KeyedRows;

#[derive(Drop)]
struct CustomerTable<R> {
    rules: R,
}

impl<R: RowRules> TableRows for CustomerTable<R> {
    type Row = CustomerRow;

    ghost rows_of = { λ table warehouse district number. (R.rules table.rules).customer warehouse district number ∷ [] };

    ghost most = { GREATEST_CUSTOMER };

    fn append(
        &self,
        rows: &mut Vec<CustomerRow>,
        warehouse: u32,
        district: u32,
        number: u32,
    ) -> Result<(), NoMemory> {
        push(rows, &self.rules.customer(warehouse, district, number))
    }
}

#[derive(Drop)]
struct HistoryTable<R> {
    rules: R,
}

impl<R: RowRules> TableRows for HistoryTable<R> {
    type Row = HistoryRow;

    ghost rows_of = { λ table warehouse district number. (R.rules table.rules).history warehouse district number ∷ [] };

    ghost most = { GREATEST_CUSTOMER };

    fn append(
        &self,
        rows: &mut Vec<HistoryRow>,
        warehouse: u32,
        district: u32,
        number: u32,
    ) -> Result<(), NoMemory> {
        push(rows, &self.rules.history(warehouse, district, number))
    }
}

/// CUSTOMER.
pub(crate) fn customers<R: RowRules>(
    alloc: Global,
    rules: R,
) -> Result<KeyedRows<CustomerRow>, NoMemory>
    ensures rows { IfOk result
        (λ v. v.items ≡ (laid_out (R.sizes rules) (R.rules rules)).customers) }
{
    let scale = rules.scale();
    // For the proof: the keys ascend.
    recall!(is_keyed(rules));
    fill_by_district(
        alloc,
        &CustomerTable { rules },
        scale.warehouses(),
        1,
        scale.customers(),
    )
}

/// HISTORY, in the order of CUSTOMER.
pub(crate) fn histories<R: RowRules>(alloc: Global, rules: R) -> Result<Vec<HistoryRow>, NoMemory>
    ensures rows { IfOk result
        (λ v. v.items ≡ (laid_out (R.sizes rules) (R.rules rules)).histories) }
{
    let scale = rules.scale();
    fill_by_district(
        alloc,
        &HistoryTable { rules },
        scale.warehouses(),
        1,
        scale.customers(),
    )
}
