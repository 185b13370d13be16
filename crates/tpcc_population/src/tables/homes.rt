//! WAREHOUSE and DISTRICT.
ghost use Rattle.std.specs.Prelude.{◌≡◌, ◌∷◌, [], IfOk};
ghost use Rattle.tpcc_rows.specs.Layout.{laid_out};
ghost use Rattle.tpcc_rows.specs.declared.limits.TheConstants.{GREATEST_WAREHOUSE, GREATEST_DISTRICT};

use super::is_keyed;
use crate::layout::{TableRows, fill_by_number, fill_by_warehouse, push};
use crate::rules::RowRules;
use std::alloc::Global;
use tpcc_rows::limits::GREATEST_DISTRICT;
use tpcc_rows::{DistrictRow, NoMemory, WarehouseRow, recall};
use tpcc_storage::KeyedRows;

#[derive(Drop)]
struct WarehouseTable<R> {
    rules: R,
}

impl<R: RowRules> TableRows for WarehouseTable<R> {
    type Row = WarehouseRow;

    ghost rows_of = { λ table warehouse district number. (R.rules table.rules).warehouse number ∷ [] };

    ghost most = { GREATEST_WAREHOUSE };

    fn append(
        &self,
        rows: &mut Vec<WarehouseRow>,
        _warehouse: u32,
        _district: u32,
        number: u32,
    ) -> Result<(), NoMemory> {
        push(rows, &self.rules.warehouse(number))
    }
}

#[derive(Drop)]
struct DistrictTable<R> {
    rules: R,
}

impl<R: RowRules> TableRows for DistrictTable<R> {
    type Row = DistrictRow;

    ghost rows_of = { λ table warehouse district number. (R.rules table.rules).district warehouse number ∷ [] };

    ghost most = { GREATEST_DISTRICT };

    fn append(
        &self,
        rows: &mut Vec<DistrictRow>,
        warehouse: u32,
        _district: u32,
        number: u32,
    ) -> Result<(), NoMemory> {
        push(rows, &self.rules.district(warehouse, number))
    }
}

/// WAREHOUSE.
pub(crate) fn warehouses<R: RowRules>(
    alloc: Global,
    rules: R,
) -> Result<KeyedRows<WarehouseRow>, NoMemory>
    ensures rows { IfOk result
        (λ v. v.items ≡ (laid_out (R.sizes rules) (R.rules rules)).warehouses) }
{
    // For the proof: the keys ascend.
    recall!(is_keyed(rules));
    fill_by_number(alloc, &WarehouseTable { rules }, rules.scale().warehouses())
}

/// DISTRICT.
pub(crate) fn districts<R: RowRules>(
    alloc: Global,
    rules: R,
) -> Result<KeyedRows<DistrictRow>, NoMemory>
    ensures rows { IfOk result
        (λ v. v.items ≡ (laid_out (R.sizes rules) (R.rules rules)).districts) }
{
    // For the proof: the keys ascend.
    recall!(is_keyed(rules));
    fill_by_warehouse(
        alloc,
        &DistrictTable { rules },
        rules.scale().warehouses(),
        GREATEST_DISTRICT,
    )
}
