//! Stock-Level (2.8): how many of the items that a district ordered last are low in stock.
ghost use Rattle.std.specs.Prelude.{◌≡◌, IfOk, IfErr, OnOk, Some, None};
ghost use Rattle.tpcc_rows.specs.Lookups.{stock_refusal, stock_reply};

use crate::queries::queried_district;
use tpcc_rows::{Level, Refusal, StockQuery};
use tpcc_tables::Tables;

/// One Stock-Level. The refusals are NoWarehouse, NoDistrict and Threshold, the first that
/// applies. Takes no memory.
pub fn stock_level(tables: &Tables, query: &StockQuery) -> Result<Level, Refusal>
    ensures accepted { OnOk result (stock_refusal tables.now.rows query.now ≡ None) }
    ensures reply { IfOk result (λ level. level ≡ stock_reply tables.now.rows query.now) }
    ensures refused { IfErr result
        (λ refusal. stock_refusal tables.now.rows query.now ≡ Some refusal) }
{
    let StockQuery {
        warehouse,
        district,
        threshold,
    } = *query;
    let next = queried_district(tables, query)?.next_order;
    Ok(Level {
        warehouse,
        district,
        threshold,
        low_stock: tables.low_stock(warehouse, district, threshold, next),
    })
}
