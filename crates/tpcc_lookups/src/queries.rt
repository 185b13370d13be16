//! The rows that a query names, and why it may be refused.
ghost use Rattle.std.specs.Prelude.{◌≡◌, IfOk, IfErr, OnOk, Some, None};
ghost use Rattle.std.specs.Option.{option_copied};
ghost use Rattle.tpcc_rows.specs.ChosenCustomer.{chosen_customer};
ghost use Rattle.tpcc_rows.specs.Lookups.{status_refusal, stock_refusal};
ghost use Rattle.tpcc_rows.specs.Tables.{find_district};

use tpcc_rows::{CustomerRow, DistrictRow, Refusal, StatusQuery, StockQuery, Who};
use tpcc_tables::Tables;

/// The customer whom a query names.
#[tactic(auto, unfolding(tpcc_rows::specs::ChosenCustomer::chosen_customer))]
fn choose_customer<'a>(tables: &'a Tables, query: &StatusQuery) -> Option<&'a CustomerRow>
    ensures { option_copied result
        ≡ chosen_customer tables.now.rows query.now.warehouse query.now.district query.now.who }
{
    match &query.who {
        Who::Number(customer) => tables.customer(query.warehouse, query.district, *customer),
        Who::Name(last) => tables.customer_by_name(query.warehouse, query.district, last.bytes()),
    }
}

/// The customer of an Order-Status that nothing refuses.
#[tactic(auto, unfolding(tpcc_rows::specs::Lookups::status_tests))]
pub fn asking_customer<'a>(
    tables: &'a Tables,
    query: &StatusQuery,
) -> Result<&'a CustomerRow, Refusal>
    ensures customer { IfOk result (λ customer. chosen_customer
        tables.now.rows query.now.warehouse query.now.district query.now.who ≡ Some customer.now) }
    ensures accepted { OnOk result (status_refusal tables.now.rows query.now ≡ None) }
    ensures refused { IfErr result
        (λ refusal. status_refusal tables.now.rows query.now ≡ Some refusal) }
{
    if tables.warehouse(query.warehouse).is_none() {
        return Err(Refusal::NoWarehouse);
    }
    if tables.district(query.warehouse, query.district).is_none() {
        return Err(Refusal::NoDistrict);
    }
    match choose_customer(tables, query) {
        Some(customer) => Ok(customer),
        None => Err(Refusal::NoCustomer),
    }
}

/// The district of a Stock-Level that nothing refuses.
#[tactic(auto, unfolding(tpcc_rows::specs::Lookups::stock_tests))]
pub fn queried_district<'a>(
    tables: &'a Tables,
    query: &StockQuery,
) -> Result<&'a DistrictRow, Refusal>
    ensures district { IfOk result (λ district.
        find_district tables.now.rows query.now.warehouse query.now.district ≡ Some district.now) }
    ensures accepted { OnOk result (stock_refusal tables.now.rows query.now ≡ None) }
    ensures refused { IfErr result
        (λ refusal. stock_refusal tables.now.rows query.now ≡ Some refusal) }
{
    if tables.warehouse(query.warehouse).is_none() {
        return Err(Refusal::NoWarehouse);
    }
    let Some(district) = tables.district(query.warehouse, query.district) else {
        return Err(Refusal::NoDistrict);
    };
    if query.threshold < 10 || 20 < query.threshold {
        return Err(Refusal::Threshold);
    }
    Ok(district)
}
