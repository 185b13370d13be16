//! The rows that a payment names, and why it may be refused.
ghost use Rattle.std.specs.Prelude.{◌≡◌, IfOk, IfErr, Some, None};
ghost use Rattle.std.specs.Option.{option_copied};
ghost use Rattle.tpcc_rows.specs.Payment.{payment_refusal, paying_customer};
ghost use Rattle.tpcc_rows.specs.Tables.{find_customer};
ghost use Rattle.tpcc_rows.specs.ChosenCustomer.{chosen_customer};
ghost use Rattle.tpcc_payment.specs.Internal.Prepares.{IsNamed};

use crate::ranges::range_refusal;
use tpcc_rows::{
    CustomerKey, CustomerRow, DistrictRow, Payment, Refusal, WarehouseRow, Who, recall,
};
use tpcc_tables::Tables;

/// The rows that a payment names.
#[derive(Drop)]
pub struct PaymentRows<'a> {
    /// The WAREHOUSE row.
    pub warehouse: &'a WarehouseRow,
    /// The DISTRICT row.
    pub district: &'a DistrictRow,
    /// The row of the customer who pays.
    pub customer: &'a CustomerRow,
}

/// The customer whom a payment names.
#[tactic(auto, unfolding(tpcc_rows::specs::ChosenCustomer::chosen_customer))]
fn chosen_customer<'a>(tables: &'a Tables, payment: &Payment) -> Option<&'a CustomerRow>
    ensures { option_copied result
        ≡ chosen_customer tables.now.rows payment.now.customer_warehouse
        payment.now.customer_district payment.now.who }
{
    match &payment.who {
        Who::Number(customer) => tables.customer(
            payment.customer_warehouse,
            payment.customer_district,
            *customer,
        ),
        Who::Name(last) => tables.customer_by_name(
            payment.customer_warehouse,
            payment.customer_district,
            last.bytes(),
        ),
    }
}

/// The rows of a payment that nothing refuses.
pub fn rows_of_payment<'a>(
    tables: &'a Tables,
    payment: &Payment,
) -> Result<PaymentRows<'a>, Refusal>
    ensures ok { IfOk result (IsNamed tables.now.rows payment.now) }
    ensures err { IfErr result (λ refusal.
        payment_refusal tables.now.rows payment.now ≡ Some refusal) }
{
    let Some(warehouse) = tables.warehouse(payment.warehouse) else {
        return Err(Refusal::NoWarehouse);
    };
    if tables.warehouse(payment.customer_warehouse).is_none() {
        return Err(Refusal::NoWarehouse);
    }
    let Some(district) = tables.district(payment.warehouse, payment.district) else {
        return Err(Refusal::NoDistrict);
    };
    if tables
        .district(payment.customer_warehouse, payment.customer_district)
        .is_none()
    {
        return Err(Refusal::NoDistrict);
    }
    let Some(customer) = chosen_customer(tables, payment) else {
        return Err(Refusal::NoCustomer);
    };
    let named = PaymentRows {
        warehouse,
        district,
        customer,
    };
    match range_refusal(&named, payment.amount) {
        Some(refusal) => Err(refusal),
        None => Ok(named),
    }
}

/// The rows of a payment that nothing refuses, whose customer has that key.
pub fn named_rows<'a>(tables: &'a Tables, payment: &Payment, key: CustomerKey) -> PaymentRows<'a>
    requires accepted { payment_refusal tables.now.rows payment.now ≡ None }
    requires customer { find_customer tables.now.rows key.warehouse key.district key.customer
        ≡ Some (paying_customer tables.now.rows payment.now) }
    ensures { IsNamed tables.now.rows payment.now result }
{
    // For the proof: the tables are well-keyed.
    recall!(tables.well_keyed());
    PaymentRows {
        warehouse: tables.warehouse(payment.warehouse).unwrap(),
        district: tables
            .district(payment.warehouse, payment.district)
            .unwrap(),
        customer: tables
            .customer(key.warehouse, key.district, key.customer)
            .unwrap(),
    }
}
