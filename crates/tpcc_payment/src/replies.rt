//! What the terminal shows of a payment (2.5.3.3).
ghost use Rattle.std.specs.Prelude.{◌≡◌, ◌-ℤ◌, FitsSigned, take, option_map};
ghost use Rattle.std.specs.Int.{w64};
ghost use Rattle.tpcc_rows.specs.Payment.{paid_customer, reply_from};

use crate::payment_rows::PaymentRows;
use tpcc_rows::{Paid, Payment, Text};

/// The first 200 bytes of a text.
fn first_200(text: &Text<500>) -> Text<200>
    ensures { result ≡ take 200 text.now }
{
    let mut first = Text::empty();
    first.fill(text.bytes());
    first
}

/// What the terminal shows of the new C_DATA.
fn shown_information(information: &Option<Text<500>>) -> Option<Text<200>>
    ensures { result ≡ option_map (take 200) information.now }
{
    match information {
        Some(information) => Some(first_200(information)),
        None => None,
    }
}

/// What the terminal shows of a payment with that new C_DATA.
pub fn show_payment(payment: &Payment, named: &PaymentRows, information: &Option<Text<500>>) -> Paid
    requires fits { FitsSigned w64 (named.now.customer.now.balance -ℤ payment.now.amount) }
    ensures { result
        ≡ reply_from payment.now named.now.warehouse.now named.now.district.now
        (paid_customer payment.now named.now.customer.now) (option_map (take 200) information.now) }
{
    Paid {
        warehouse: payment.warehouse,
        district: payment.district,
        customer_warehouse: payment.customer_warehouse,
        customer_district: payment.customer_district,
        customer: named.customer.id,
        amount: payment.amount,
        date: payment.moment,
        warehouse_address: named.warehouse.address,
        district_address: named.district.address,
        first: named.customer.first,
        middle: named.customer.middle,
        last: named.customer.last,
        customer_address: named.customer.address,
        phone: named.customer.phone,
        since: named.customer.since,
        credit: named.customer.credit,
        credit_limit: named.customer.credit_limit,
        discount: named.customer.discount,
        balance: named.customer.balance.minus(payment.amount),
        information: shown_information(information),
    }
}
