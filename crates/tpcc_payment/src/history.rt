//! The HISTORY row that a payment appends (2.5.2.2).
ghost use Rattle.std.specs.Prelude.{◌≡◌, ◌++◌, codes};
ghost use Rattle.tpcc_rows.specs.Payment.{history_from};

use crate::payment_rows::PaymentRows;
use tpcc_rows::{HistoryRow, Payment, Text};

/// Two names with four spaces between them.
fn join_names(a: &Text<10>, b: &Text<10>) -> Text<24>
    ensures { result ≡ a.now ++ codes "    " ++ b.now }
{
    let mut text = Text::of(a.bytes());
    text.extend(b"    ");
    text.extend(b.bytes());
    text
}

/// The HISTORY row of a payment.
pub fn history_row(payment: &Payment, named: &PaymentRows) -> HistoryRow
    ensures { result
        ≡ history_from payment.now named.now.warehouse.now named.now.district.now
        named.now.customer.now }
{
    HistoryRow {
        customer: named.customer.id,
        customer_district: named.customer.district,
        customer_warehouse: named.customer.warehouse,
        district: payment.district,
        warehouse: payment.warehouse,
        date: payment.moment,
        amount: payment.amount,
        information: join_names(&named.warehouse.name, &named.district.name),
    }
}
