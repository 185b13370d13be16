//! A payment in two halves: what may fail, and what can't.
ghost use Rattle.std.specs.Prelude.{◌≡◌, ◌<◌, IfOk, IfErr, OnOk, OnErr, Some, None};
ghost use Rattle.std.specs.Option.{option_or};
ghost use Rattle.tpcc_rows.specs.Payment.{payment_refusal, payment_reply, after_payment};
ghost use Rattle.tpcc_payment.specs.Prepares.{IsPrepared};

use crate::history::history_row;
use crate::note::information_after;
use crate::payment_rows::{named_rows, rows_of_payment};
use crate::replies::show_payment;
use tpcc_rows::{CustomerKey, Paid, Payment, Refusal, recall};
use tpcc_tables::Tables;

/// What was found out of a payment that nothing refuses.
#[derive(Clone, Copy)]
pub struct PreparedPayment {
    /// The key of the customer whom the payment names by number or by last name (2.5.2.2).
    pub customer: CustomerKey,
}

/// The first refusal of a payment's rows and ranges, or its customer.
fn judge(tables: &Tables, payment: &Payment) -> Result<PreparedPayment, Refusal>
    ensures ok { IfOk result (IsPrepared tables.now.rows payment.now) }
    ensures accepted { OnOk result (payment_refusal tables.now.rows payment.now ≡ None) }
    ensures err { IfErr result (λ refusal.
        payment_refusal tables.now.rows payment.now ≡ Some refusal) }
{
    // For the proof: the tables are well-keyed.
    recall!(tables.well_keyed());
    let named = rows_of_payment(tables, payment)?;
    let customer = CustomerKey {
        warehouse: named.customer.warehouse,
        district: named.customer.district,
        customer: named.customer.id,
    };
    Ok(PreparedPayment { customer })
}

/// Tells every refusal and makes every growth; no row changes.
pub fn prepare(tables: &mut Tables, payment: &Payment) -> Result<PreparedPayment, Refusal>
    ensures ok { IfOk result (IsPrepared tables.old.rows payment.now) }
    ensures accepted { OnOk result (payment_refusal tables.old.rows payment.now ≡ None) }
    ensures room { OnOk result (0 < tables.new.payment_room) }
    ensures same { tables.new.rows ≡ tables.old.rows }
    ensures err { IfErr result (λ refusal.
        option_or (payment_refusal tables.old.rows payment.now) (Some Refusal.NoMemory)
        ≡ Some refusal) }
{
    let prepared = judge(tables, payment)?;
    tables.reserve_payment()?;
    Ok(prepared)
}

/// Writes a payment that was prepared on the same rows and gives its reply; takes no memory.
pub fn finish(tables: &mut Tables, payment: &Payment, prepared: PreparedPayment) -> Paid
    requires accepted { payment_refusal tables.old.rows payment.now ≡ None }
    requires prepared { IsPrepared tables.old.rows payment.now prepared }
    requires room { 0 < tables.old.payment_room }
    ensures rows { tables.new.rows ≡ after_payment tables.old.rows payment.now }
    ensures reply { result ≡ payment_reply tables.old.rows payment.now }
{
    // For the proof: the moment is in its range; the tables are well-keyed.
    recall!(payment.moment.seconds());
    recall!(tables.well_keyed());
    let named = named_rows(tables, payment, prepared.customer);
    let information = information_after(payment, named.customer);
    let reply = show_payment(payment, &named, &information);
    let history = history_row(payment, &named);
    tables.pay(history, information);
    reply
}

/// One payment.
pub fn pay(tables: &mut Tables, payment: &Payment) -> Result<Paid, Refusal>
    ensures rows { OnOk result (tables.new.rows ≡ after_payment tables.old.rows payment.now) }
    ensures accepted { OnOk result (payment_refusal tables.old.rows payment.now ≡ None) }
    ensures reply { IfOk result (λ paid. paid ≡ payment_reply tables.old.rows payment.now) }
    ensures refused { IfErr result (λ refusal.
        option_or (payment_refusal tables.old.rows payment.now) (Some Refusal.NoMemory)
        ≡ Some refusal) }
    ensures same { OnErr result (tables.new.rows ≡ tables.old.rows) }
{
    let prepared = prepare(tables, payment)?;
    Ok(finish(tables, payment, prepared))
}
