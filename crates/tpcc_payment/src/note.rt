//! What a payment of a customer with bad credit leaves in C_DATA (2.5.2.2).
ghost use Rattle.std.specs.Prelude.{◌≡◌, ◌+◌, ◌++◌, ◌≤◌, ◌≤ℤ◌, pos, length, take, codes};
ghost use Rattle.std.specs.Fmt.{decimal};
ghost use Rattle.tpcc_money.specs.Texts.{amount_text};
ghost use Rattle.tpcc_rows.specs.Payment.{payment_note, has_bad_credit};
ghost use Rattle.tpcc_payment.specs.Internal.Prepares.{new_information};
ghost use Rattle.tpcc_rows.specs.declared.limits.TheConstants.{GREATEST_PAYMENT};

use tpcc_money::Cents;
use tpcc_rows::{CustomerRow, Payment, Text};

fn is_bad_credit(customer: &CustomerRow) -> bool
    ensures { result ≡ has_bad_credit customer.now }
{
    customer.credit.bytes() == b"BC".as_slice()
}

/// A number and a space.
fn add_number(text: &mut Text<500>, number: u32)
    requires room { length text.old ≤ 400 }
    ensures written { text.new ≡ text.old ++ decimal number ++ codes " " }
    ensures few { length text.new ≤ length text.old + 11 }
{
    text.extend_number(number);
    text.extend(b" ");
}

/// An amount and a space.
fn add_amount(text: &mut Text<500>, amount: Cents)
    requires room { length text.old ≤ 400 }
    requires least { pos 0 ≤ℤ amount }
    requires most { amount ≤ℤ GREATEST_PAYMENT }
    ensures written { text.new ≡ text.old ++ amount_text amount ++ codes " " }
{
    let cents = amount.value() as u32;
    text.extend_number(cents / 100);
    text.extend(b".");
    text.extend_padded(2, cents % 100);
    text.extend(b" ");
}

/// The note of a payment at the left of C_DATA.
fn note(payment: &Payment, customer: &CustomerRow) -> Text<500>
    requires least { pos 0 ≤ℤ payment.now.amount }
    requires most { payment.now.amount ≤ℤ GREATEST_PAYMENT }
    ensures { result ≡ payment_note payment.now customer.now }
{
    let mut note = Text::empty();
    add_number(&mut note, customer.id);
    add_number(&mut note, customer.district);
    add_number(&mut note, customer.warehouse);
    add_number(&mut note, payment.district);
    add_number(&mut note, payment.warehouse);
    add_amount(&mut note, payment.amount);
    note
}

/// The note and what stood before in C_DATA, cut to 500 bytes.
fn put_note_before(payment: &Payment, customer: &CustomerRow) -> Text<500>
    requires least { pos 0 ≤ℤ payment.now.amount }
    requires most { payment.now.amount ≤ℤ GREATEST_PAYMENT }
    ensures { result
        ≡ take 500 (payment_note payment.now customer.now ++ customer.now.information) }
{
    let mut information = note(payment, customer);
    information.fill(customer.information.bytes());
    information
}

/// The new C_DATA of a customer with bad credit; of another none, and no bytes are moved.
pub fn information_after(payment: &Payment, customer: &CustomerRow) -> Option<Text<500>>
    requires least { pos 0 ≤ℤ payment.now.amount }
    requires most { payment.now.amount ≤ℤ GREATEST_PAYMENT }
    ensures { result ≡ new_information payment.now customer.now }
{
    if is_bad_credit(customer) {
        Some(put_note_before(payment, customer))
    } else {
        None
    }
}
