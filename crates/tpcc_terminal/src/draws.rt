//! The draws of each card, in their order.
ghost use Rattle.std.specs.Prelude.{◌≡◌, ◌+◌, ◌==◌, ◌&&◌, ◌<◌, ◌≤◌};
ghost use Rattle.tpcc_draws.specs.Draws.{answers};
ghost use Rattle.tpcc_terminal.specs.Cards.{other_warehouse, supplier, drawn_line, drawn_lines, drawn_customer, payer, drawn_order, drawn_payment, drawn_status, drawn_draft};

use crate::drafts::{Draft, DrawnCustomer, NameNumber, OrderDraft, PaymentDraft, StatusDraft};
use crate::home::Home;
use tpcc_draws::{Card, LAST_NAMES, Stream};
use tpcc_rows::limits::{GREATEST_PAYMENT, LEAST_PAYMENT};
use tpcc_rows::{DistrictKey, Few, Line};

#[tactic(auto, unfolding(crate::specs::Cards::other_warehouse))]
fn other_warehouse(stream: &mut Stream, home: &Home) -> u32
    requires several { 1 < home.now.scale.warehouses }
    ensures drawn { (result, answers stream.new) ≡ other_warehouse home.now (answers stream.old) }
{
    let other = stream.between(1, home.scale.warehouses() - 1);
    if other < home.warehouse {
        other
    } else {
        other + 1
    }
}

#[tactic(auto, unfolding(crate::specs::Cards::supplier))]
fn supplier(stream: &mut Stream, home: &Home) -> u32
    ensures drawn { (result, answers stream.new) ≡ supplier home.now (answers stream.old) }
{
    let percent = stream.between(1, 100);
    if home.scale.warehouses() > 1 && percent == 1 {
        other_warehouse(stream, home)
    } else {
        home.warehouse
    }
}

#[tactic(auto, unfolding(crate::specs::Cards::drawn_line))]
fn line(stream: &mut Stream, home: &Home, is_unused: bool) -> Line
    ensures drawn { (result, answers stream.new)
        ≡ drawn_line home.now is_unused (answers stream.old) }
{
    let items = home.scale.items();
    let item = stream.nurand(8191, 7911, 1, items);
    let supply = supplier(stream, home);
    let quantity = stream.between(1, 10);
    Line {
        item: if is_unused { items + 1 } else { item },
        supply,
        quantity,
    }
}

// Whether the line of this place, from 0, has the unused item.
fn is_last(number: u32, count: u32, is_unused: bool) -> bool
    requires few { number ≤ 15 }
    ensures { result ≡ (is_unused && (number + 1 == count)) }
{
    is_unused && number + 1 == count
}

fn lines(stream: &mut Stream, home: &Home, count: u32, is_unused: bool) -> Few<Line, 15>
    requires few { count ≤ 15 }
    ensures drawn { (result, answers stream.new)
        ≡ drawn_lines home.now count is_unused count (answers stream.old) }
{
    let mut lines = Few::empty();
    for number in 0..count {
        let line = line(stream, home, is_last(number, count, is_unused));
        lines.push(line);
    }
    lines
}

#[tactic(auto, unfolding(crate::specs::Cards::drawn_order))]
fn order(stream: &mut Stream, home: &Home) -> OrderDraft
    ensures drawn { (result, answers stream.new) ≡ drawn_order home.now (answers stream.old) }
{
    let district = stream.between(1, 10);
    let customer = stream.nurand(1023, 259, 1, home.scale.customers());
    let count = stream.between(5, 15);
    let percent = stream.between(1, 100);
    let lines = lines(stream, home, count, percent == 1);
    OrderDraft {
        district,
        customer,
        lines,
    }
}

#[tactic(auto, unfolding(crate::specs::Cards::drawn_customer))]
fn customer(stream: &mut Stream, home: &Home) -> DrawnCustomer
    ensures drawn { (result, answers stream.new) ≡ drawn_customer home.now (answers stream.old) }
{
    let customers = home.scale.customers();
    if stream.between(1, 100) <= 60 {
        let number = stream.nurand(255, 187, 0, customers.min(LAST_NAMES) - 1);
        DrawnCustomer::Name(NameNumber::new(number))
    } else {
        DrawnCustomer::Number(stream.nurand(1023, 259, 1, customers))
    }
}

#[tactic(auto, unfolding(crate::specs::Cards::payer))]
fn payer(stream: &mut Stream, home: &Home, district: u32) -> DistrictKey
    ensures drawn { (result, answers stream.new) ≡ payer home.now district (answers stream.old) }
{
    let percent = stream.between(1, 100);
    if percent <= 85 || home.scale.warehouses() == 1 {
        return DistrictKey {
            warehouse: home.warehouse,
            district,
        };
    }
    let warehouse = other_warehouse(stream, home);
    DistrictKey {
        warehouse,
        district: stream.between(1, 10),
    }
}

#[tactic(auto, unfolding(crate::specs::Cards::drawn_payment))]
fn payment(stream: &mut Stream, home: &Home) -> PaymentDraft
    ensures drawn { (result, answers stream.new) ≡ drawn_payment home.now (answers stream.old) }
{
    let district = stream.between(1, 10);
    let payer = payer(stream, home, district);
    let customer = customer(stream, home);
    let cents = stream.between(LEAST_PAYMENT as u32, GREATEST_PAYMENT as u32);
    PaymentDraft {
        district,
        customer_warehouse: payer.warehouse,
        customer_district: payer.district,
        customer,
        cents,
    }
}

#[tactic(auto, unfolding(crate::specs::Cards::drawn_status))]
fn status(stream: &mut Stream, home: &Home) -> StatusDraft
    ensures drawn { (result, answers stream.new) ≡ drawn_status home.now (answers stream.old) }
{
    let district = stream.between(1, 10);
    let customer = customer(stream, home);
    StatusDraft { district, customer }
}

/// The draws of a card.
#[tactic(auto, unfolding(crate::specs::Cards::drawn_draft))]
pub fn draw(stream: &mut Stream, home: &Home, card: Card) -> Draft
    ensures drawn { (result, answers stream.new) ≡ drawn_draft home.now card (answers stream.old) }
{
    match card {
        Card::NewOrder => Draft::NewOrder(order(stream, home)),
        Card::Payment => Draft::Payment(payment(stream, home)),
        Card::OrderStatus => Draft::OrderStatus(status(stream, home)),
        Card::Delivery => Draft::Delivery(stream.between(1, 10)),
        Card::StockLevel => Draft::StockLevel(stream.between(10, 20)),
    }
}
