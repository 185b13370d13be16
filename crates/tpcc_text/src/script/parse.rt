//! What a line says.
ghost use Rattle.std.specs.Prelude.{◌≡◌, map, IfOk, Option, option_map};
ghost use Rattle.tpcc_text.specs.Internal.Reading.{Gives};
ghost use Rattle.tpcc_rows.specs.declared.transactions.requests.Request.{Request};
ghost use Rattle.tpcc_text.specs.declared.script.call.Call.TheVariants.{Ask};
ghost use Rattle.tpcc_text.specs.Script as script;
ghost use Rattle.tpcc_text.specs.Script.{call_of, call_of_words, order_of, order_line_of, order_line_of_parts, order_lines_of, payment_of, status_of, stock_of, delivery_of, deliver_of};

use crate::script::call::Call;
use crate::script::fault::ParseFault;
use crate::script::words::{amount, customer, is_word, moment, number, split};
use std::alloc::Global;
use tpcc_rows::{Line, Lines, NoMemory, Order, Payment, Request, StatusQuery, StockQuery, Ticket};

#[tactic(auto, unfolding(crate::specs::Script::payment_of))]
fn payment(words: &[&[u8]]) -> Result<Request, ParseFault>
    ensures { Gives (λ r. r) result (payment_of (map (λ w. w.now) words.now)) }
{
    let [w, d, c_w, c_d, c, h, at] = words else {
        return Err(ParseFault::Bad);
    };
    let warehouse = number(w)?;
    let district = number(d)?;
    let customer_warehouse = number(c_w)?;
    let customer_district = number(c_d)?;
    let who = customer(c)?;
    let amount = amount(h)?;
    let moment = moment(at)?;
    Ok(Request::Payment(Payment {
        warehouse,
        district,
        customer_warehouse,
        customer_district,
        who,
        amount,
        moment,
    }))
}

#[tactic(auto, unfolding(crate::specs::Script::stock_of))]
fn stock(words: &[&[u8]]) -> Result<Request, ParseFault>
    ensures { Gives (λ r. r) result (stock_of (map (λ w. w.now) words.now)) }
{
    let [w, d, t] = words else {
        return Err(ParseFault::Bad);
    };
    let warehouse = number(w)?;
    let district = number(d)?;
    let threshold = number(t)?;
    Ok(Request::Stock(StockQuery {
        warehouse,
        district,
        threshold,
    }))
}

#[tactic(auto, unfolding(crate::specs::Script::status_of))]
fn status(words: &[&[u8]]) -> Result<Request, ParseFault>
    ensures { Gives (λ r. r) result (status_of (map (λ w. w.now) words.now)) }
{
    let [w, d, c] = words else {
        return Err(ParseFault::Bad);
    };
    let warehouse = number(w)?;
    let district = number(d)?;
    let who = customer(c)?;
    Ok(Request::Status(StatusQuery {
        warehouse,
        district,
        who,
    }))
}

#[tactic(auto, unfolding(crate::specs::Script::delivery_of))]
fn delivery(words: &[&[u8]]) -> Result<Request, ParseFault>
    ensures { Gives (λ r. r) result (delivery_of (map (λ w. w.now) words.now)) }
{
    let [w, c, at] = words else {
        return Err(ParseFault::Bad);
    };
    let warehouse = number(w)?;
    let carrier = number(c)?;
    let queued = moment(at)?;
    Ok(Request::Delivery(Ticket {
        warehouse,
        carrier,
        queued,
    }))
}

#[tactic(auto, unfolding(crate::specs::Script::deliver_of))]
fn deliver(words: &[&[u8]]) -> Result<Request, ParseFault>
    ensures { Gives (λ r. r) result (deliver_of (map (λ w. w.now) words.now)) }
{
    let [at] = words else {
        return Err(ParseFault::Bad);
    };
    let moment = moment(at)?;
    Ok(Request::Deliver(moment))
}

fn order_line(alloc: Global, word: &[u8]) -> Result<Line, ParseFault>
    ensures { Gives (λ l. l) result (order_line_of word.now) }
{
    match split(alloc, word, b':') {
        Ok(parts) => line_of_parts(parts.as_slice()),
        Err(_) => Err(ParseFault::NoMemory),
    }
}

fn line_of_parts(parts: &[&[u8]]) -> Result<Line, ParseFault>
    ensures { Gives (λ l. l) result (order_line_of_parts (map (λ w. w.now) parts.now)) }
{
    let [i, s, q] = parts else {
        return Err(ParseFault::Bad);
    };
    let item = number(i)?;
    let supply = number(s)?;
    let quantity = number(q)?;
    Ok(Line {
        item,
        supply,
        quantity,
    })
}

fn order_lines(alloc: Global, words: &[&[u8]]) -> Result<Vec<Line>, ParseFault>
    ensures { Gives (λ v. v.items) result (order_lines_of (map (λ w. w.now) words.now)) }
{
    let mut lines = Vec::new(alloc);
    for word in words {
        match order_line(alloc, word) {
            Ok(line) => {
                if lines.push(line).is_err() {
                    return Err(ParseFault::NoMemory);
                }
            }
            Err(fault) => return Err(fault),
        }
    }
    Ok(lines)
}

#[tactic(auto, unfolding(crate::specs::Script::order_of))]
fn order(alloc: Global, words: &[&[u8]]) -> Result<Request, ParseFault>
    ensures { Gives (λ r. r) result (order_of (map (λ w. w.now) words.now)) }
{
    let [w, d, c, at, rest @ ..] = words else {
        return Err(ParseFault::Bad);
    };
    let warehouse = number(w)?;
    let district = number(d)?;
    let customer = number(c)?;
    let moment = moment(at)?;
    let lines = order_lines(alloc, rest)?;
    Ok(Request::NewOrder(Order {
        warehouse,
        district,
        customer,
        moment,
        lines: Lines::new(lines),
    }))
}

fn ask(request: Result<Request, ParseFault>) -> Result<Call, ParseFault>
    ensures { (read : Option Request) → Gives (λ r. r) request read
        → Gives (λ c. c) result (option_map Ask read) }
{
    match request {
        Ok(request) => Ok(Call::Ask(request)),
        Err(fault) => Err(fault),
    }
}

fn call_alone(call: Call, words: &[&[u8]]) -> Result<Call, ParseFault>
    ensures { Gives (λ c. c) result (script.call_alone call (map (λ w. w.now) words.now)) }
{
    if words.is_empty() {
        Ok(call)
    } else {
        Err(ParseFault::Bad)
    }
}

#[tactic(auto, unfolding(crate::specs::Script::later_named))]
fn later_named(name: &[u8], words: &[&[u8]]) -> Result<Call, ParseFault>
    ensures { Gives (λ c. c) result (script.later_named name.now (map (λ w. w.now) words.now)) }
{
    if is_word(name, b"delivery") {
        ask(delivery(words))
    } else if is_word(name, b"deliver") {
        ask(deliver(words))
    } else if is_word(name, b"check") {
        call_alone(Call::Check, words)
    } else if is_word(name, b"results") {
        call_alone(Call::Results, words)
    } else {
        Err(ParseFault::Bad)
    }
}

#[tactic(auto, unfolding(crate::specs::Script::call_named))]
fn call_named(alloc: Global, name: &[u8], words: &[&[u8]]) -> Result<Call, ParseFault>
    ensures { Gives (λ c. c) result (script.call_named name.now (map (λ w. w.now) words.now)) }
{
    if is_word(name, b"new-order") {
        ask(order(alloc, words))
    } else if is_word(name, b"payment") {
        ask(payment(words))
    } else if is_word(name, b"status") {
        ask(status(words))
    } else if is_word(name, b"stock") {
        ask(stock(words))
    } else {
        later_named(name, words)
    }
}

fn call(alloc: Global, words: &[&[u8]]) -> Result<Call, ParseFault>
    ensures { Gives (λ c. c) result (call_of_words (map (λ w. w.now) words.now)) }
{
    match words {
        [name, words @ ..] => call_named(alloc, name, words),
        [] => Err(ParseFault::Bad),
    }
}

/// The call of a line (without its line feed), or none where it is bad; refused only for want of
/// memory.
#[tactic(auto, unfolding(crate::specs::Script::call_of))]
pub fn parse_line(alloc: Global, line: &[u8]) -> Result<Option<Call>, NoMemory>
    ensures { IfOk result (λ call. call ≡ call_of line.now) }
{
    let words = split(alloc, line, b' ')?;
    match call(alloc, words.as_slice()) {
        Ok(call) => Ok(Some(call)),
        Err(ParseFault::Bad) => Ok(None),
        Err(ParseFault::NoMemory) => Err(NoMemory),
    }
}
