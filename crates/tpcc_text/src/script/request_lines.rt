//! Requests as the lines of a script.
ghost use Rattle.std.specs.Prelude.{◌≡◌, ◌∷◌, ◌++◌, IfOk, OnOk, flat_map, decimal};
ghost use Rattle.tpcc_text.specs.Internal.Adding.{Adds};
ghost use Rattle.tpcc_text.specs.Internal.Pieces.{piece_text};
ghost use Rattle.tpcc_text.specs.RequestLines as lines;

use crate::screens::Screen;
use crate::screens::pieces::Piece;
use std::alloc::Global;
use tpcc_money::Moment;
use tpcc_rows::{Line, NoMemory, Order, Payment, Request, StatusQuery, StockQuery, Ticket, Who};

/// A request as a line of a script, with its line feed; refused only for want of memory.
///
/// Moments are written as seconds since 1970, amounts with two decimals, a customer as C_ID or C_LAST. `tpcc script` reads the line as
/// this request where a last name is 1 to 16 letters A to Z.
pub fn request_line(alloc: Global, request: &Request) -> Result<Screen, NoMemory>
    ensures { IfOk result (λ line. line ≡ lines.request_line request.now) }
{
    let mut screen = Screen::new(alloc);
    put_request(&mut screen, request)?;
    Ok(screen)
}

fn put_request(screen: &mut Screen, request: &Request) -> Result<(), NoMemory>
    ensures { OnOk result (Adds screen.old screen.new (lines.request_line request.now)) }
{
    match request {
        Request::NewOrder(order) => put_order(screen, order),
        Request::Payment(payment) => put_payment(screen, payment),
        Request::Status(query) => put_status_query(screen, query),
        Request::Stock(query) => put_stock_query(screen, query),
        Request::Delivery(ticket) => put_ticket(screen, ticket),
        Request::Deliver(at) => put_deliver(screen, *at),
    }
}

fn customer_word(who: &Who) -> Piece<'_>
    ensures { piece_text result ≡ 32 ∷ lines.customer_word who.now }
{
    match who {
        Who::Number(number) => Piece::Number(b" ", *number),
        Who::Name(last) => Piece::Text(b" ", last.bytes()),
    }
}

fn put_order_line(screen: &mut Screen, line: &Line) -> Result<(), NoMemory>
    ensures { OnOk result (Adds screen.old screen.new (32 ∷ lines.order_line_word line.now)) }
{
    screen.put_all(&[
        Piece::Number(b" ", line.item),
        Piece::Number(b":", line.supply),
        Piece::Number(b":", line.quantity),
    ])
}

fn put_order_lines(screen: &mut Screen, order: &[Line]) -> Result<(), NoMemory>
    ensures { OnOk result (Adds screen.old screen.new
        (flat_map (λ line. 32 ∷ lines.order_line_word line) order.now)) }
{
    for line in order {
        put_order_line(screen, line)?;
    }
    Ok(())
}

fn put_order(screen: &mut Screen, order: &Order) -> Result<(), NoMemory>
    ensures { OnOk result (Adds screen.old screen.new (lines.order_line order.now)) }
{
    screen.put_all(&[
        Piece::Number(b"new-order ", order.warehouse),
        Piece::Number(b" ", order.district),
        Piece::Number(b" ", order.customer),
        Piece::Number(b" ", order.moment.seconds()),
    ])?;
    put_order_lines(screen, order.lines.as_slice())?;
    screen.put(b"\n")
}

fn put_payment(screen: &mut Screen, payment: &Payment) -> Result<(), NoMemory>
    ensures { OnOk result (Adds screen.old screen.new (lines.payment_line payment.now)) }
{
    screen.put_all(&[
        Piece::Number(b"payment ", payment.warehouse),
        Piece::Number(b" ", payment.district),
        Piece::Number(b" ", payment.customer_warehouse),
        Piece::Number(b" ", payment.customer_district),
        customer_word(&payment.who),
        Piece::Amount(b" ", payment.amount),
        Piece::Number(b" ", payment.moment.seconds()),
        Piece::Word(b"\n"),
    ])
}

fn put_status_query(screen: &mut Screen, query: &StatusQuery) -> Result<(), NoMemory>
    ensures { OnOk result (Adds screen.old screen.new (lines.status_line query.now)) }
{
    screen.put_all(&[
        Piece::Number(b"status ", query.warehouse),
        Piece::Number(b" ", query.district),
        customer_word(&query.who),
        Piece::Word(b"\n"),
    ])
}

fn put_stock_query(screen: &mut Screen, query: &StockQuery) -> Result<(), NoMemory>
    ensures { OnOk result (Adds screen.old screen.new (lines.stock_line query.now)) }
{
    screen.put_all(&[
        Piece::Number(b"stock ", query.warehouse),
        Piece::Number(b" ", query.district),
        Piece::Number(b" ", query.threshold),
        Piece::Word(b"\n"),
    ])
}

fn put_ticket(screen: &mut Screen, ticket: &Ticket) -> Result<(), NoMemory>
    ensures { OnOk result (Adds screen.old screen.new (lines.delivery_line ticket.now)) }
{
    screen.put_all(&[
        Piece::Number(b"delivery ", ticket.warehouse),
        Piece::Number(b" ", ticket.carrier),
        Piece::Number(b" ", ticket.queued.seconds()),
        Piece::Word(b"\n"),
    ])
}

fn put_deliver(screen: &mut Screen, at: Moment) -> Result<(), NoMemory>
    ensures { OnOk result (Adds screen.old screen.new (lines.deliver_line at)) }
{
    screen.put_all(&[Piece::Number(b"deliver ", at.seconds()), Piece::Word(b"\n")])
}
