//! The screens of Delivery, of its runs and of its result log.
ghost use Rattle.std.specs.Prelude.{◌≡◌, ◌∷◌, OnOk};
ghost use Rattle.tpcc_text.specs.Internal.Adding.{Adds};
ghost use Rattle.tpcc_text.specs.Internal.Pieces.{piece_text};
ghost use Rattle.tpcc_text.specs.Screens as screens;

use crate::screens::Screen;
use crate::screens::pieces::Piece;
use tpcc_money::Moment;
use tpcc_rows::{Delivered, Delivery, NoMemory, Ticket};

/// The screen of a Delivery, whose ticket was queued (2.7.3).
pub fn put_queued(screen: &mut Screen, ticket: Ticket) -> Result<(), NoMemory>
    ensures { OnOk result (Adds screen.old screen.new (screens.queued_screen ticket)) }
{
    screen.put_all(&[
        Piece::Number(b"delivery W_ID=", ticket.warehouse),
        Piece::Number(b" O_CARRIER_ID=", ticket.carrier),
        Piece::Word(b" Delivery has been queued\n"),
    ])
}

/// The screen of one run of the first ticket (2.7.4), or of an empty queue.
#[tactic(auto, using(crate::proofs::Chains::behind))]
pub fn put_delivery(screen: &mut Screen, delivery: Delivery) -> Result<(), NoMemory>
    ensures { OnOk result (Adds screen.old screen.new (screens.delivery_screen delivery)) }
{
    match delivery {
        Delivery::District(run) => {
            put_delivered_line(screen, run.ticket, run.at)?;
            put_district_line(screen, u64::from(run.district), run.order)
        }
        Delivery::NoneQueued => screen.put(b"no delivery queued\n"),
    }
}

fn put_delivered_line(screen: &mut Screen, ticket: Ticket, at: Moment) -> Result<(), NoMemory>
    ensures { OnOk result (Adds screen.old screen.new (screens.delivered_line ticket at)) }
{
    screen.put_all(&[
        Piece::Number(b"delivered W_ID=", ticket.warehouse),
        Piece::Number(b" O_CARRIER_ID=", ticket.carrier),
        Piece::Moment(b" queued=", ticket.queued),
        Piece::Moment(b" at=", at),
        Piece::Word(b"\n"),
    ])
}

fn delivered_order(order: Option<u32>) -> Piece<'static>
    ensures { piece_text result ≡ 32 ∷ screens.delivered_order order }
{
    match order {
        Some(order) => Piece::Number(b" O_ID=", order),
        None => Piece::Word(b" skipped"),
    }
}

fn put_district_line(screen: &mut Screen, district: u64, order: Option<u32>) -> Result<(), NoMemory>
    ensures { OnOk result (Adds screen.old screen.new (screens.district_line district order)) }
{
    screen.put_all(&[
        Piece::Count(b"district ", district),
        delivered_order(order),
        Piece::Word(b"\n"),
    ])
}

fn put_district_lines(screen: &mut Screen, orders: &[Option<u32>]) -> Result<(), NoMemory>
    ensures { OnOk result (Adds screen.old screen.new (screens.district_lines 1 orders.now)) }
{
    let mut district = 1u64;
    for order in orders {
        put_district_line(screen, district, *order)?;
        district += 1;
    }
    Ok(())
}

#[tactic(auto, using(crate::proofs::Chains::behind))]
fn put_whole_ticket(screen: &mut Screen, delivered: &Delivered) -> Result<(), NoMemory>
    ensures { OnOk result (Adds screen.old screen.new (screens.ticket_screen delivered.now)) }
{
    put_delivered_line(screen, delivered.ticket, delivered.at)?;
    put_district_lines(screen, delivered.orders.as_slice())
}

/// The tickets of the delivery result log (2.7.2.2), one behind another.
pub fn put_results(screen: &mut Screen, tickets: &[Delivered]) -> Result<(), NoMemory>
    ensures { OnOk result (Adds screen.old screen.new (screens.results_screen tickets.now)) }
{
    for ticket in tickets {
        put_whole_ticket(screen, ticket)?;
    }
    Ok(())
}
