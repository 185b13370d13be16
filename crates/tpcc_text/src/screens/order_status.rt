//! The screen of Order-Status.
ghost use Rattle.std.specs.Prelude.{OnOk, flat_map};
ghost use Rattle.tpcc_text.specs.Internal.Adding.{Adds};
ghost use Rattle.tpcc_text.specs.Screens as screens;

use crate::screens::Screen;
use crate::screens::pieces::{Piece, nullable_moment, nullable_number};
use tpcc_rows::{LastOrder, NoMemory, Status, StatusLine};

/// The screen of an Order-Status (2.6.3.3).
#[tactic(auto, using(crate::proofs::Chains::behind))]
pub fn put_status(screen: &mut Screen, status: &Status) -> Result<(), NoMemory>
    ensures { OnOk result (Adds screen.old screen.new (screens.status_screen status.now)) }
{
    put_status_line(screen, status)?;
    put_last_order(screen, &status.order)
}

fn put_status_line(screen: &mut Screen, status: &Status) -> Result<(), NoMemory>
    ensures { OnOk result (Adds screen.old screen.new (screens.status_line status.now)) }
{
    screen.put_all(&[
        Piece::Number(b"order-status W_ID=", status.warehouse),
        Piece::Number(b" D_ID=", status.district),
        Piece::Number(b" C_ID=", status.customer),
        Piece::Text(b" C_FIRST=", status.first.bytes()),
        Piece::Text(b" C_MIDDLE=", status.middle.bytes()),
        Piece::Text(b" C_LAST=", status.last.bytes()),
        Piece::Amount(b" C_BALANCE=", status.balance),
        Piece::Word(b"\n"),
    ])
}

#[tactic(auto, using(crate::proofs::Chains::behind))]
fn put_last_order(screen: &mut Screen, order: &Option<LastOrder>) -> Result<(), NoMemory>
    ensures { OnOk result (Adds screen.old screen.new (screens.last_order_lines order.now)) }
{
    match order {
        None => screen.put(b"no order\n"),
        Some(order) => {
            put_order_head(screen, order)?;
            put_ordered_lines(screen, order.lines.as_slice())
        }
    }
}

fn put_order_head(screen: &mut Screen, order: &LastOrder) -> Result<(), NoMemory>
    ensures { OnOk result (Adds screen.old screen.new (screens.order_head order.now)) }
{
    screen.put_all(&[
        Piece::Number(b"order O_ID=", order.order),
        Piece::Moment(b" O_ENTRY_D=", order.entry_date),
        nullable_number(b" O_CARRIER_ID=", order.carrier),
        Piece::Word(b"\n"),
    ])
}

fn put_ordered_lines(screen: &mut Screen, lines: &[StatusLine]) -> Result<(), NoMemory>
    ensures { OnOk result (Adds screen.old screen.new (flat_map screens.ordered_line lines.now)) }
{
    for line in lines {
        put_ordered_line(screen, line)?;
    }
    Ok(())
}

fn put_ordered_line(screen: &mut Screen, line: &StatusLine) -> Result<(), NoMemory>
    ensures { OnOk result (Adds screen.old screen.new (screens.ordered_line line.now)) }
{
    screen.put_all(&[
        Piece::Number(b"line OL_SUPPLY_W_ID=", line.supply),
        Piece::Number(b" OL_I_ID=", line.item),
        Piece::Number(b" OL_QUANTITY=", line.quantity),
        Piece::Amount(b" OL_AMOUNT=", line.amount),
        nullable_moment(b" OL_DELIVERY_D=", line.delivered),
        Piece::Word(b"\n"),
    ])
}
