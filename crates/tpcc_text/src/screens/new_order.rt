//! The screens of New-Order.
ghost use Rattle.std.specs.Prelude.{◌≡◌, OnOk, flat_map};
ghost use Rattle.tpcc_text.specs.Internal.Adding.{Adds};
ghost use Rattle.tpcc_text.specs.Screens as screens;

use crate::screens::Screen;
use crate::screens::pieces::Piece;
use tpcc_rows::{AcceptedOrder, Brand, Entered, EnteredLine, NoMemory, RolledBackOrder};

/// The screen of a New-Order, accepted (2.4.3.3) or rolled back (2.4.3.4).
#[tactic(auto, using(crate::proofs::Chains::behind))]
pub fn put_entered(screen: &mut Screen, entered: &Entered) -> Result<(), NoMemory>
    ensures { OnOk result (Adds screen.old screen.new (screens.entered_screen entered.now)) }
{
    match entered {
        Entered::Accepted(order) => {
            put_accepted_line(screen, order)?;
            put_entered_lines(screen, order.lines.as_slice())
        }
        Entered::RolledBack(order) => put_rolled_back_line(screen, order),
    }
}

fn put_accepted_line(screen: &mut Screen, order: &AcceptedOrder) -> Result<(), NoMemory>
    ensures { OnOk result (Adds screen.old screen.new (screens.accepted_line order.now)) }
{
    screen.put_all(&[
        Piece::Number(b"new-order W_ID=", order.warehouse),
        Piece::Number(b" D_ID=", order.district),
        Piece::Number(b" C_ID=", order.customer),
        Piece::Text(b" C_LAST=", order.last.bytes()),
        Piece::Text(b" C_CREDIT=", order.credit.bytes()),
        Piece::Rate(b" C_DISCOUNT=", order.discount),
        Piece::Number(b" O_ID=", order.order),
        Piece::Number(b" O_OL_CNT=", order.line_count),
        Piece::Rate(b" W_TAX=", order.warehouse_tax),
        Piece::Rate(b" D_TAX=", order.district_tax),
        Piece::Moment(b" O_ENTRY_D=", order.entry_date),
        Piece::Amount(b" total=", order.total),
        Piece::Word(b"\n"),
    ])
}

fn put_entered_lines(screen: &mut Screen, lines: &[EnteredLine]) -> Result<(), NoMemory>
    ensures { OnOk result (Adds screen.old screen.new (flat_map screens.entered_line lines.now)) }
{
    for line in lines {
        put_entered_line(screen, line)?;
    }
    Ok(())
}

fn put_entered_line(screen: &mut Screen, line: &EnteredLine) -> Result<(), NoMemory>
    ensures { OnOk result (Adds screen.old screen.new (screens.entered_line line.now)) }
{
    screen.put_all(&[
        Piece::Number(b"line ", line.number),
        Piece::Number(b" OL_SUPPLY_W_ID=", line.supply),
        Piece::Number(b" OL_I_ID=", line.item),
        Piece::Text(b" I_NAME=", line.name.bytes()),
        Piece::Number(b" OL_QUANTITY=", line.quantity),
        Piece::Number(b" S_QUANTITY=", line.stock),
        Piece::Text(b" brand=", brand_text(line.brand)),
        Piece::Amount(b" I_PRICE=", line.price),
        Piece::Amount(b" OL_AMOUNT=", line.amount),
        Piece::Word(b"\n"),
    ])
}

fn brand_text(brand: Brand) -> &'static [u8]
    ensures { result.now ≡ screens.brand_text brand }
{
    match brand {
        Brand::Original => b"B",
        Brand::Generic => b"G",
    }
}

fn put_rolled_back_line(screen: &mut Screen, order: &RolledBackOrder) -> Result<(), NoMemory>
    ensures { OnOk result (Adds screen.old screen.new (screens.rolled_back_line order.now)) }
{
    screen.put_all(&[
        Piece::Number(b"new-order W_ID=", order.warehouse),
        Piece::Number(b" D_ID=", order.district),
        Piece::Number(b" C_ID=", order.customer),
        Piece::Text(b" C_LAST=", order.last.bytes()),
        Piece::Text(b" C_CREDIT=", order.credit.bytes()),
        Piece::Number(b" O_ID=", order.order),
        Piece::Word(b" Item number is not valid\n"),
    ])
}
