//! The screen of Payment.
ghost use Rattle.std.specs.Prelude.{OnOk};
ghost use Rattle.tpcc_text.specs.Internal.Adding.{Adds};
ghost use Rattle.tpcc_text.specs.Screens as screens;

use crate::screens::Screen;
use crate::screens::pieces::Piece;
use tpcc_rows::{NoMemory, Paid, Text};

/// The screen of a Payment (2.5.3.3).
pub fn put_paid(screen: &mut Screen, paid: &Paid) -> Result<(), NoMemory>
    ensures { OnOk result (Adds screen.old screen.new (screens.paid_screen paid.now)) }
{
    put_payment_line(screen, paid)?;
    put_place_lines(screen, paid)?;
    put_customer_line(screen, paid)?;
    put_information_line(screen, &paid.information)
}

fn put_payment_line(screen: &mut Screen, paid: &Paid) -> Result<(), NoMemory>
    ensures { OnOk result (Adds screen.old screen.new (screens.payment_line paid.now)) }
{
    screen.put_all(&[
        Piece::Number(b"payment W_ID=", paid.warehouse),
        Piece::Number(b" D_ID=", paid.district),
        Piece::Number(b" C_W_ID=", paid.customer_warehouse),
        Piece::Number(b" C_D_ID=", paid.customer_district),
        Piece::Number(b" C_ID=", paid.customer),
        Piece::Amount(b" H_AMOUNT=", paid.amount),
        Piece::Moment(b" H_DATE=", paid.date),
        Piece::Word(b"\n"),
    ])
}

fn put_place_lines(screen: &mut Screen, paid: &Paid) -> Result<(), NoMemory>
    ensures { OnOk result (Adds screen.old screen.new (screens.place_lines paid.now)) }
{
    screen.put_all(&[
        Piece::Address(b"warehouse ", &paid.warehouse_address),
        Piece::Address(b"\ndistrict ", &paid.district_address),
        Piece::Word(b"\n"),
    ])
}

fn put_customer_line(screen: &mut Screen, paid: &Paid) -> Result<(), NoMemory>
    ensures { OnOk result (Adds screen.old screen.new (screens.customer_line paid.now)) }
{
    screen.put_all(&[
        Piece::Text(b"customer ", paid.first.bytes()),
        Piece::Text(b" ", paid.middle.bytes()),
        Piece::Text(b" ", paid.last.bytes()),
        Piece::Address(b" ", &paid.customer_address),
        Piece::Text(b" C_PHONE=", paid.phone.bytes()),
        Piece::Moment(b" C_SINCE=", paid.since),
        Piece::Text(b" C_CREDIT=", paid.credit.bytes()),
        Piece::Amount(b" C_CREDIT_LIM=", paid.credit_limit),
        Piece::Rate(b" C_DISCOUNT=", paid.discount),
        Piece::Amount(b" C_BALANCE=", paid.balance),
        Piece::Word(b"\n"),
    ])
}

fn put_information_line(
    screen: &mut Screen,
    information: &Option<Text<200>>,
) -> Result<(), NoMemory>
    ensures { OnOk result (Adds screen.old screen.new (screens.information_line information.now)) }
{
    let Some(first) = information else {
        return Ok(());
    };
    screen.put_all(&[Piece::Text(b"C_DATA=", first.bytes()), Piece::Word(b"\n")])
}
