//! The screens of a request's answer and of a script's own calls.
ghost use Rattle.std.specs.Prelude.{◌≡◌, IfOk, OnOk, None, Some};
ghost use Rattle.tpcc_rows.specs.Conditions.{Broken};
ghost use Rattle.tpcc_text.specs.Internal.Adding.{Adds};
ghost use Rattle.tpcc_text.specs.Screens as screens;

use crate::screens::Screen;
use crate::screens::delivery::{put_delivery, put_queued, put_results};
use crate::screens::new_order::put_entered;
use crate::screens::order_status::put_status;
use crate::screens::payment::put_paid;
use crate::screens::pieces::Piece;
use crate::screens::refusal::refusal_words;
use crate::screens::stock_level::put_level;
use std::alloc::Global;
use tpcc_rows::{Delivered, NoMemory, Refusal, Reply};

fn put_reply(screen: &mut Screen, reply: &Reply) -> Result<(), NoMemory>
    ensures { OnOk result (Adds screen.old screen.new (screens.reply_screen reply.now)) }
{
    match reply {
        Reply::Entered(entered) => put_entered(screen, entered),
        Reply::Paid(paid) => put_paid(screen, paid),
        Reply::Status(status) => put_status(screen, status),
        Reply::Level(level) => put_level(screen, *level),
        Reply::Queued(ticket) => put_queued(screen, *ticket),
        Reply::Delivery(delivery) => put_delivery(screen, *delivery),
    }
}

/// The screen of an accepted request; refused only for want of memory.
pub fn reply_screen(alloc: Global, reply: &Reply) -> Result<Screen, NoMemory>
    ensures { IfOk result (λ screen. screen ≡ screens.reply_screen reply.now) }
{
    let mut screen = Screen::with_room(alloc)?;
    put_reply(&mut screen, reply)?;
    Ok(screen)
}

/// The screen of a refused request; refused only for want of memory.
pub fn refusal_screen(alloc: Global, refusal: Refusal) -> Result<Screen, NoMemory>
    ensures { IfOk result (λ screen. screen ≡ screens.refused_screen refusal) }
{
    Screen::of(
        alloc,
        &[
            Piece::Word(b"refused "),
            refusal_words(refusal),
            Piece::Word(b"\n"),
        ],
    )
}

/// The screen of a check that found no broken condition; refused only for want of memory.
#[tactic(auto, unfolding(crate::specs::Screens::check_screen))]
pub fn consistent_screen(alloc: Global) -> Result<Screen, NoMemory>
    ensures { IfOk result (λ screen. screen ≡ screens.check_screen None) }
{
    Screen::of(alloc, &[Piece::Word(b"consistent\n")])
}

/// The screen of a broken consistency condition (3.3.2), with its warehouse, district and number
/// (of an order or a customer), each 0 where it doesn't apply; refused only for want of memory.
pub fn broken_screen(
    alloc: Global,
    condition: u32,
    warehouse: u32,
    district: u32,
    number: u32,
) -> Result<Screen, NoMemory>
    ensures { IfOk result (λ screen. screen ≡ screens.check_screen
        (Some (record {
          condition = condition;
          warehouse = warehouse;
          district = district;
          number = number;
        }))) }
{
    Screen::of(
        alloc,
        &[
            Piece::Number(b"broken ", condition),
            Piece::Number(b" ", warehouse),
            Piece::Number(b" ", district),
            Piece::Number(b" ", number),
            Piece::Word(b"\n"),
        ],
    )
}

/// The screens of the delivery result log's tickets, in order; refused only for want of memory.
pub fn results_screen(alloc: Global, tickets: &[Delivered]) -> Result<Screen, NoMemory>
    ensures { IfOk result (λ screen. screen ≡ screens.results_screen tickets.now) }
{
    let mut screen = Screen::new(alloc);
    put_results(&mut screen, tickets)?;
    Ok(screen)
}
