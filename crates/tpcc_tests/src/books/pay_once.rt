//! A caller of a book, as docs/calling.md has it.
ghost use Rattle.std.specs.Prelude.{◌≡◌};

use std::alloc::Global;
use std::marker::Brand;
use tpcc_book::{Blanks, Book, Naming};
use tpcc_money::{Cents, Moment};
use tpcc_population::{Opening, Scale};
use tpcc_rows::{NoMemory, Payment, Request, Who};
use tpcc_show::screen;
use tpcc_text::Screen;

pub fn pay_once(alloc: Global) -> Result<Screen, NoMemory> {
    let Ok(scale) = Scale::new(1, 10, 100) else {
        return Err(NoMemory);
    };
    let opening = Opening::Plain { scale };
    pay_at::<Brand>(alloc, &opening, Blanks::new())
}

fn pay_at<N: Naming>(alloc: Global, opening: &Opening, blanks: Blanks) -> Result<Screen, NoMemory>
    requires entries { blanks.entries.name ≡ N.entries }
    requires cents { blanks.cents.name ≡ N.cents }
{
    let (mut book, mut first) = Book::<N>::start(alloc, opening, blanks)?;
    let payment = Payment {
        warehouse: 1,
        district: 1,
        customer_warehouse: 1,
        customer_district: 1,
        who: Who::Number(1),
        amount: Cents::new(100),
        moment: Moment::new(0),
    };
    let answer = book.serve(Request::Payment(payment), first.split(1));
    screen(alloc, &answer)
}

/// The screen of `examples/first_payment.txt`.
const SHOWN: &str = concat!(
    "payment W_ID=1 D_ID=1 C_W_ID=1 C_D_ID=1 C_ID=1 H_AMOUNT=1.00 H_DATE=1970-01-01T00:00:00\n",
    "warehouse MAINSTREET,SIDESTREET,CITYCENTRE,AB,000111111\n",
    "district MAINSTREET,SIDESTREET,CITYCENTRE,AB,000111111\n",
    "customer FIRST9998 OE BARBARBAR MAINSTREET,SIDESTREET,CITYCENTRE,AB,000111111 C_PHONE=0000000000000001 C_SINCE=1970-01-01T00:00:00 C_CREDIT=GC C_CREDIT_LIM=50000.00 C_DISCOUNT=0.0100 C_BALANCE=-11.00\n",
);

#[test]
fn a_caller_pays_once_and_has_the_screen(rt: HostRuntime) {
    let screen = pay_once(rt.alloc()).expect(&rt, "memory for a book and a screen");
    assert!(rt; screen.bytes() == SHOWN.as_bytes());
}
