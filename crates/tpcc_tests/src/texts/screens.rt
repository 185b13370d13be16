//! Screens that no script brings about, with ample memory.
use std::process::Abort;
use tpcc_money::Cents;
use tpcc_rows::{Field, NoMemory, Refusal, Reply, Status, Text};
use tpcc_text::{Screen, broken_screen, refusal_screen, reply_screen};

/// Asserts a screen.
fn shows<R: Abort>(rt: &R, screen: Result<Screen, NoMemory>, shown: &str) {
    let screen = screen.expect(rt, "memory for a screen");
    assert!(rt; screen.bytes() == shown.as_bytes(), "{shown}");
}

#[test]
fn a_customer_who_never_ordered_has_no_order(rt: HostRuntime) {
    let status = Reply::Status(Status {
        warehouse: 1,
        district: 1,
        customer: 8,
        first: Text::of(b"FIRST9991"),
        middle: Text::of(b"OE"),
        last: Text::of(b"BARBAROUGHT"),
        balance: Cents::new(-1000),
        order: None,
    });
    shows(
        &rt,
        reply_screen(rt.alloc(), &status),
        "order-status W_ID=1 D_ID=1 C_ID=8 C_FIRST=FIRST9991 C_MIDDLE=OE C_LAST=BARBAROUGHT C_BALANCE=-10.00\nno order\n",
    )
}

#[test]
fn each_refusal_is_shown_with_its_number(rt: HostRuntime) {
    for (refusal, shown) in [
        (Refusal::Stranger(1), "refused 10 Stranger 1\n"),
        (Refusal::JournalFull, "refused 11 JournalFull\n"),
        (Refusal::OrderNumbers, "refused 13 OrderNumbers\n"),
        (
            Refusal::Count(Field::StockOrders),
            "refused 14 Count StockOrders\n",
        ),
        (
            Refusal::Total(Field::StockYtd),
            "refused 15 Total StockYtd\n",
        ),
    ] {
        shows(&rt, refusal_screen(rt.alloc(), refusal), shown);
    }
}

#[test]
fn a_broken_condition_is_shown_with_its_place(rt: HostRuntime) {
    shows(
        &rt,
        broken_screen(rt.alloc(), 5, 1, 2, 8),
        "broken 5 1 2 8\n",
    )
}
