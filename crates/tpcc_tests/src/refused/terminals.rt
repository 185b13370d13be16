//! A terminal that is made, and asks.
use crate::samples::requests::scale;
use std::alloc::Global;
use std::process::Abort;
use tpcc_money::Moment;
use tpcc_rows::Request;
use tpcc_terminal::Terminal;

/// Terminal 5, made again where memory was refused.
pub(super) fn make_terminal(rt: &impl Abort, alloc: Global) -> Terminal {
    match Terminal::new(alloc, 5, scale(rt, 10), 7) {
        Ok(terminal) => terminal,
        Err(_) => Terminal::new(alloc, 5, scale(rt, 10), 7).expect(rt, "a terminal"),
    }
}

#[test]
fn a_terminal_asks_its_cards(rt: HostRuntime) {
    let mut terminal = make_terminal(&rt, rt.alloc());
    let mut other = make_terminal(&rt, rt.alloc());
    ask_alike(&rt, &mut terminal, &mut other)
}

/// Two terminals of the same number and seed ask the same.
fn ask_alike(rt: &impl Abort, terminal: &mut Terminal, other: &mut Terminal) {
    for _ in 0..30u32 {
        assert!(rt; next(rt, terminal) == next(rt, other));
    }
}

/// The request of the next card, which comes again where memory is refused.
fn next(rt: &impl Abort, terminal: &mut Terminal) -> Request {
    match terminal.next(Moment::new(0)) {
        Ok(request) => request,
        Err(_) => terminal.next(Moment::new(0)).expect(rt, "the same card"),
    }
}
