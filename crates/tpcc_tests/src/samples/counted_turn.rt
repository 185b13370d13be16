//! A call that is counted.
use std::sync::atomic::{AtomicU64, Ordering};
use tpcc_book::{Register, Turned};
use tpcc_rows::Request;
use tpcc_server::OneTurn;

/// Makes one turn, and counts it.
#[derive(Drop)]
pub struct CountedTurn<'a> {
    pub made: &'a AtomicU64,
}

impl<'a> OneTurn for CountedTurn<'a> {
    fn turn_once(
        self,
        register: &mut Register,
        request: Request,
        terminal: u32,
        number: u64,
    ) -> Turned {
        self.made.fetch_add(1, Ordering::SeqCst);
        register.turn(request, terminal, number)
    }
}
