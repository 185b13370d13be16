//! A call without a box.
use tpcc_book::{Register, Turned};
use tpcc_rows::Request;
use tpcc_server::OneTurn;

/// Makes one turn.
#[derive(Drop)]
pub struct PlainTurn;

impl OneTurn for PlainTurn {
    fn turn_once(
        self,
        register: &mut Register,
        request: Request,
        terminal: u32,
        number: u64,
    ) -> Turned {
        register.turn(request, terminal, number)
    }
}
