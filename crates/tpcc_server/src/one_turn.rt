//! Calls that make one turn of a register.
ghost use Rattle.tpcc_book.specs.Turn.{IsTurn, TakesTurn, MakesTurn};

use tpcc_book::{Register, Turned};
use tpcc_rows::Request;

/// What makes one turn of a register, once: it takes the request, the terminal and the number of entries
/// that the terminal made.
pub trait OneTurn: Drop {
    /// Makes the turn, and spends the call.
    fn turn_once(
        self,
        register: &mut Register,
        request: Request,
        terminal: u32,
        number: u64,
    ) -> Turned
        ensures turn { IsTurn register.old terminal number request result register.new };
}

/// A boxed call of a turn's form.
pub type TurnCall = Box<dyn FnMut(&mut Register, Request, u32, u64) -> Turned + Send>;

/// A boxed call that is known to make a turn.
#[derive(Drop)]
pub struct BoxedTurn {
    /// The call.
    pub call: TurnCall,
    /// It may be called with any register, request, terminal and number.
    pub ghost takes: { TakesTurn (TurnCall.pre call) },
    /// Each call of it makes a turn.
    pub ghost turns: { MakesTurn (TurnCall.post call) },
}

impl BoxedTurn {
    /// The call, with what is known of it. It takes no memory.
    pub fn new(call: TurnCall) -> BoxedTurn
        requires takes { TakesTurn (TurnCall.pre call) }
        requires turns { MakesTurn (TurnCall.post call) }
    {
        BoxedTurn { call }
    }
}

impl OneTurn for BoxedTurn {
    fn turn_once(
        self,
        register: &mut Register,
        request: Request,
        terminal: u32,
        number: u64,
    ) -> Turned {
        let BoxedTurn { call } = self;
        let mut call = call;
        call(register, request, terminal, number)
    }
}
