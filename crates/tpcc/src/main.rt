//! `tpcc`: the order-entry system at the command line.
#![tactic(auto)]

ghost use Rattle.tpcc_book.specs.Turn.{IsTurn};

use std::alloc::{AllocError, Global};
use std::io::{self, IsTerminal};
use std::process::ExitCode;
use tpcc_book::{Register, Turned};
use tpcc_program::{ProgramFault, explain, perform, read_command};
use tpcc_rows::Request;
use tpcc_server::{BoxedTurn, TurnCall};

fn main(rt: HostRuntime) -> ExitCode {
    let watched = rt.stderr().is_terminal();
    let make = |alloc: Global| -> Result<BoxedTurn, AllocError> {
        let call: TurnCall = Box::new(
            alloc,
            |register: &mut Register, request: Request, terminal: u32, number: u64| -> Turned
                ensures { IsTurn register.old terminal number request result register.new }
            { register.turn(request, terminal, number) },
        )?;
        Ok(BoxedTurn::new(call))
    };
    let (alloc, out) = (rt.alloc(), io::writer(&rt));
    let ended = match read_command(&rt, alloc) {
        Ok(command) => perform(&rt, alloc, &command, &mut rt.reader(), out, watched, make).1,
        Err(fault) => Err(ProgramFault::Words(fault)),
    };
    match ended {
        Ok(()) => ExitCode::SUCCESS,
        Err(fault) => {
            let _ = eprintln!(rt; "{fault}");
            if watched {
                explain(&rt, rt.alloc(), fault);
            }
            ExitCode::from(fault.status())
        }
    }
}
