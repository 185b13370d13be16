//! What the program does: a command, and what is told of a fault.
ghost use Rattle.std.specs.Prelude.{◌≡◌, ◌↔◌, false, IfSome, IsErrOf, None, Some};
ghost use Rattle.tpcc_population.specs.declared.scale.ScaleFault.{ScaleFault};
ghost use Rattle.tpcc_program.specs.Commands.{HasPerformed, is_script};
ghost use Rattle.tpcc_program.specs.Openings.{named_scale, scale_fault};
ghost use Rattle.tpcc_program.specs.Tasks.{HasPlan};

use crate::command::{Command, Task};
use crate::commands::{dump_table, put_asked, script};
use crate::fault::ProgramFault;
use crate::run_command::RunCommand;
use crate::words::{WordsFault, started_words, tell_usage};
use std::alloc::{AllocError, Global};
use std::env::Env;
use std::io::{Eprint, Read, Write};
use std::sync::Wait;
use std::thread::Threads;
use std::time::Clock;
use tpcc_server::OneTurn;

/// Does a command: reads a script from `input`, writes to `out`, and gives that back with how the
/// command ended. `make` gives the call of each request of a run. Where `watched`, somebody sees
/// standard error, who is told there how far a run has come. The times of a timed command go there,
/// and the report of a run that shows other parts.
///
/// A scale that there is not is refused before anything is read or written, the first number that
/// is out of its range first. Else the fault is that of the script, of the run, or of the table or
/// the requests that were to be written.
pub fn perform<
    I: Read,
    W: Write,
    C: OneTurn + Send,
    F: Fn(Global) -> Result<C, AllocError> + Sync,
    R: Eprint + Clock + Threads + Wait + Sync,
>(
    rt: &R,
    alloc: Global,
    command: &Command,
    input: &mut I,
    out: W,
    watched: bool,
    make: F,
) -> (W, Result<(), ProgramFault>)
    requires plan { HasPlan command.now.task }
    requires make { F.IsAlwaysCallable make }
    ensures scale { (fault : ScaleFault)
        → IsErrOf result.1 (ProgramFault.Words (WordsFault.Scale fault))
        ↔ (scale_fault (named_scale command.now) ≡ Some fault) }
    ensures unwritten { IfSome (scale_fault (named_scale command.now))
        (λ _. W.contents result.0 ≡ W.contents out) }
    ensures unread { IfSome (scale_fault (named_scale command.now))
        (λ _. I.remaining input.new ≡ I.remaining input.old) }
    ensures no_script { is_script command.now.task ≡ false
        → I.remaining input.new ≡ I.remaining input.old }
    ensures performed { scale_fault (named_scale command.now) ≡ None
        → HasPerformed command.now (I.remaining input.old)
        (W.contents out) (W.contents result.0) result.1 }
{
    let scale = match command.scale() {
        Ok(scale) => scale,
        Err(fault) => return (out, Err(ProgramFault::Words(fault))),
    };
    let opening = command.opening(scale);
    let parts = command.shows.as_slice();
    match command.task {
        Task::Script => script(rt, alloc, &opening, parts, command.timed, input, out),
        Task::Dump(table) => dump_table(alloc, &opening, table, out),
        Task::Requests(asking) => put_asked(alloc, command, asking, scale, out),
        Task::Run(plan) => {
            let run = RunCommand {
                rt,
                alloc,
                opening: &opening,
                plan: &plan,
                parts,
            };
            run.write(command.timed, watched, out, make)
        }
    }
}

/// Tells on standard error what a person at a terminal sees behind the line of a fault: the range
/// that a scale left, or how the program is used. What can't be written is passed over.
pub fn explain<R: Env + AllocGlobal + Eprint>(rt: &R, alloc: Global, fault: ProgramFault) {
    let ProgramFault::Words(fault) = fault else {
        return;
    };
    if let Some(range) = fault.range() {
        let _ = rt.eprintln(range);
    }
    if let (WordsFault::Arguments, Ok(words)) = (fault, started_words(rt, alloc)) {
        tell_usage(rt, alloc, words.as_slice());
    }
}
