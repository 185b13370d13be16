//! The screen of a book's answer.
ghost use Rattle.std.specs.Prelude.{◌≡◌, IfOk};
ghost use Rattle.tpcc_text.specs.Screens as screens;

use std::alloc::Global;
use tpcc_book::Answer;
use tpcc_rows::NoMemory;
use tpcc_text::{Screen, refusal_screen, reply_screen};

/// The screen of an answer: that of its reply, or of its refusal. Refused only for want of memory.
pub fn screen<P>(alloc: Global, answer: &Answer<P>) -> Result<Screen, NoMemory>
    ensures shown { IfOk result (λ screen. screen ≡ screens.answer_screen answer.now.outcome) }
{
    match answer.outcome() {
        Ok(reply) => reply_screen(alloc, reply),
        Err(refusal) => refusal_screen(alloc, *refusal),
    }
}
