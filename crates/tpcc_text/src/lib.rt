//! What a script says and what answers it: the lines of requests, the screens, and how they go out.
//!
//! # Screens
//!
//! `reply_screen` and `refusal_screen` give the text of an accepted and of a refused request. `consistent_screen`, `broken_screen`
//! and `results_screen` answer a check and a question for the delivery results. Their texts are those of `specs/Screens.antt`.
//!
//! # Lines
//!
//! `parse_line` reads one line of a script and gives the `Call` that it says; `request_line` gives the line that says a request. A
//! script may have `MOST_LINES` lines, of at most `LONGEST_LINE` bytes. `ScriptFault` says why a script ends early.
//!
//! `request_is_read` and `journal_is_read` are laws, each the contract of a function with nothing to do: the line that
//! `request_line` gives of a request is read as this request.
//!
//! # Blocks
//!
//! `Blocks` has bytes wait, so that they go out in few calls: `put` as often as there is more, and `end` behind the last, without
//! which what waits is lost. A writer that is interrupted is called again, at most `MOST_RETRIES` times in a row. Where it gives up
//! (`Unwritten`) a first part of the bytes is written.
//!
//! Not promised: that memory is found, and that the writer is flushed.
#![tactic(auto)]

mod blocks;
mod screens;
mod script;

pub use blocks::Blocks;
pub use blocks::unwritten::Unwritten;
pub use blocks::writing::MOST_RETRIES;
pub use screens::Screen;
pub use screens::answers::{
    broken_screen, consistent_screen, refusal_screen, reply_screen, results_screen,
};
pub use screens::report::Report;
pub use script::call::Call;
pub use script::fault::ScriptFault;
pub use script::laws::{journal_is_read, request_is_read};
pub use script::limits::{LONGEST_LINE, MOST_LINES};
pub use script::parse::parse_line;
pub use script::request_lines::request_line;
