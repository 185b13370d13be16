//! The program: how what the words ask is done, and why it ends early and with which status.
//!
//! [`read_command`] reads the words by `clap`, as a [`Command`]. [`perform`] does it, by `commands`
//! and `run_command`, on any reader and writer. [`explain`] is for a person.
//! `Progress` counts the turns of a run, and tells of them once a second at most; `timing` tells how long a command took.
#![tactic(auto)]

mod command;
mod commands;
mod fault;
mod performing;
mod progress;
mod requests;
mod run_command;
mod timing;
mod words;

pub use command::{Command, RequestsCommand, Task};
pub use fault::ProgramFault;
pub use performing::{explain, perform};
pub use progress::{CountedTurn, Progress, ProgressLine};
pub use words::{WordsFault, read_command};
