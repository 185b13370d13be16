//! Once-only jobs, clients that ask for them, and servers that run them in turn.
//!
//! A job is a request, a purse and a call that makes one turn of the book. A client posts it in its own
//! mailbox by `ask`. A server takes it, waits for the purse's turn, makes the call once and answers; the
//! answer that the client collects is of that very request and purse.
//!
//! ```text
//! client:  ask -----post-----> mailbox                            mailbox --collect--> answer
//! server:                      mailbox --take--> the job's turn --answer--> mailbox
//! ```
//!
//! # Servers
//!
//! `serve_round` looks at each mailbox once. `serve_until_closed` makes rounds until it has answered as many jobs as
//! it may, or the mailboxes were closed before its last round. A server has a purse of its own, which
//! keeps the book's turn from job to job while nobody else waits for it; so it draws no ticket for each job.
//! When it finds no job for a while it gives the turn up, and later sleeps until a letter is posted.
//!
//! A `Gate` is called before and after each job, and may hold a server up. A server that may be held up ends its
//! turn before it passes its gate.
//!
//! # Calls
//!
//! Who makes a job hands in its call: a box (`Job::new`), or any `OneTurn` (`Job::of`). Running a job spends it, and so
//! does giving it back; a call is made once at most.
//!
//! Not promised: that a job is ever taken, and anything of time.
#![tactic(auto)]

mod asking;
mod errand;
mod gate;
mod job;
mod lull;
mod one_turn;
mod serving;
mod turn_state;

pub use asking::ask;
pub use errand::Errand;
pub use gate::{Gate, OpenGate};
pub use job::{Job, JobAnswer, JobIdle, JobLabel, JobMailboxes, JobServing, JobWaiting};
pub use one_turn::{BoxedTurn, OneTurn, TurnCall};
pub use serving::{serve_round, serve_until_closed};
