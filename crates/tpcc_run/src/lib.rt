//! Runs: terminals, a delivery runner and servers, if any, each in a thread of its own, up to the settlement.
//!
//! `run` and `run_shown` have the threads of a `Plan` start, and each that was started joined; then they settle the book with all
//! purses, and write the report, or the parts that were asked for, the terminals' receipts among them. `Plan` says how many of what
//! a run has; its ranges are the constants beside it.
//!
//! ```text
//! terminal threads  --ask-->   mailboxes  --serve-->  servers     (Service::Servers)
//! terminal threads  --ask-->   turns of the book                  (Service::Direct)
//! delivery runner   --ask-->   either, deliveries alone
//! ```
//!
//! `runs` makes the book and settles it; between the two `threads` starts and joins the threads.
#![tactic(auto)]

mod plan;
mod receipt_lines;
mod run_context;
mod runs;
mod settled_book;
mod threads;

pub use plan::{
    GREATEST_RETIRE, GREATEST_TERMINAL, MOST_CARDS, MOST_SERVERS, MOST_TERMINALS, Plan, Service,
};
pub use runs::{run, run_shown};
pub use threads::fault::RunFault;
