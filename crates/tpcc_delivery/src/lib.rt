//! Delivery (2.7): the queue of tickets, and runs that deliver one district each.
#![tactic(auto)]

mod charge;
mod delivery_queue;
mod runs;
mod tickets;

pub use delivery_queue::Queue;
pub use runs::{PreparedRun, deliver_next, finish_run, prepare_run};
pub use tickets::{finish_ticket, prepare_ticket, queue};
