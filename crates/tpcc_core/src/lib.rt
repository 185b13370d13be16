//! The desk: a book, mailboxes, servers' hands and terminals' purses, moved by six events, each one atomic step.
#![tactic(auto)]

mod desk;
mod event;
mod fault;
mod laws;
mod mailbox;
mod new_desk;
mod seat;
mod server;

pub use desk::Desk;
pub use event::{Event, moments_in_range};
pub use fault::CoreFault;
pub use laws::{
    answers_are_collected_in_order, book_is_kept, entries_are_accepted_requests, events_follow,
    letters_are_apart, purses_add_up, requests_are_served_in_order,
};
pub use mailbox::{Collected, Hand, Letter, Mailbox};
