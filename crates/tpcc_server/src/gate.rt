//! What a server passes at each job.

/// What a server calls before and after each job. No contract is asked of it: whatever it does, and
/// however long it takes, the server's jobs are answered as they were asked.
pub trait Gate {
    /// Whether it never holds a server up. Only at such a gate a server keeps the book's turn, and so needs no
    /// ticket for its next job.
    fn is_open(&self) -> bool;

    /// Called between the take and the turn, with the number of the mailbox, counted from 0.
    fn before(&mut self, mailbox: usize);

    /// Called once the job is answered.
    fn after(&mut self, mailbox: usize);
}

/// A gate that does nothing.
#[derive(Drop)]
pub struct OpenGate;

impl Gate for OpenGate {
    fn is_open(&self) -> bool {
        true
    }

    fn before(&mut self, _mailbox: usize) {}

    fn after(&mut self, _mailbox: usize) {}
}
