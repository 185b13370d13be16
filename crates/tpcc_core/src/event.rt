//! The six events of a desk.
ghost use Rattle.std.specs.List.{list_all};
ghost use Rattle.std.specs.Prelude.{◌≡◌, true};
ghost use Rattle.tpcc_core.specs.After.{is_in_range};

use tpcc_rows::{Request, recall};

/// One atomic step of one actor. Terminals and servers are numbered from 1.
#[derive(Drop)]
pub enum Event {
    /// A terminal posts a request with its purse.
    Post { terminal: u32, request: Request },
    /// A server takes the letter that a terminal posted.
    Take { server: u32, terminal: u32 },
    /// A server has the book serve the letter in its hand.
    Serve { server: u32 },
    /// A server puts the answer in its hand into the letter's mailbox.
    Answer { server: u32 },
    /// A terminal takes its purse and its answer out of its mailbox.
    Collect { terminal: u32 },
    /// The closed flag goes up. It stops nothing.
    Close,
}

impl Event {
    /// A posted request's moment is in its range, as each [`tpcc_money::Moment`] is.
    pub fn moment_in_range(&self)
        ensures moment { is_in_range self.now ≡ true }
    {
        if let Event::Post { request, .. } = self {
            // For the proof: the moment is in its range.
            recall!(request.moment_in_range());
        }
    }
}

/// The moments of all posted requests are in their range, as the laws of [`crate::laws`] ask of a list of events.
pub fn moments_in_range(events: &[Event])
    ensures moments { list_all is_in_range events.now ≡ true }
{
    for event in events {
        // For the proof: the moment is in its range.
        recall!(event.moment_in_range());
    }
}
