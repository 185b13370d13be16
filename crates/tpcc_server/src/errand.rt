//! Work that is served once.
ghost use Rattle.tpcc_rows.specs.declared.transactions.requests.Request.{Request};
ghost use Rattle.tpcc_turns.specs.Seats.{SeatedView, IsTurned};

use std::sync::Wait;
use tpcc_book::{Answer, Naming};
use tpcc_turns::{SeatedPurse, Seating, Turns};

/// A request and a purse that are served once, in turn: running the errand spends it.
pub trait Errand<N: Naming, T: Seating> {
    /// What it asks.
    ghost request: { Self → Request };

    /// By which purse.
    ghost purse: { Self → SeatedView };

    /// Waits for the purse's turn, and serves the request for it.
    fn run<R: Wait>(self, turns: &Turns<N, T>, rt: &R) -> Answer<SeatedPurse<N, T>>
        ensures turned { IsTurned (request self) (purse self) result };
}
