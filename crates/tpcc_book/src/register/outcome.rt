//! What a turn gives back.
use tpcc_rows::{Refusal, Reply, Request};

/// A request with its outcome: a reply and the place of its entry in the journal, or a refusal and no place.
#[derive(Drop)]
pub struct Turned {
    /// The request, as it was handed in.
    pub request: Request,
    /// Its reply, or why it was refused.
    pub outcome: Result<Reply, Refusal>,
    /// The entry's place, counted from 0.
    pub place: Option<u64>,
}
