//! What a journal holds.
use crate::transactions::replies::Reply;
use crate::transactions::requests::Request;

/// One accepted request with its reply.
#[derive(Drop)]
pub struct Entry {
    /// The terminal whose request it was.
    pub terminal: u32,
    /// How many entries of this terminal stand before this one: 0, 1, 2 and so on.
    pub number: u64,
    /// The request, as it was asked.
    pub request: Request,
    /// What it was answered.
    pub reply: Reply,
}
