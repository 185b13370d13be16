//! What tests share: requests, calls that make turns, and purses at the end.

pub mod counted_turn;
pub mod plain_turn;
pub mod purses;
pub mod requests;
