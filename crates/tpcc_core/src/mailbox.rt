//! What mailboxes and hands hold.

use tpcc_book::Answer;
use tpcc_rows::{Refusal, Reply, Request};

/// A request with the purse that it is served by.
#[derive(Drop)]
pub struct Letter<P> {
    /// What the terminal asks.
    pub request: Request,
    /// The terminal's purse.
    pub purse: P,
}

/// A terminal's mailbox. While it is free the terminal has its purse.
#[derive(Drop)]
pub enum Mailbox<P> {
    /// Nothing is posted, and the purse is at the terminal.
    Free(P),
    /// A letter waits for a server.
    Posted(Letter<P>),
    /// The server of this number has the letter or its answer in its hand.
    Taken(u32),
    /// The answer waits for the terminal.
    Answered(Answer<P>),
}

/// A server's hand. Letters and answers keep the number of their terminal.
#[derive(Drop)]
pub enum Hand<P> {
    /// It holds nothing.
    Empty,
    /// It holds a letter that was not served yet.
    Holds(u32, Letter<P>),
    /// It holds a letter's answer.
    Served(u32, Answer<P>),
}

/// What a terminal has of an answer that it collected: all but the purse.
#[derive(Drop)]
pub struct Collected {
    /// The request that was served.
    pub request: Request,
    /// Its reply, or why it was refused.
    pub outcome: Result<Reply, Refusal>,
    /// The place of its entry in the journal, counted from 0; None after a refusal.
    pub place: Option<u64>,
}
