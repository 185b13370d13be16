//! What a transaction asks and answers, and its entry in the journal.

pub(crate) mod entry;
pub(crate) mod refusals;
pub(crate) mod replies;
pub(crate) mod requests;
