//! The end of mailboxes: what is left in them is given back.

pub(crate) mod gather;
pub(crate) mod reclaim;
