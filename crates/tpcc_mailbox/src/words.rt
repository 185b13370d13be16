//! The words of the mailboxes: their rule, the steps on them, and who sleeps on one.

pub(crate) mod plays;
pub(crate) mod rule;
pub(crate) mod sleeping;
