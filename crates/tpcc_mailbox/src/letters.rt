//! Letters, and the answers that fit them.

pub(crate) mod answers;
pub(crate) mod room;
