//! What columns hold: texts, numerals, and short lists.

pub(crate) mod few;
pub(crate) mod numerals;
pub(crate) mod text;
