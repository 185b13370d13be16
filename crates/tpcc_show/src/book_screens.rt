//! The screens of a book: of an answer, of the check of its conditions, and of its delivery results.

pub(crate) mod answer_screen;
pub(crate) mod calls;
