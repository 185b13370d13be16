//! The lines of a script: what each says, and the line that says a request.

pub(crate) mod call;
pub(crate) mod fault;
pub(crate) mod laws;
pub(crate) mod limits;
pub(crate) mod parse;
pub(crate) mod request_lines;
pub(crate) mod words;
