//! The words of the command line: what they ask, and what a person is told of them.
mod arguments;
mod fault;
mod options;
mod reading;
mod usage;

pub use arguments::read_command;
pub(crate) use arguments::started_words;
pub use fault::WordsFault;
pub(crate) use usage::tell_usage;
