//! Scripts: lines of requests and calls, and the screens that answer them.
//!
//! `run_script` reads a script from a reader, serves each line on a fresh book and writes its screen. A `Session` does the same and has the
//! book that is left. `show_script` keeps the screens, and writes parts of the book that the script leaves behind it; after a fault they are
//! those of the requests before it.
//!
//! The script is read ahead in blocks, and its screens go out in blocks: all that wait are written, and the writer is flushed,
//! before the reader is called again and before a fault is told. So who writes a line and waits has its screen before the next line.
//!
//! The lines before a fault (`ScriptFault` of `tpcc_text`) were served, and their screens are written; where writing itself fails a first
//! part of them is.
//!
//! That a book's journal, which is a script, leads to the same book is in `tpcc_theorems`.
//!
//! Not promised: that memory is found, and that an interrupted call ends well at last; after so many in a row it is given up.
#![tactic(auto)]

mod reader;
mod screen_buffer;
mod script;
mod session;
mod shown_script;
mod watch;
mod writer;

pub use script::run_script;
pub use session::Session;
pub use shown_script::show_script;
