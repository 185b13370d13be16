//! What is shown of a book: screens, report, journal, receipts, delivery results, check and tables, as text.
//!
//! Each of these is a `Part`; `part_named` finds it by its word, and a command line has room for 16 of them (`ShownParts`).
//! `show` writes parts in the order in which they are given: one alone as it is, several each under a heading with its word.
//!
//! Parts are shown of a `ShownBook`. Of a `Book` alone the screens are those of the journal's replies, and there are no receipts; of
//! a `ServedBook` they are the screens that were kept as they were written. Who keeps more beside a book implements the trait.
//!
//! # Screens of a book
//!
//! `screen` gives the text of an answer, accepted or refused, in the words of `tpcc_text`. `check_screen` and `results_screen`
//! answer the two calls of a script that are no requests, and leave the book as it is. `put_screen` puts a screen, or another such
//! text, into blocks.
//!
//! # Tables
//!
//! `dump` and `dump_to` write a table as comma-separated values; `table_named` finds it by its name. `dump_is_read_back` is a law,
//! the contract of a function with nothing to do: a reader of comma-separated values gets the very records.
//!
//! A writer that is interrupted is called again, as often in a row as `tpcc_text` says; at a fault a first part of the text is
//! written.
//!
//! Not promised: that the writer is flushed, and that memory is found. A text is made whole before it is put, a journal and a
//! table some rows at a time.
#![tactic(auto)]

mod book_screens;
mod entries;
mod parts;
mod served_book;
mod showing;
mod shown_book;
mod table_dump;
mod table_names;
mod texts;

pub use book_screens::answer_screen::screen;
pub use book_screens::calls::{check_screen, results_screen};
pub use parts::{Part, ShownParts, part_named};
pub use served_book::ServedBook;
pub use showing::show;
pub use shown_book::ShownBook;
pub use table_dump::dumping::{dump, dump_to};
pub use table_dump::laws::dump_is_read_back;
pub use table_dump::output_fault::OutputFault;
pub use table_names::table_named;
pub use texts::put_screen;
