//! A book whose screens were kept.
ghost use Rattle.tpcc_show.specs.Shown.{served_part};

use crate::parts::Part;
use crate::shown_book::ShownBook;
use crate::table_dump::output_fault::OutputFault;
use crate::texts::put_bytes;
use std::alloc::Global;
use std::io::Write;
use tpcc_book::{Book, Naming};
use tpcc_text::Blocks;

/// A book, and its screens as they were shown, refusals among them. Else its parts are those of the book alone.
#[derive(Clone, Copy)]
pub struct ServedBook<'a, N: Naming> {
    /// The book.
    pub book: &'a Book<N>,
    /// The screens, one after another.
    pub screens: &'a [u8],
}

impl<'a, N: Naming> ShownBook for ServedBook<'a, N> {
    ghost text = { λ served part. served_part served.screens.now served.book.now part };

    fn put_part<W: Write>(
        &self,
        alloc: Global,
        part: Part,
        blocks: &mut Blocks,
        out: &mut W,
    ) -> Result<(), OutputFault> {
        match part {
            Part::Screens => put_bytes(blocks, out, self.screens),
            _ => self.book.put_part(alloc, part, blocks, out),
        }
    }
}
