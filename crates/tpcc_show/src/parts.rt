//! What can be shown.
ghost use Rattle.std.specs.Prelude.{◌≡◌, ◌≢◌, IfNone, IfSome, IsTrue, find};
ghost use Rattle.std.specs.Option.{option_copied};
ghost use Rattle.std.specs.Str.{bytes_eq};
ghost use Rattle.tpcc_show.specs.Names.{part_name};
ghost use Rattle.tpcc_show.specs.declared.parts.Part.{Part};

use crate::table_names::{table_name, table_named};
use tpcc_rows::{Few, Filler, Table};

/// What is shown of a book, or of what stands beside it.
#[derive(Clone, Copy, PartialEq, Eq)]
pub enum Part {
    /// The screens of the journal's entries, in its order.
    Screens,
    /// The entries, what was paid, and the rise of W_YTD: three lines.
    Report,
    /// The journal as a script: a line for each entry, in its order.
    Journal,
    /// The receipts that the terminals of a run kept, as CSV; a book alone has none.
    Receipts,
    /// The delivery result log (2.7.2.2).
    Results,
    /// The consistency conditions (3.3.2).
    Check,
    /// The rows of a table (1.3), as CSV.
    Rows(Table),
}

/// Parts in the order in which they are shown.
pub type ShownParts = Few<Part, 16>;

impl Filler for Part {
    ghost use Rattle.tpcc_show.specs.declared.parts.Part.TheVariants as parts;

    ghost filler = { parts.Report };

    fn filler() -> Self {
        Part::Report
    }
}

impl Part {
    const WORDS: [Part; 6] = [
        Part::Screens,
        Part::Report,
        Part::Journal,
        Part::Receipts,
        Part::Results,
        Part::Check,
    ];

    /// The word that asks for it, as `journal` or `ORDER-LINE`.
    pub fn name(&self) -> &'static [u8]
        ensures name { result.now ≡ part_name self.now }
    {
        match self {
            Part::Screens => b"screens",
            Part::Report => b"report",
            Part::Journal => b"journal",
            Part::Receipts => b"receipts",
            Part::Results => b"results",
            Part::Check => b"check",
            Part::Rows(table) => table_name(*table),
        }
    }
}

fn is_named(part: &Part, name: &[u8]) -> bool
    ensures equal { result ≡ bytes_eq (part_name part.now) name.now }
    ensures named { IsTrue result → part_name part.now ≡ name.now }
{
    part.name() == name
}

fn find_named<'a>(parts: &'a [Part], name: &[u8]) -> Option<&'a Part>
    ensures first { option_copied result
        ≡ find (λ part. bytes_eq (part_name part) name.now) parts.now }
    ensures named { IfSome result (λ part. part_name part.now ≡ name.now) }
{
    parts.iter().find(|part| is_named(part, name))
}

/// The part that a word asks for; none where there is no such part.
pub fn part_named(name: &[u8]) -> Option<Part>
    ensures named { IfSome result (λ part. part_name part ≡ name.now) }
    ensures unknown { IfNone result ((part : Part) → part_name part ≢ name.now) }
{
    match find_named(&Part::WORDS, name) {
        Some(part) => Some(*part),
        None => table_named(name).map(Part::Rows),
    }
}
