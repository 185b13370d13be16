//! The report of a run.

use std::fmt;
use tpcc_money::Cents;

/// What a run adds up to: the journal's entries, the payments in the terminals' purses and the
/// rise of W_YTD over all warehouses. Its text is three lines.
#[derive(Clone, Copy)]
pub struct Report {
    /// How many entries the journal has.
    pub entries: u64,
    /// The sum of the payments in the purses, in cents.
    pub paid: Cents,
    /// By how much the sum of W_YTD rose since the opening, in cents.
    pub rise: Cents,
}

impl fmt::Display for Report {
    ghost use Rattle.std.specs.Prelude.{Some};
    ghost use Rattle.tpcc_text.specs.Report.{report_text};

    ghost output = { λ r. Some (report_text r.entries r.paid r.rise) };

    fn fmt<W: fmt::Write>(&self, f: &mut fmt::Formatter<W>) -> fmt::Result {
        let Report {
            entries,
            paid,
            rise,
        } = self;
        write!(f, "entries {entries}\npaid {paid}\nrise {rise}\n")
    }
}
