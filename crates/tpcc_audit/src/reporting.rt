//! The report of a run.
ghost use Rattle.std.specs.Prelude.{IfOk};
ghost use Rattle.std.specs.Io.KnownBytes.{Appends};
ghost use Rattle.tpcc_text.specs.Report.{report_text};

use std::io::Write;
use thiserror::Error;
use tpcc_text::Report;

/// Why a report was not written whole. The text is the program's line on standard error.
#[derive(Clone, Copy, Debug, Error)]
pub enum ReportFault {
    /// The writer failed or took nothing.
    #[error("fault 1 Write")]
    Write,
}

/// Writes the three lines of a report: the entries, what was paid, and the rise of W_YTD. Answers the
/// writer. Write where the writer fails; it is then let go, and how much of the text it took is unknown.
pub fn report<W: Write + Drop>(report: &Report, out: W) -> Result<W, ReportFault>
    ensures written { IfOk result (λ w. Appends (W.contents out) (W.contents w)
        (report_text report.now.entries report.now.paid report.now.rise)) }
{
    let mut out = out;
    match write!(out, "{report}") {
        Ok(()) => Ok(out),
        Err(_) => Err(ReportFault::Write),
    }
}
