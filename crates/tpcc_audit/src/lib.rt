//! Audits of order entry: the settlement of a book with all purses, and its report.
//!
//! `settle` ends the turns of a book with all purses, and gives the book and a `Report`, whose two amounts are equal; `report` writes
//! it. Where a purse is missing there is no report: `Unsettled`. After `report`, which drops its writer, how much of the text is
//! written at a fault is not said.
//!
//! Not promised: that the writer is flushed, and that memory is found.
#![tactic(auto)]

mod reporting;
mod settlement;

pub use reporting::{ReportFault, report};
pub use settlement::{Unsettled, settle};
