//! The settlement of a book with all purses.
ghost use Rattle.std.specs.Prelude.{◌≡◌, ◌↔◌, List, IsOk, IfOk, IfErr, IfSome};
ghost use Rattle.tpcc_book.specs.Purses.{all_shares};
ghost use Rattle.tpcc_turns.specs.Seats.{purses_of};
ghost use Rattle.tpcc_book.specs.Serve.{rooms_of};
ghost use Rattle.tpcc_audit.specs.Settlement.{AllSeen, IsSettled, IsUnsettled};
ghost use Rattle.tpcc_terminal.specs.declared.receipts.Receipt.{Receipt};

use thiserror::Error;
use tpcc_book::{Book, Naming};
use tpcc_rows::recall;
use tpcc_terminal::receipts_stay;
use tpcc_text::Report;
use tpcc_turns::{SeatedPurse, Seating, Turns};

/// Why a book was not settled.
#[derive(Clone, Copy, Debug, Error)]
pub enum Unsettled {
    /// The purses are not all there: their number and their rooms do not add up to 10,001.
    #[error("fault 1 Missing")]
    Missing,
}

/// Ends the turns and settles their book with the purses: all entries and payments of the purses are the
/// journal's length and the rise of W_YTD (3.3.2.1), which is read off the rows.
///
/// No receipt is compared with the journal when this runs: each that stands in the front of a purse stands in the
/// journal at its place.
///
/// Missing is the one refusal; the purses are spent all the same. Then there is no book where a turn was
/// drawn and not ended, which needs a purse that is held back in the middle of a call. It takes no memory
/// and does not wait.
pub fn settle<N: Naming, T: Seating>(
    turns: Turns<N, T>,
    purses: Vec<SeatedPurse<N, T>>,
) -> Result<(Book<N>, Report), (Option<Book<N>>, Unsettled)>
    ensures exactly { IsOk result ↔ (rooms_of (purses_of purses.items) ≡ all_shares) }
    ensures settled { (receipts : List Receipt) → AllSeen purses.items receipts
        → IfOk result (λ r. IsSettled turns purses.items receipts r.0 r.1) }
    ensures missing { (receipts : List Receipt) → AllSeen purses.items receipts
        → IfErr result (λ e. IfSome e.0 (IsUnsettled turns purses.items receipts)) }
{
    // For the proof: receipts stand in a longer journal.
    recall!(receipts_stay());
    match turns.gather(purses) {
        Ok((book, entries, paid)) => {
            // The purses tell what was paid and the rows tell the rise: all shares are here, so they are equal.
            let report = Report {
                entries,
                paid,
                rise: book.rise(),
            };
            Ok((book, report))
        }
        Err(book) => Err((book, Unsettled::Missing)),
    }
}
