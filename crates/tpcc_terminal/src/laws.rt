//! What receipts are good for, each law as the contract of a function with nothing to do.
ghost use Rattle.std.specs.Prelude.{◌≡◌, ◌++◌, List};
ghost use mathlib.Core.List.{IsPrefix};
ghost use Rattle.tpcc_rows.specs.declared.transactions.entry.Entry.{Entry};
ghost use Rattle.tpcc_rows.specs.declared.transactions.requests.Request.{Request};
ghost use Rattle.tpcc_book.specs.Past.{Past};
ghost use Rattle.tpcc_book.specs.Purses.{PurseView};
ghost use Rattle.tpcc_book.specs.Serve.{IsServed};
ghost use Rattle.tpcc_turns.specs.Seats.{SeatedView, IsTurned};
ghost use Rattle.tpcc_book.specs.AnswerView.{AnswerView};
ghost use Rattle.tpcc_terminal.specs.declared.receipts.Receipt.{Receipt};
ghost use Rattle.tpcc_terminal.specs.Receipts.{receipts_of, AllStand};

/// Receipts that stand in a journal, and the receipt of the next answer by a purse, stand in the
/// journal after it: each is the journal's entry at its place. Of a purse at turns the same holds of
/// the front, the entries that it has seen.
pub fn receipts_stand()
    ensures served { (old new : Past) (request : Request) (purse : PurseView)
        (answer : AnswerView PurseView) (receipts : List Receipt)
        → IsServed old request purse answer new → AllStand old.entries receipts
        → AllStand new.entries (receipts ++ receipts_of (λ p. p) answer) }
    ensures turned { (request : Request) (purse : SeatedView) (answer : AnswerView SeatedView)
        (receipts : List Receipt)
        → IsTurned request purse answer → AllStand purse.front receipts
        → AllStand answer.purse.front (receipts ++ receipts_of (λ p. p.purse) answer) }
{}

/// Receipts that stand in a journal stand in each longer one.
pub fn receipts_stay()
    ensures { (entries longer : List Entry) (receipts : List Receipt)
        → IsPrefix entries longer → AllStand entries receipts → AllStand longer receipts }
{}
