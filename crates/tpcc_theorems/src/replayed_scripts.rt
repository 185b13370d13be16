//! The laws of a journal that is done again, each as the contract of a function with nothing to do.
ghost use Rattle.std.specs.Prelude.{◌≡◌, ◌∷◌, ◌≤◌, ℕ, List, [], Option, None, Result, length, map, true};
ghost use Rattle.std.specs.List.{list_all};
ghost use Rattle.rand_core.specs.Stream.{Stream};
ghost use Rattle.tpcc_draws.specs.declared.cards.Card.{Card};
ghost use Rattle.tpcc_rows.specs.declared.transactions.entry.Entry.{Entry};
ghost use Rattle.tpcc_rows.specs.declared.transactions.requests.Request.{Request};
ghost use Rattle.tpcc_book.specs.Past.{Past};
ghost use Rattle.tpcc_population.specs.declared.opening.Opening.{Opening};
ghost use Rattle.tpcc_population.specs.Opening.{opening_rows};
ghost use Rattle.tpcc_terminal.specs.declared.home.Home.{Home};
ghost use Rattle.tpcc_terminal.specs.Cards.{drawn_draft, request_of};
ghost use Rattle.tpcc_text.specs.RequestLines.{journal_lines, request_line};
ghost use Rattle.tpcc_text.specs.declared.script.call.Call.TheVariants.{Ask};
ghost use Rattle.tpcc_text.specs.declared.script.fault.ScriptFault.{ScriptFault};
ghost use Rattle.tpcc_text.specs.declared.script.limits.TheConstants.{MOST_LINES};
ghost use Rattle.tpcc_theorems.specs.Again.{IsDoneAgain, IsSameAgain, IsWritable, left_again, screens_again, script_again};
ghost use Rattle.tpcc_script.specs.ScriptBook.{ScriptBook};
ghost use Rattle.tpcc_script.specs.Run.{IsRun};
ghost use Rattle.tpcc_text.specs.Sayable.{has_letters, is_sayable};
ghost use Rattle.tpcc_text.specs.Script.{is_last_name, script_of};
ghost use Rattle.tpcc_script.specs.Session.{opened_book};

/// A kept book's journal, read again as a script at the book's opening, names no fault, and its screens and the book behind
/// them are those of the stored replies: the same rows and queue, and each entry's request and reply. A book is writable that
/// has at most 1,000,000 entries, whose requests have names of letters.
pub fn journal_is_done_again()
    ensures whole { (book : Past) → IsWritable book → (script_again book).fault ≡ None }
    ensures same { (book : Past) → IsWritable book
        → IsSameAgain book (screens_again book) (left_again book) }
{}

/// Whatever `run_script` does with that script: where it ends it has written just these screens and left
/// that book, or some request was refused for want of memory; no fault of the text stops it.
pub fn journal_runs_again()
    ensures { (book : Past) (old new : Option (List ℕ)) (left : ScriptBook)
        (result : Result (Unit {0}) ScriptFault)
        → IsWritable book → IsRun (opened_book book.opening) (script_again book) old new left result
        → IsDoneAgain book old new left result }
{}

/// Every opening's customers, and those that a terminal's cards name, have last names of 1 to 16 letters A to Z (4.3.2.3), whatever
/// is drawn: so a line of a script can say each of their requests.
pub fn names_are_letters()
    ensures openings { (opening : Opening)
        → list_all (λ c. is_last_name c.last) (opening_rows opening).customers ≡ true }
    ensures terminals { (home : Home) (moment : ℕ) (card : Card) (s : Stream)
        → has_letters (request_of home moment (drawn_draft home card s).0) ≡ true }
{}
