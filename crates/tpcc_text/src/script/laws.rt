//! The laws of lines that are written from requests, each as the contract of a function with nothing to do.
ghost use Rattle.std.specs.Prelude.{◌≡◌, ◌∷◌, ◌≤◌, List, [], None, length, map, true};
ghost use Rattle.std.specs.List.{list_all};
ghost use Rattle.tpcc_rows.specs.declared.transactions.entry.Entry.{Entry};
ghost use Rattle.tpcc_rows.specs.declared.transactions.requests.Request.{Request};
ghost use Rattle.tpcc_text.specs.RequestLines.{journal_lines, request_line};
ghost use Rattle.tpcc_text.specs.declared.script.call.Call.TheVariants.{Ask};
ghost use Rattle.tpcc_text.specs.declared.script.limits.TheConstants.{MOST_LINES};
ghost use Rattle.tpcc_text.specs.Sayable.{is_sayable};
ghost use Rattle.tpcc_text.specs.Script.{script_of};

/// The line of a request is a script that asks just this request; so it has at most 4,096 bytes. The request's numbers, moment and
/// amount are in the ranges of a script's words, a name is 1 to 16 letters A to Z, and a New-Order has at most 100 lines.
pub fn request_is_read()
    ensures { (request : Request) → is_sayable request ≡ true
        → script_of (request_line request) ≡ record { calls = Ask request ∷ []; fault = None } }
{}

/// A journal of at most 1,000,000 entries, written as a script, asks the requests of its entries in their order.
pub fn journal_is_read()
    ensures { (entries : List Entry) → list_all (λ e. is_sayable e.request) entries ≡ true
        → length entries ≤ MOST_LINES
        → script_of (journal_lines entries)
        ≡ record { calls = map (λ e. Ask e.request) entries; fault = None } }
{}
