//! The laws of the model that carry the system, each as the contract of a function with nothing to do.
ghost use Rattle.std.specs.Prelude.{◌≡◌, ◌↔◌, ◌++◌, ◌∷◌, ◌+ℤ◌, ◌≤ℤ◌, List, [], None, pos, true};
ghost use Rattle.tpcc_money.specs.Amounts.{total};
ghost use Rattle.tpcc_rows.specs.declared.transactions.entry.Entry.{Entry};
ghost use Rattle.tpcc_rows.specs.declared.transactions.requests.Request.{Request};
ghost use Rattle.tpcc_rows.specs.Conditions.{IsConsistent, first_broken};
ghost use Rattle.tpcc_rows.specs.Moments.{has_moment_in_range};
ghost use Rattle.tpcc_rows.specs.Replay.{replay, IsFaithful, IsServedAt, paid_by_request};
ghost use Rattle.tpcc_rows.specs.SoundState.{IsSoundState};
ghost use Rattle.tpcc_rows.specs.Tables.{Rows, State};
ghost use Rattle.tpcc_rows.specs.Turn.{refusal, state_after};
ghost use Rattle.tpcc_rows.specs.WellKeyed.{IsWellKeyed};
ghost use Rattle.tpcc_rows.specs.declared.limits.TheConstants.{GREATEST_PAYMENT};

/// A request that nothing refuses, with its moment in range, keeps keys, references and ranges,
/// the queue's ranges, that each item is stocked, and conditions 1 to 10 and 12 (3.3.2).
pub fn turn_keeps()
    ensures { (s : State) (request : Request)
        → has_moment_in_range request ≡ true → refusal s request ≡ None
        → IsSoundState s → IsSoundState (state_after s request) }
{}

/// A request that nothing refuses raises the sum of W_YTD by what it pays, which is 0.00 to 5,000.00.
pub fn turn_pays()
    ensures rises { (s : State) (request : Request) → refusal s request ≡ None → IsWellKeyed s.rows
        → total (λ w. w.ytd) (state_after s request).rows.warehouses
        ≡ total (λ w. w.ytd) s.rows.warehouses +ℤ paid_by_request request }
    ensures least { (s : State) (request : Request)
        → refusal s request ≡ None → pos 0 ≤ℤ paid_by_request request }
    ensures most { (s : State) (request : Request)
        → refusal s request ≡ None → paid_by_request request ≤ℤ GREATEST_PAYMENT }
{}

/// One more entry is one more transaction, and a journal stays faithful by an entry that is what
/// its request gives there.
pub fn journal_grows()
    ensures replay { (s : State) (entries : List Entry) (entry : Entry)
        → replay s (entries ++ entry ∷ []) ≡ state_after (replay s entries) entry.request }
    ensures faithful { (s : State) (entries : List Entry) (entry : Entry) → IsFaithful s entries
        → IsServedAt (replay s entries) entries entry → IsFaithful s (entries ++ entry ∷ []) }
{}

/// No condition is named as broken exactly where all of them hold.
pub fn nothing_broken()
    ensures { (rows : Rows) → (first_broken rows ≡ None) ↔ IsConsistent rows }
{}
