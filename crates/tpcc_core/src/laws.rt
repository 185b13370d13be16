//! The laws of every list of events, each as the contract of a function with nothing to do.
ghost use Rattle.std.specs.List.{list_all};
ghost use Rattle.std.specs.Prelude.{◌≡◌, ◌≤◌, ℕ, List, [], ◌++◌, map, All, true};
ghost use Rattle.tpcc_book.specs.Past.{IsKept};
ghost use Rattle.tpcc_book.specs.Purses.{most_purses};
ghost use Rattle.tpcc_population.specs.declared.opening.Opening.{Opening};
ghost use Rattle.tpcc_core.specs.declared.event.Event.{Event};
ghost use Rattle.tpcc_core.specs.After.{After, is_in_range, posted_requests, served_answers};
ghost use Rattle.tpcc_core.specs.Desks.{DeskNow, collected_of};
ghost use Rattle.tpcc_core.specs.Events.{can_answer, tests_at};
ghost use Rattle.tpcc_core.specs.Hands.{holds_answer};
ghost use Rattle.tpcc_core.specs.Flights.{IsOrdered, under_way, unserved_request};
ghost use Rattle.tpcc_core.specs.Runs.{Passes};
ghost use Rattle.tpcc_core.specs.OpeningDesk.{opening_desk};
ghost use Rattle.tpcc_core.specs.SeatSteps.{waiting_answer};
ghost use Rattle.tpcc_core.specs.Shares.{AddsUp};
ghost use Rattle.tpcc_core.specs.Traces.{entries_by, entries_from, IsRecorded, IsAllOrAllButLast};

use tpcc_laws::laws;
use tpcc_population::{Opening, opening_is_sound};
use tpcc_rows::recall;

/// The book's rows are consistent (3.3.2) and are the opening's followed by its journal one transaction at a time, and
/// each entry is what its request gave at its place.
pub fn book_is_kept(opening: Opening)
    ensures kept { (terminals servers : ℕ) (events : List Event) (desk : DeskNow)
        → After opening terminals servers events desk → IsKept desk.book }
    ensures opening { (terminals servers : ℕ) (events : List Event) (desk : DeskNow)
        → After opening terminals servers events desk → desk.book.opening ≡ opening }
{
    // For the proof: the conditions hold of an opening; a turn keeps the conditions; W_YTD rises by what is paid; one more entry is one more transaction.
    recall!(opening_is_sound(opening));
    recall!(laws::turn_keeps());
    recall!(laws::turn_pays());
    recall!(laws::journal_grows());
}

/// A letter or its answer is in one place alone, at most one of a terminal and one in a hand. So an Answer is ready
/// exactly where the server's hand holds an answer.
pub fn letters_are_apart()
    ensures apart { (opening : Opening) (terminals servers : ℕ) (events : List Event)
        (desk : DeskNow)
        → After opening terminals servers events desk → IsOrdered desk }
    ensures answers { (opening : Opening) (terminals servers : ℕ) (events : List Event)
        (desk : DeskNow)
        → After opening terminals servers events desk → (server : ℕ)
        → can_answer desk server ≡ tests_at holds_answer desk.hands server }
{}

/// A terminal's requests are served once each and in posting order: all that it posted, or all but the last, which
/// is then under way.
pub fn requests_are_served_in_order()
    ensures order { (opening : Opening) (terminals servers : ℕ) (events : List Event)
        (desk : DeskNow) (after : After opening terminals servers events desk) (terminal : ℕ)
        → IsAllOrAllButLast (map (λ answer. answer.request) (served_answers after terminal))
        (posted_requests after terminal) }
    ensures last { (opening : Opening) (terminals servers : ℕ) (events : List Event)
        (desk : DeskNow) (after : After opening terminals servers events desk) (terminal : ℕ)
        → posted_requests after terminal
        ≡ map (λ answer. answer.request) (served_answers after terminal)
        ++ unserved_request (under_way desk terminal) }
{}

/// A terminal has collected all its answers, or all but the last, which is then under way.
pub fn answers_are_collected_in_order()
    ensures order { (opening : Opening) (terminals servers : ℕ) (events : List Event)
        (desk : DeskNow) (after : After opening terminals servers events desk) (terminal : ℕ)
        → IsAllOrAllButLast (collected_of desk terminal) (served_answers after terminal) }
    ensures last { (opening : Opening) (terminals servers : ℕ) (events : List Event)
        (desk : DeskNow) (after : After opening terminals servers events desk) (terminal : ℕ)
        → served_answers after terminal
        ≡ collected_of desk terminal ++ waiting_answer (under_way desk terminal) }
{}

/// A terminal's entries in the journal are its accepted requests with their replies, in the order of serving and numbered
/// 0, 1, 2 and so on. Each accepted answer, collected or under way, is that of the entry at its place.
pub fn entries_are_accepted_requests()
    ensures entries { (opening : Opening) (terminals servers : ℕ) (events : List Event)
        (desk : DeskNow) (after : After opening terminals servers events desk) (terminal : ℕ)
        → entries_by terminal desk.book.entries
        ≡ entries_from terminal 0 (served_answers after terminal) }
    ensures served { (opening : Opening) (terminals servers : ℕ) (events : List Event)
        (desk : DeskNow) (after : After opening terminals servers events desk) (terminal : ℕ)
        → All (IsRecorded desk.book.entries terminal) (served_answers after terminal) }
    ensures collected { (opening : Opening) (terminals servers : ℕ) (events : List Event)
        (desk : DeskNow) (after : After opening terminals servers events desk) (terminal : ℕ)
        → All (IsRecorded desk.book.entries terminal) (collected_of desk terminal) }
{}

/// The purses at the terminals, in letters, in hands and in answers are all there with the first: their entries add up
/// to the journal's length, and their cents to the rise of the sum of W_YTD.
pub fn purses_add_up(opening: Opening)
    ensures { (terminals servers : ℕ) (events : List Event) (desk : DeskNow)
        → After opening terminals servers events desk → AddsUp desk }
{
    book_is_kept(opening);
}

/// A run over more events goes on where the one before it ended.
pub fn events_follow()
    ensures start { (opening : Opening) (terminals servers : ℕ) → (1 ≤ terminals)
        × (terminals ≤ most_purses) → 1 ≤ servers
        → After opening terminals servers [] (opening_desk opening terminals servers) }
    ensures more { (opening : Opening) (terminals servers : ℕ) (events later : List Event)
        (desk last : DeskNow)
        → After opening terminals servers events desk → list_all is_in_range later ≡ true
        → Passes desk later last
        → After opening terminals servers (events ++ later) last }
{}
