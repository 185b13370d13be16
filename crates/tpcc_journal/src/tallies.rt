//! How many entries each terminal has made.
ghost use Rattle.std.specs.Prelude.{◌≡◌, ◌+◌, ◌<◌, ◌≤◌, ◌^◌, ◌==◌, ℕ, position, vec_len, vec_capacity, if◌then◌else◌};
ghost use Rattle.tpcc_journal.specs.Internal.Tallies.{is_of, tally_of};

/// A terminal that has entries, and how many.
#[derive(Clone, Copy)]
pub(crate) struct Tally {
    /// Its number.
    terminal: u32,
    /// How many entries it has, 1 or more.
    count: u64,
}

/// How many entries a terminal has made.
pub(crate) fn tally_of(tallies: &[Tally], terminal: u32) -> u64
    ensures { result ≡ tally_of terminal tallies.now }
{
    match tallies.iter().find(|tally| tally.terminal == terminal) {
        Some(tally) => tally.count,
        None => 0,
    }
}

fn place_of(tallies: &[Tally], terminal: u32) -> Option<usize>
    ensures { result ≡ position (is_of terminal) tallies.now }
{
    tallies.iter().position(|tally| tally.terminal == terminal)
}

/// One more entry of a terminal; takes no memory.
pub(crate) fn add_one(tallies: &mut Vec<Tally>, terminal: u32)
    requires room { vec_len tallies.old < vec_capacity tallies.old }
    requires small { tally_of terminal tallies.old.items + 1 < 2 ^ 64 }
    ensures counted { (t : ℕ) → tally_of t tallies.new.items
        ≡ tally_of t tallies.old.items + (if t == terminal then 1 else 0) }
{
    match place_of(tallies.as_slice(), terminal) {
        Some(place) => tallies[place].count += 1,
        None => tallies.push_reserved(Tally { terminal, count: 1 }),
    }
}
