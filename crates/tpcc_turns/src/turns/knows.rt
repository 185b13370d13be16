//! What a seat at the turns knows.
use std::marker::{Model, PhantomData};

/// What a seat knows, as clauses see it: the book's opening, the entries that it has seen, its parts of the book of
/// the 10,001 that there are, where it stands, and what it heard from seats that were joined into it. No value of it
/// is made, so it has no fields that would have to be let go.
pub struct Knows {
    of: PhantomData<()>,
}

impl Model for Knows {
    ghost use Rattle.tpcc_turns.specs.Knows.{Knows};

    ghost Value = { Knows };

    ghost use Rattle.tpcc_turns.specs.Internal.Shares.{nobody};

    ghost view = { λ _. nobody };
}
