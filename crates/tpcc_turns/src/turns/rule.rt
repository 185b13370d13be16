//! The rule of the turns, and the kinds of step.
//!
//! Word 0 is the next ticket to be drawn, word 1 the ticket that is served. The one slot holds the book,
//! which the seat that is served has to itself.
use crate::turns::knows::Knows;
use atomic_table::{Play, TableRule};
use std::marker::PhantomData;
use tpcc_book::{Book, Naming};
use tpcc_population::Opening;

/// The rule by which the two words, the book and the seats stand to one another.
pub struct TurnRule<N> {
    of: PhantomData<N>,
}

impl<N: Naming> TableRule<Option<Book<N>>, Knows, Opening> for TurnRule<N> {
    ghost use Rattle.tpcc_turns.specs.Internal.TurnRule.{FollowsTurnRule, first};

    ghost holds = { FollowsTurnRule };

    ghost first = { first };
}

/// Drawing a ticket.
pub struct Draw;

impl<N: Naming> Play<Option<Book<N>>, Knows> for Draw {
    ghost use Rattle.tpcc_turns.specs.Internal.TurnRule.{DrawStep};

    ghost then = { DrawStep };
}

/// Looking whether it is served, and taking the book.
pub struct Look;

impl<N: Naming> Play<Option<Book<N>>, Knows> for Look {
    ghost use Rattle.tpcc_turns.specs.Internal.TurnRule.{LookStep};

    ghost then = { LookStep };
}

/// Telling that the journal is that of the book in hand.
pub struct Grow;

impl<N: Naming> Play<Option<Book<N>>, Knows> for Grow {
    ghost use Rattle.tpcc_turns.specs.Internal.TurnRule.{GrowStep};

    ghost then = { GrowStep };
}

/// Giving the book back, and serving the next ticket.
pub struct End;

impl<N: Naming> Play<Option<Book<N>>, Knows> for End {
    ghost use Rattle.tpcc_turns.specs.Internal.TurnRule.{EndStep};

    ghost then = { EndStep };
}
