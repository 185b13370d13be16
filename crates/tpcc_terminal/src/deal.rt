//! Dealing the next card.
ghost use Rattle.std.specs.Prelude.{◌≡◌, ◌<◌, IfOk, OnErr, OnOk, length};
ghost use Rattle.tpcc_draws.specs.Draws.{answers};
ghost use Rattle.tpcc_terminal.specs.Terminals.{deck_to_deal, next_card};

use tpcc_draws::{Card, Stream};
use tpcc_rows::NoMemory;

// Shuffles a new deck where no card is left.
#[tactic(auto, using(crate::proofs::Decks::some_cards))]
fn renew(cards: &mut Vec<Card>, stream: &mut Stream) -> Result<(), NoMemory>
    ensures renewed { OnOk result ((cards.new.items, answers stream.new)
        ≡ deck_to_deal cards.old.items (answers stream.old)) }
    ensures some { OnOk result (0 < length cards.new.items) }
    ensures refused { OnErr result
        ((cards.new.items ≡ cards.old.items) × (stream.new ≡ stream.old)) }
{
    if cards.is_empty() {
        cards.reserve(23)?;
        cards.extend_from_slice(&stream.deck()).unwrap();
    }
    Ok(())
}

/// The next card of the deck, or the first one of a new deck. Refused only for want of memory,
/// with cards and stream as they were.
pub fn deal(cards: &mut Vec<Card>, stream: &mut Stream) -> Result<Card, NoMemory>
    ensures dealt { IfOk result (λ card. (card, cards.new.items, answers stream.new)
        ≡ next_card cards.old.items (answers stream.old)) }
    ensures refused { OnErr result
        ((cards.new.items ≡ cards.old.items) × (stream.new ≡ stream.old)) }
{
    renew(cards, stream)?;
    Ok(cards.remove(0))
}
