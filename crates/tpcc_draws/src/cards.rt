//! The deck of transactions that a terminal deals from (5.2.4.2).
ghost use Rattle.std.specs.Prelude.{◌≡◌};
ghost use Rattle.tpcc_draws.specs.Cards.{cards};

/// A card of a terminal's deck: which of the five transactions comes next.
#[derive(Clone, Copy, Debug, PartialEq, Eq)]
pub enum Card {
    /// New-Order (2.4): ten of a deck's 23 cards.
    NewOrder,
    /// Payment (2.5): ten of them.
    Payment,
    /// Order-Status (2.6): one of them.
    OrderStatus,
    /// Delivery (2.7): one of them.
    Delivery,
    /// Stock-Level (2.8): one of them.
    StockLevel,
}

// The deck before its shuffle.
pub(crate) fn all_cards() -> [Card; 23]
    ensures cards { result ≡ cards }
{
    let mut all = [Card::NewOrder; 23];
    all[10..20].copy_from_slice(&[Card::Payment; 10]);
    all[20..].copy_from_slice(&[Card::OrderStatus, Card::Delivery, Card::StockLevel]);
    all
}
