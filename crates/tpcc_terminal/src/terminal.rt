//! A terminal.
ghost use Rattle.std.specs.Prelude.{◌≡◌, ◌≤◌, ◌++◌, IfOk, OnOk, OnErr};
ghost use Rattle.tpcc_terminal.specs.Receipts.{receipts_of};
ghost use Rattle.tpcc_terminal.specs.Terminals.{IsStarted, IsAsked};

use crate::deal::deal;
use crate::drafts::Draft;
use crate::draws::draw;
use crate::home::Home;
use crate::receipts::{NumberedPurse, Receipt, keep};
use std::alloc::Global;
use std::marker::Model;
use tpcc_book::Answer;
use tpcc_draws::{Card, Stream};
use tpcc_money::Moment;
use tpcc_population::Scale;
use tpcc_rows::{NoMemory, Request};

/// One terminal: it asks what its cards say, and keeps receipts of what was accepted (5.2.4.2). The
/// draws of the next card are made ahead, so that a refused [`Terminal::next`] has changed nothing.
#[derive(Drop)]
pub struct Terminal {
    /// Where its requests and receipts lie.
    alloc: Global,
    /// Its number, from 1 on.
    number: u32,
    /// The scale of the population that it draws from.
    scale: Scale,
    /// What its next card asks, drawn already.
    draft: Draft,
    /// The cards of its deck that are left behind the next one.
    cards: Vec<Card>,
    /// Where its further draws come from.
    stream: Stream,
    /// One for each of its entries, the first first.
    receipts: Vec<Receipt>,
}

impl Model for Terminal {
    ghost use Rattle.std.specs.Prelude.{◌≤◌};
    ghost use Rattle.tpcc_terminal.specs.Terminals.{TerminalView};

    ghost Value = { TerminalView };

    ghost view = { λ t. record {
      number = t.number;
      scale = t.scale;
      draft = t.draft;
      cards = t.cards.items;
      generator = t.stream;
      receipts = t.receipts.items;
    } };

    ghost invariant = { λ t. 1 ≤ t.number };
}

impl Terminal {
    /// Terminal `number`, counted from 1, of a population of this scale. Its draws are those of the
    /// seed's stream for it. Refused only for want of memory.
    pub fn new(alloc: Global, number: u32, scale: Scale, seed: u64) -> Result<Terminal, NoMemory>
        requires number { 1 ≤ number }
        ensures started { IfOk result (IsStarted number scale seed) }
    {
        let home = Home::of(number, scale);
        let mut stream = Stream::of(seed, 10, u64::from(number));
        let mut cards = Vec::new(alloc);
        let card = deal(&mut cards, &mut stream)?;
        let draft = draw(&mut stream, &home, card);
        Ok(Terminal {
            alloc,
            number,
            scale,
            draft,
            cards,
            stream,
            receipts: Vec::new(alloc),
        })
    }

    /// The request of the next card, at a moment. Refused only for want of memory, and then the same
    /// card comes again.
    pub fn next(&mut self, moment: Moment) -> Result<Request, NoMemory>
        ensures asked { IfOk result (λ request. IsAsked self.old moment request self.new) }
        ensures refused { OnErr result (self.new ≡ self.old) }
    {
        let home = Home::of(self.number, self.scale);
        let request = self.draft.request(self.alloc, home, moment)?;
        let card = deal(&mut self.cards, &mut self.stream)?;
        self.draft = draw(&mut self.stream, &home, card);
        Ok(request)
    }

    /// Keeps the receipt of an accepted answer, by a purse with a seat or without one; of a refused
    /// one there is nothing to keep. Refused only for want of memory, and then nothing has changed.
    pub fn note<P: NumberedPurse>(&mut self, answer: &Answer<P>) -> Result<(), NoMemory>
        ensures noted { OnOk result (self.new ≡ record self.old {
          receipts = self.old.receipts ++ receipts_of P.held answer.now;
        }) }
        ensures refused { OnErr result (self.new ≡ self.old) }
    {
        keep(&mut self.receipts, answer)
    }

    /// The receipts of all accepted answers that were noted, in their order.
    pub fn receipts(self) -> Vec<Receipt>
        ensures receipts { result.items ≡ self.receipts }
    {
        self.receipts
    }
}
