//! A server's hand.
ghost use Rattle.std.specs.Prelude.{◌≡◌, ◌&&◌, is_ok, is_some, ◌↔◌, IfOk, IfSome, IfNone, IfErr, OnOk, OnErr, IsErrOf, Option, Some, None, true, false};
ghost use Rattle.tpcc_book.specs.Serve.{IsServed};
ghost use Rattle.tpcc_core.specs.Hands.{is_empty, holds_letter, answer_for, Serves};
ghost use Rattle.tpcc_core.specs.Internal.Hands.{IsGiven};
ghost use Rattle.tpcc_core.specs.Seats.{is_posted, is_taken};
ghost use Rattle.tpcc_core.specs.Internal.Exchanges.{IsHanded, IsReturned};

use crate::fault::CoreFault;
use crate::mailbox::{Hand, Letter};
use crate::seat::DeskTerminal;
use std::marker::Model;
use std::mem;
use tpcc_book::{Answer, Book, Naming, Purse};
use tpcc_rows::recall;

/// A server, which has one hand.
#[derive(Drop)]
pub(crate) struct Server<P> {
    /// Nothing, a letter or an answer.
    hand: Hand<P>,
}

impl<P> Model for Server<P> {
    ghost use Rattle.tpcc_core.specs.declared.mailbox.Hand.{Hand};

    ghost Value = { Hand P };

    ghost view = { λ s. s.hand };
}

impl<P: Drop> Server<P> {
    pub(crate) fn new() -> Server<P>
        ensures { result ≡ Hand.Empty }
    {
        Server { hand: Hand::Empty }
    }

    pub(crate) fn is_empty(&self) -> bool
        ensures { result ≡ is_empty self.now }
    {
        matches!(self.hand, Hand::Empty)
    }

    /// The terminal of the answer that it holds.
    pub(crate) fn answer_for(&self) -> Option<u32>
        ensures { result ≡ answer_for self.now }
    {
        match &self.hand {
            Hand::Served(terminal, _) => Some(*terminal),
            _ => None,
        }
    }

    /// Takes a letter.
    pub(crate) fn hold(&mut self, terminal: u32, letter: Letter<P>)
        requires empty { is_empty self.old ≡ true }
        ensures held { self.new ≡ Hand.Holds terminal letter }
    {
        let_go(mem::replace(&mut self.hand, Hand::Holds(terminal, letter)));
    }

    /// The letter that is to be served, with its terminal.
    pub(crate) fn release(&mut self) -> Option<(u32, Letter<P>)>
        ensures released { IfSome result (λ r. (self.old ≡ Hand.Holds r.0 r.1)
            × (self.new ≡ Hand.Empty)) }
        ensures ready { is_some result ≡ holds_letter self.old }
        ensures same { IfNone result (self.new ≡ self.old) }
    {
        match mem::replace(&mut self.hand, Hand::Empty) {
            Hand::Holds(terminal, letter) => Some((terminal, letter)),
            other => {
                let_go(mem::replace(&mut self.hand, other));
                None
            }
        }
    }

    /// Holds a letter's answer.
    pub(crate) fn show(&mut self, terminal: u32, answer: Answer<P>)
        ensures { self.new ≡ Hand.Served terminal answer }
    {
        let_go(mem::replace(&mut self.hand, Hand::Served(terminal, answer)));
    }

    /// Gives the answer away.
    pub(crate) fn give(&mut self) -> Option<Answer<P>>
        ensures given { IfSome result (λ answer. IsGiven self.old answer self.new) }
        ensures ready { is_some result ≡ is_some (answer_for self.old) }
        ensures same { IfNone result (self.new ≡ self.old) }
    {
        match mem::replace(&mut self.hand, Hand::Empty) {
            Hand::Served(_, answer) => Some(answer),
            other => {
                let_go(mem::replace(&mut self.hand, other));
                None
            }
        }
    }
}

// What a hand held before. A function of its own, since letting go of each form by value is dear to prove.
fn let_go<P: Drop>(hand: Hand<P>) {
    // For the proof: what was in the hand.
    recall!(hand);
}

// The book serves the letter in a hand; without one nothing happens.
pub(crate) fn serve_letter<N: Naming>(
    server: &mut Server<Purse<N>>,
    book: &mut Book<N>,
) -> Result<(), CoreFault>
    ensures served { OnOk result (Serves server.old book.old server.new book.new) }
    ensures ready { is_ok result ≡ holds_letter server.old }
    ensures fault { IfErr result (λ fault. fault ≡ CoreFault.NotReady) }
    ensures server { OnErr result (server.new ≡ server.old) }
    ensures book { OnErr result (book.new ≡ book.old) }
{
    match server.release() {
        Some((terminal, letter)) => {
            server.show(terminal, answer_letter(letter, book));
            Ok(())
        }
        None => Err(CoreFault::NotReady),
    }
}

fn answer_letter<N: Naming>(letter: Letter<Purse<N>>, book: &mut Book<N>) -> Answer<Purse<N>>
    ensures { IsServed book.old letter.request letter.purse result book.new }
{
    let Letter { request, purse } = letter;
    book.serve(request, purse)
}

// The letter of a posted mailbox goes into a hand; unless both are ready nothing happens.
pub(crate) fn take_letter<P: Drop>(
    seat: &mut DeskTerminal<P>,
    server: &mut Server<P>,
    number: u32,
    terminal: u32,
) -> Result<(), CoreFault>
    ensures taken { OnOk result (IsHanded seat.old server.old number terminal seat.new server.new) }
    ensures ready { is_ok result ≡ is_empty server.old && is_posted seat.old.mailbox }
    ensures fault { IfErr result (λ fault. fault ≡ CoreFault.NotReady) }
    ensures seat { OnErr result (seat.new ≡ seat.old) }
    ensures server { OnErr result (server.new ≡ server.old) }
{
    if !server.is_empty() {
        return Err(CoreFault::NotReady);
    }
    match seat.take(number) {
        Some(letter) => {
            server.hold(terminal, letter);
            Ok(())
        }
        None => Err(CoreFault::NotReady),
    }
}

// The answer in a hand goes into its mailbox; unless both are ready nothing happens.
pub(crate) fn give_answer<P: Drop>(
    seat: &mut DeskTerminal<P>,
    server: &mut Server<P>,
) -> Result<(), CoreFault>
    ensures given { OnOk result (IsReturned seat.old server.old seat.new server.new) }
    ensures ready { is_ok result ≡ is_some (answer_for server.old) && is_taken seat.old.mailbox }
    ensures fault { IfErr result (λ fault. fault ≡ CoreFault.NotReady) }
    ensures seat { OnErr result (seat.new ≡ seat.old) }
    ensures server { OnErr result (server.new ≡ server.old) }
{
    if !seat.is_taken() {
        return Err(CoreFault::NotReady);
    }
    match server.give() {
        Some(answer) => {
            seat.answer(answer);
            Ok(())
        }
        None => Err(CoreFault::NotReady),
    }
}
