//! A terminal's seat at the desk.
ghost use Rattle.std.specs.Prelude.{◌≡◌, is_ok, is_some, IfErr, ◌<◌, ◌∷◌, ◌++◌, vec_len, vec_capacity, ◌↔◌, [], IfOk, IfSome, IfNone, OnOk, OnErr, IsErrOf, Option, Some, None, true, false};
ghost use Rattle.std.specs.Option.{option_copied};
ghost use Rattle.tpcc_core.specs.Seats.{is_free, is_posted, is_answered, is_taken, purse_at};
ghost use Rattle.tpcc_core.specs.SeatSteps.{mailbox_after_post, seat_after_collect};
ghost use Rattle.tpcc_core.specs.Internal.SeatSteps.{IsTakenFrom};

use crate::fault::CoreFault;
use crate::mailbox::{Collected, Letter, Mailbox};
use std::alloc::Global;
use std::marker::Model;
use std::mem;
use tpcc_book::Answer;
use tpcc_rows::{Request, recall};

/// A terminal's mailbox and what it collected. There is room for one more answer unless the mailbox is free.
#[derive(Drop)]
pub(crate) struct DeskTerminal<P> {
    /// What is in its mailbox, or its purse.
    mailbox: Mailbox<P>,
    /// The answers that it collected, the first first.
    collected: Vec<Collected>,
}

impl<P> Model for DeskTerminal<P> {
    ghost use Rattle.std.specs.Prelude.{vec_capacity, vec_len};
    ghost use Rattle.tpcc_core.specs.Seats.{SeatNow};
    ghost use Rattle.tpcc_core.specs.Internal.Seats.{HasRoom};

    ghost Value = { SeatNow P };

    ghost view = { λ s. record { mailbox = s.mailbox; collected = s.collected.items } };

    ghost invariant = { λ s. HasRoom s.mailbox (vec_len s.collected) (vec_capacity s.collected) };
}

impl<P: Drop> DeskTerminal<P> {
    pub(crate) fn new(alloc: Global, purse: P) -> DeskTerminal<P>
        ensures { result ≡ record { mailbox = Mailbox.Free purse; collected = [] } }
    {
        DeskTerminal {
            mailbox: Mailbox::Free(purse),
            collected: Vec::new(alloc),
        }
    }

    /// The purse, while it is at the terminal.
    pub(crate) fn purse(&self) -> Option<&P>
        ensures purse { option_copied result ≡ purse_at self.now.mailbox }
    {
        match &self.mailbox {
            Mailbox::Free(purse) => Some(purse),
            _ => None,
        }
    }

    /// What was collected, the first first.
    pub(crate) fn collected(&self) -> &[Collected]
        ensures collected { result.now ≡ self.now.collected }
    {
        self.collected.as_slice()
    }

    fn is_free(&self) -> bool
        ensures { result ≡ is_free self.now.mailbox }
    {
        matches!(self.mailbox, Mailbox::Free(_))
    }

    pub(crate) fn is_posted(&self) -> bool
        ensures { result ≡ is_posted self.now.mailbox }
    {
        matches!(self.mailbox, Mailbox::Posted(_))
    }

    pub(crate) fn is_taken(&self) -> bool
        ensures { result ≡ is_taken self.now.mailbox }
    {
        matches!(self.mailbox, Mailbox::Taken(_))
    }

    pub(crate) fn is_answered(&self) -> bool
        ensures { result ≡ is_answered self.now.mailbox }
    {
        matches!(self.mailbox, Mailbox::Answered(_))
    }

    /// The purse goes into the mailbox with a request.
    pub(crate) fn post(&mut self, request: Request) -> Result<(), CoreFault>
        ensures posted { OnOk result (self.new
            ≡ record self.old { mailbox = mailbox_after_post self.old.mailbox request }) }
        ensures not_ready { IsErrOf result CoreFault.NotReady ↔ (is_free self.old.mailbox ≡ false) }
        ensures ready { OnOk result (is_free self.old.mailbox ≡ true) }
        ensures same { OnErr result (self.new ≡ self.old) }
    {
        if !self.is_free() {
            return Err(refuse(request, CoreFault::NotReady));
        }
        if self.collected.reserve(1).is_err() {
            return Err(refuse(request, CoreFault::NoMemory));
        }
        let old = mem::replace(&mut self.mailbox, Mailbox::Taken(0));
        let_go(mem::replace(&mut self.mailbox, send(old, request)));
        Ok(())
    }

    /// A server takes the letter out.
    pub(crate) fn take(&mut self, server: u32) -> Option<Letter<P>>
        ensures taken { IfSome result (λ letter. IsTakenFrom self.old server letter self.new) }
        ensures ready { is_some result ≡ is_posted self.old.mailbox }
        ensures same { IfNone result (self.new ≡ self.old) }
    {
        match mem::replace(&mut self.mailbox, Mailbox::Taken(server)) {
            Mailbox::Posted(letter) => Some(letter),
            other => {
                let_go(mem::replace(&mut self.mailbox, other));
                None
            }
        }
    }

    /// The server that has the letter puts its answer in.
    pub(crate) fn answer(&mut self, answer: Answer<P>)
        requires taken { is_taken self.old.mailbox ≡ true }
        ensures answered { self.new ≡ record self.old { mailbox = Mailbox.Answered answer } }
    {
        let_go(mem::replace(&mut self.mailbox, Mailbox::Answered(answer)));
    }

    /// The terminal takes its purse and its answer out.
    pub(crate) fn collect(&mut self) -> Result<(), CoreFault>
        ensures collected { OnOk result (self.new ≡ seat_after_collect self.old) }
        ensures ready { is_ok result ≡ is_answered self.old.mailbox }
        ensures fault { IfErr result (λ fault. fault ≡ CoreFault.NotReady) }
        ensures same { OnErr result (self.new ≡ self.old) }
    {
        match mem::replace(&mut self.mailbox, Mailbox::Taken(0)) {
            Mailbox::Answered(answer) => {
                let (request, outcome, place, purse) = answer.into_parts();
                keep(
                    &mut self.collected,
                    Collected {
                        request,
                        outcome,
                        place,
                    },
                );
                let_go(mem::replace(&mut self.mailbox, Mailbox::Free(purse)));
                Ok(())
            }
            other => {
                let_go(mem::replace(&mut self.mailbox, other));
                Err(CoreFault::NotReady)
            }
        }
    }
}

// What a mailbox held before. A function of its own, since letting go of each form by value is dear to prove.
fn let_go<P: Drop>(mailbox: Mailbox<P>) {
    // For the proof: what was in the mailbox.
    recall!(mailbox);
}

// One more answer, for which there is room.
fn keep(collected: &mut Vec<Collected>, one: Collected)
    requires room { vec_len collected.old < vec_capacity collected.old }
    ensures kept { collected.new.items ≡ collected.old.items ++ one ∷ [] }
{
    collected.push(one).unwrap();
}

// A request that was not posted.
pub(crate) fn refuse(request: Request, fault: CoreFault) -> CoreFault
    ensures { result ≡ fault }
{
    // For the proof: the moment is in its range.
    recall!(request);
    fault
}

// The purse of a free mailbox goes into it with a request.
fn send<P: Drop>(mailbox: Mailbox<P>, request: Request) -> Mailbox<P>
    ensures { result ≡ mailbox_after_post mailbox request }
{
    match mailbox {
        Mailbox::Free(purse) => post_letter(request, purse),
        other => keep_mailbox(request, other),
    }
}

fn post_letter<P: Drop>(request: Request, purse: P) -> Mailbox<P>
    ensures { result ≡ Mailbox.Posted (record { request = request; purse = purse }) }
{
    Mailbox::Posted(Letter { request, purse })
}

fn keep_mailbox<P: Drop>(request: Request, mailbox: Mailbox<P>) -> Mailbox<P>
    ensures { result ≡ mailbox }
{
    // For the proof: the moment is in its range.
    recall!(request);
    mailbox
}
