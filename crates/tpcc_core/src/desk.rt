//! The desk.
ghost use Rattle.std.specs.Prelude.{◌≡◌, take, is_ok, ◌↔◌, ◌<◌, ◌≤◌, ◌+◌, [], length, vec_len, IfOk, IfSome, IfNone, IfErr, OnOk, OnErr, IsErrOf, Option, Some, None, true, false};
ghost use Rattle.std.specs.Option.{option_copied};
ghost use Rattle.tpcc_book.specs.Past.{IsKept};
ghost use Rattle.tpcc_book.specs.Purses.{most_purses};
ghost use Rattle.tpcc_core.specs.OpeningDesk.{opening_desk};
ghost use Rattle.tpcc_core.specs.Runs.{Moves, Passes, StopsAt};
ghost use Rattle.tpcc_core.specs.Desks.{place_of, purse_of, collected_of};
ghost use Rattle.tpcc_core.specs.Events.{answer_place, is_ready, is_post, Steps, IsPostedAt, IsTakenAt, IsServedBy, IsAnsweredBy, IsCollectedAt, can_post, can_take, can_serve, can_answer, can_collect};

use crate::event::Event;
use crate::fault::CoreFault;
use crate::mailbox::Collected;
use crate::new_desk::{make_seats, make_servers};
use crate::seat::{DeskTerminal, refuse};
use crate::server::{Server, give_answer, serve_letter, take_letter};
use std::alloc::Global;
use std::marker::Model;
use tpcc_book::{Blanks, Book, Naming, Purse};
use tpcc_population::Opening;
use tpcc_rows::{NoMemory, Request, recall};

/// A book, the mailboxes and purses of its terminals, and the hands of its servers. It has no thread.
#[derive(Drop)]
pub struct Desk<N: Naming> {
    /// What its servers serve.
    book: Book<N>,
    /// The book's first purse, from which the terminals' purses are split.
    first: Purse<N>,
    /// The terminals, number 1 first.
    seats: Vec<DeskTerminal<Purse<N>>>,
    /// The servers, number 1 first.
    servers: Vec<Server<Purse<N>>>,
    /// Whether the mailboxes are closed.
    closed: bool,
}

impl<N: Naming> Model for Desk<N> {
    ghost use Rattle.tpcc_core.specs.Desks.{DeskNow};

    ghost Value = { DeskNow };

    ghost view = { λ d.
        record {
          book = d.book;
          first = d.first;
          seats = d.seats.items;
          hands = d.servers.items;
          closed = d.closed;
        } };
}

// The index of what has this number; the first has number 1.
fn place<T>(items: &[T], number: u32) -> Option<usize>
    ensures place { result ≡ place_of number (length items.now) }
    ensures bound { IfSome result (λ place. place < length items.now) }
{
    if number == 0 {
        return None;
    }
    let place = (number - 1) as usize;
    if place < items.len() {
        Some(place)
    } else {
        None
    }
}

// The index of the seat that the answer in a hand belongs to.
fn answer_place<P: Drop>(seats: &[DeskTerminal<P>], server: &Server<P>) -> Option<usize>
    ensures place { result ≡ answer_place server.now seats.now }
    ensures bound { IfSome result (λ place. place < length seats.now) }
{
    match server.answer_for() {
        Some(terminal) => place(seats, terminal),
        None => None,
    }
}

impl<N: Naming> Desk<N> {
    /// The desk of an opening: its book, so many terminals, 1 to 10,000, each with an empty purse, and so many
    /// servers, at least 1. Refused only for want of memory.
    pub fn start(
        alloc: Global,
        opening: &Opening,
        terminals: u32,
        servers: u32,
        blanks: Blanks,
    ) -> Result<Desk<N>, NoMemory>
        requires entries { blanks.entries.name ≡ N.entries }
        requires cents { blanks.cents.name ≡ N.cents }
        requires terminals { (1 ≤ terminals) × (terminals ≤ most_purses) }
        requires servers { 1 ≤ servers }
        ensures started { IfOk result (λ d. d ≡ opening_desk opening.now terminals servers) }
    {
        let (book, first) = Book::start(alloc, opening, blanks)?;
        let mut first = first;
        let seats = make_seats(alloc, &mut first, terminals)?;
        let servers = make_servers(alloc, servers)?;
        Ok(Desk {
            book,
            first,
            seats,
            servers,
            closed: false,
        })
    }

    /// The book. Whatever happened, its rows are consistent (3.3.2) and are the opening's followed by its
    /// journal one transaction at a time, and each entry is what its request gave at its place.
    pub fn book(&self) -> &Book<N>
        ensures book { result.now ≡ self.now.book }
        ensures kept { IsKept self.now.book }
    {
        // For the proof: the journal is that of the rows.
        recall!(self.book.journal());
        &self.book
    }

    /// The purse of a terminal; None while it is in flight, and for a number of no terminal.
    pub fn purse(&self, terminal: u32) -> Option<&Purse<N>>
        ensures purse { option_copied result ≡ purse_of self.now terminal }
    {
        match place(self.seats.as_slice(), terminal) {
            Some(seat) => self.seats[seat].purse(),
            None => None,
        }
    }

    /// What a terminal collected, the first first; nothing for a number of no terminal.
    pub fn collected(&self, terminal: u32) -> &[Collected]
        ensures collected { result.now ≡ collected_of self.now terminal }
    {
        match place(self.seats.as_slice(), terminal) {
            Some(seat) => self.seats[seat].collected(),
            None => &[],
        }
    }

    fn post(&mut self, terminal: u32, request: Request) -> Result<(), CoreFault>
        ensures posted { OnOk result (IsPostedAt self.old terminal request self.new) }
        ensures not_ready { IsErrOf result CoreFault.NotReady
            ↔ (can_post self.old terminal ≡ false) }
        ensures ready { OnOk result (can_post self.old terminal ≡ true) }
        ensures same { OnErr result (self.new ≡ self.old) }
    {
        match place(self.seats.as_slice(), terminal) {
            Some(seat) => self.seats[seat].post(request),
            None => Err(refuse(request, CoreFault::NotReady)),
        }
    }

    fn collect(&mut self, terminal: u32) -> Result<(), CoreFault>
        ensures collected { OnOk result (IsCollectedAt self.old terminal self.new) }
        ensures ready { is_ok result ≡ can_collect self.old terminal }
        ensures fault { IfErr result (λ fault. fault ≡ CoreFault.NotReady) }
        ensures same { OnErr result (self.new ≡ self.old) }
    {
        match place(self.seats.as_slice(), terminal) {
            Some(seat) => self.seats[seat].collect(),
            None => Err(CoreFault::NotReady),
        }
    }

    fn serve(&mut self, server: u32) -> Result<(), CoreFault>
        ensures served { OnOk result (IsServedBy self.old server self.new) }
        ensures ready { is_ok result ≡ can_serve self.old server }
        ensures fault { IfErr result (λ fault. fault ≡ CoreFault.NotReady) }
        ensures same { OnErr result (self.new ≡ self.old) }
    {
        match place(self.servers.as_slice(), server) {
            Some(hand) => serve_letter(&mut self.servers[hand], &mut self.book),
            None => Err(CoreFault::NotReady),
        }
    }

    fn take(&mut self, server: u32, terminal: u32) -> Result<(), CoreFault>
        ensures taken { OnOk result (IsTakenAt self.old server terminal self.new) }
        ensures ready { is_ok result ≡ can_take self.old server terminal }
        ensures fault { IfErr result (λ fault. fault ≡ CoreFault.NotReady) }
        ensures same { OnErr result (self.new ≡ self.old) }
    {
        let Some(hand) = place(self.servers.as_slice(), server) else {
            return Err(CoreFault::NotReady);
        };
        let Some(seat) = place(self.seats.as_slice(), terminal) else {
            return Err(CoreFault::NotReady);
        };
        take_letter(
            &mut self.seats[seat],
            &mut self.servers[hand],
            server,
            terminal,
        )
    }

    fn answer(&mut self, server: u32) -> Result<(), CoreFault>
        ensures answered { OnOk result (IsAnsweredBy self.old server self.new) }
        ensures ready { is_ok result ≡ can_answer self.old server }
        ensures fault { IfErr result (λ fault. fault ≡ CoreFault.NotReady) }
        ensures same { OnErr result (self.new ≡ self.old) }
    {
        let Some(hand) = place(self.servers.as_slice(), server) else {
            return Err(CoreFault::NotReady);
        };
        let Some(seat) = answer_place(self.seats.as_slice(), &self.servers[hand]) else {
            return Err(CoreFault::NotReady);
        };
        give_answer(&mut self.seats[seat], &mut self.servers[hand])
    }

    fn close(&mut self)
        ensures closed { self.new ≡ record self.old { closed = true } }
    {
        self.closed = true;
    }

    /// One event, if it is ready. Of all events a Post alone answers NoMemory.
    #[tactic(auto, using(crate::proofs::Exactly::exactly))]
    pub fn step(&mut self, event: Event) -> Result<(), CoreFault>
        ensures steps { OnOk result (Steps self.old event self.new) }
        ensures ready { OnOk result (is_ready self.old event ≡ true) }
        ensures not_ready { IsErrOf result CoreFault.NotReady ↔ (is_ready self.old event ≡ false) }
        ensures memory { IsErrOf result CoreFault.NoMemory → is_post event ≡ true }
        ensures same { OnErr result (self.new ≡ self.old) }
    {
        match event {
            Event::Post { terminal, request } => self.post(terminal, request),
            Event::Take { server, terminal } => self.take(server, terminal),
            Event::Serve { server } => self.serve(server),
            Event::Answer { server } => self.answer(server),
            Event::Collect { terminal } => self.collect(terminal),
            Event::Close => {
                self.close();
                Ok(())
            }
        }
    }

    /// The events in their order; one that is not ready is passed over. At the first want of memory, which a ready Post
    /// alone meets, it ends with the number of events before that one.
    #[tactic(auto, using(crate::proofs::Running::passes_more, crate::proofs::Running::stops))]
    pub fn run(&mut self, events: Vec<Event>) -> Result<(), u64>
        ensures all { OnOk result (Passes self.old events.items self.new) }
        ensures first { IfErr result (λ count. Passes self.old (take count events.items) self.new) }
        ensures stops { IfErr result (λ count. StopsAt events.items count self.new) }
    {
        let mut count = 0u64;
        for event in events {
            if !self.go(event) {
                return Err(count);
            }
            count += 1;
        }
        Ok(())
    }

    #[tactic(auto, using(crate::proofs::Running::ready_step, crate::proofs::Running::no_step))]
    // One event, or nothing where it is not ready; false where memory is wanted, and nothing happened.
    fn go(&mut self, event: Event) -> bool
        ensures went { result ≡ true → Moves self.old event self.new }
        ensures same { result ≡ false → self.new ≡ self.old }
        ensures memory { result ≡ false → (is_ready self.old event ≡ true)
            × (is_post event ≡ true) }
    {
        !matches!(self.step(event), Err(CoreFault::NoMemory))
    }
}
