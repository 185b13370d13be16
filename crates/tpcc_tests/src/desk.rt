//! Desks of two terminals, step by step and as one run. One function owns the desk, and lends it.
ghost use Rattle.std.specs.Prelude.{◌≡◌, ◌≤◌};

use crate::samples::requests::{balance, let_go, opening, payment, status};
use std::alloc::Global;
use std::marker::Brand;
use std::process::Abort;
use tpcc_book::{Blanks, Naming};
use tpcc_core::{Desk, Event};
use tpcc_money::Cents;
use tpcc_rows::NoMemory;

/// What happens at a new desk of two terminals.
pub trait AtDesk: Drop {
    /// Nobody has posted yet.
    fn happens<N: Naming, R: Abort>(self, rt: &R, alloc: Global, desk: &mut Desk<N>);
}

/// Lends a desk of so many servers, whose book is named here.
pub fn at_desk<A: AtDesk, R: Abort>(
    rt: &R,
    alloc: Global,
    servers: u32,
    what: A,
) -> Result<(), NoMemory>
    requires servers { 1 ≤ servers }
{
    at_named_desk::<Brand, A, R>(rt, alloc, Blanks::new(), servers, what)
}

/// Lends a desk of the plain opening.
fn at_named_desk<N: Naming, A: AtDesk, R: Abort>(
    rt: &R,
    alloc: Global,
    blanks: Blanks,
    servers: u32,
    what: A,
) -> Result<(), NoMemory>
    requires entries { blanks.entries.name ≡ N.entries }
    requires cents { blanks.cents.name ≡ N.cents }
    requires servers { 1 ≤ servers }
{
    let mut desk = Desk::<N>::start(alloc, &opening(rt), 2, servers, blanks)?;
    what.happens(rt, alloc, &mut desk);
    let_go(desk);
    Ok(())
}

/// One event more; the test ends where there is no memory for it.
fn push<R: Abort>(rt: &R, events: &mut Vec<Event>, event: Event) {
    events.push(event).expect(rt, "memory for an event")
}

/// Customer 1 pays 1.00 at a terminal.
pub fn payment_at(terminal: u32) -> Event {
    Event::Post {
        terminal,
        request: payment(100),
    }
}

/// A server takes the letter of a terminal.
fn push_take<R: Abort>(rt: &R, events: &mut Vec<Event>, server: u32, terminal: u32) {
    push(rt, events, Event::Take { server, terminal });
}

/// The letter in a server's hand is served, and its terminal has the answer.
fn push_turn<R: Abort>(rt: &R, events: &mut Vec<Event>, server: u32, terminal: u32) {
    push(rt, events, Event::Serve { server });
    push(rt, events, Event::Answer { server });
    push(rt, events, Event::Collect { terminal });
}

/// Each event is ready but the one at this place.
fn step_all<N: Naming, R: Abort>(rt: &R, desk: &mut Desk<N>, events: Vec<Event>, refused: u32) {
    let mut place = 0u32;
    for event in events {
        assert!(rt; desk.step(event).is_ok() == (place != refused));
        place = place.saturating_add(1);
    }
}

/// The entries and cents of a terminal's purse, and how many answers it collected.
fn at_terminal<N: Naming>(desk: &Desk<N>, terminal: u32) -> (Option<(u64, Cents)>, usize) {
    (
        desk.purse(terminal)
            .map(|purse| (purse.entries(), purse.paid())),
        desk.collected(terminal).len(),
    )
}

/// The terminal of the entry at a place, and the balance in its reply.
fn entry_at<N: Naming>(desk: &Desk<N>, place: usize) -> Option<(u32, Option<Cents>)> {
    match desk.book().journal().entry(place) {
        Some(entry) => Some((entry.terminal, balance(&entry.reply))),
        None => None,
    }
}

/// The place of the first answer that a terminal collected.
fn first_place<N: Naming>(desk: &Desk<N>, terminal: u32) -> Option<u64> {
    match desk.collected(terminal).first() {
        Some(answer) => answer.place,
        None => None,
    }
}

#[test]
fn a_server_with_a_letter_takes_no_other(rt: HostRuntime) {
    assert!(rt; at_desk(&rt, rt.alloc(), 1, FullHand).is_ok())
}

/// The second take isn't ready, though terminal 2 has posted too in the second round, which is one run.
#[derive(Drop)]
struct FullHand;

impl AtDesk for FullHand {
    fn happens<N: Naming, R: Abort>(self, rt: &R, alloc: Global, desk: &mut Desk<N>) {
        step_all(rt, desk, full_hand_events(rt, alloc), 2);
        has_paid(rt, desk, 1);
        assert!(rt; desk.step(payment_at(2)).is_ok());
        assert!(rt; desk.run(full_hand_events(rt, alloc)).is_ok());
        has_paid(rt, desk, 2);
        assert!(rt; at_terminal(desk, 2) == (None, 0));
    }
}

/// Terminal 1 pays, and the only server takes its letter. It can't take another before it has answered.
fn full_hand_events<R: Abort>(rt: &R, alloc: Global) -> Vec<Event> {
    let mut events = Vec::new(alloc);
    push(rt, &mut events, payment_at(1));
    push_take(rt, &mut events, 1, 1);
    push_take(rt, &mut events, 1, 2);
    push_turn(rt, &mut events, 1, 1);
    events
}

/// All entries are terminal 1's, which has collected as many answers and paid 1.00 by each.
fn has_paid<N: Naming, R: Abort>(rt: &R, desk: &Desk<N>, entries: u32) {
    let cents = Cents::new(i64::from(entries) * 100);
    let seen = (desk.book().journal().len(), desk.book().rise());
    assert!(rt; seen == (entries as usize, cents));
    let paid = (Some((u64::from(entries), cents)), entries as usize);
    assert!(rt; at_terminal(desk, 1) == paid);
}

#[test]
fn the_later_post_is_served_first(rt: HostRuntime) {
    assert!(rt; at_desk(&rt, rt.alloc(), 2, Overtaking).is_ok())
}

#[derive(Drop)]
struct Overtaking;

impl AtDesk for Overtaking {
    fn happens<N: Naming, R: Abort>(self, rt: &R, alloc: Global, desk: &mut Desk<N>) {
        step_all(rt, desk, overtake_events(rt, alloc), 3);
        let query = (2, Some(Cents::new(-1_000)));
        let paid = (1, Some(Cents::new(-1_100)));
        assert!(rt; [entry_at(desk, 0), entry_at(desk, 1)] == [Some(query), Some(paid)]);
        assert!(rt; [first_place(desk, 1), first_place(desk, 2)] == [Some(1), Some(0)]);
        let paid = (Some((1, Cents::new(100))), 1);
        let query = (Some((1, Cents::new(0))), 1);
        assert!(rt; [at_terminal(desk, 1), at_terminal(desk, 2)] == [paid, query]);
    }
}

/// Terminal 1 posts its payment before terminal 2 posts its query, which is served first; the second take isn't ready.
fn overtake_events<R: Abort>(rt: &R, alloc: Global) -> Vec<Event> {
    let mut events = Vec::new(alloc);
    push(rt, &mut events, payment_at(1));
    push(
        rt,
        &mut events,
        Event::Post {
            terminal: 2,
            request: status(),
        },
    );
    push_take(rt, &mut events, 1, 1);
    push_take(rt, &mut events, 2, 1);
    push_take(rt, &mut events, 2, 2);
    push_turn(rt, &mut events, 2, 2);
    push_turn(rt, &mut events, 1, 1);
    events
}

#[test]
fn a_kept_letter_stops_nobody_else(rt: HostRuntime) {
    assert!(rt; at_desk(&rt, rt.alloc(), 2, KeptLetter).is_ok())
}

#[derive(Drop)]
struct KeptLetter;

impl AtDesk for KeptLetter {
    fn happens<N: Naming, R: Abort>(self, rt: &R, alloc: Global, desk: &mut Desk<N>) {
        assert!(rt; desk.run(kept_letter_events(rt, alloc)).is_ok());
        assert!(rt; desk.book().journal().len() == 5);
        let served = (Some((5, Cents::new(500))), 5);
        assert!(rt; [at_terminal(desk, 1), at_terminal(desk, 2)] == [(None, 0), served]);
    }
}

/// Server 1 takes the letter of terminal 1 and keeps it, while server 2, which can't take it too, serves terminal 2 five
/// times.
fn kept_letter_events<R: Abort>(rt: &R, alloc: Global) -> Vec<Event> {
    let mut events = Vec::new(alloc);
    push(rt, &mut events, payment_at(1));
    push_take(rt, &mut events, 1, 1);
    push_take(rt, &mut events, 2, 1);
    for _ in 0..5u32 {
        push(rt, &mut events, payment_at(2));
        push_take(rt, &mut events, 2, 2);
        push_turn(rt, &mut events, 2, 2);
    }
    events
}
