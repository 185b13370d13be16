//! The book: a register with the totals of its purses.
ghost use Rattle.std.specs.Prelude.{◌≡◌, IfOk, OnOk, length};
ghost use Rattle.tpcc_book.specs.Past.{IsKept, opening_past, rise_of};
ghost use Rattle.tpcc_book.specs.Purses.{all_shares, first_purse};
ghost use Rattle.tpcc_book.specs.Turn.{IsTurn, TakesTurn, MakesTurn};
ghost use Rattle.tpcc_book.specs.Internal.AnswerView.{answer_of};
ghost use Rattle.tpcc_book.specs.Serve.{Fits, IsServed, rooms_of, entries_of, paid_of};
ghost use Rattle.tpcc_book.specs.Internal.Crediting.{CanCredit, IsCredited};
ghost use Rattle.tpcc_rows.specs.Replay.{paid_by_request};

use crate::answer::Answer;
use crate::naming::{Blanks, Entries, Naming, PaidCents};
use crate::purse::{Pool, Purse};
use crate::register::Register;
use crate::register::outcome::Turned;
use std::alloc::Global;
use std::marker::Model;
use std::sync::ledger::Book as LedgerBook;
use tpcc_delivery::Queue;
use tpcc_journal::Journal;
use tpcc_laws::laws;
use tpcc_money::Cents;
use tpcc_population::Opening;
use tpcc_rows::{NoMemory, Request, recall};
use tpcc_tables::Tables;

/// A register, and the two totals that its purses share: the journal's length, and by how much the
/// sum of W_YTD rose since the opening.
pub struct Book<N: Naming> {
    /// Rows, queue and journal.
    register: Register,
    /// The ledger whose total is the journal's length.
    entries: LedgerBook<Entries<N>>,
    /// The ledger whose total is the rise of the sum of W_YTD, in cents.
    cents: LedgerBook<PaidCents<N>>,
}

// By hand, so that a crate above calls this where it lets go of a book, and proves none of its parts anew.
impl<N: Naming> Drop for Book<N> {
    fn drop(self) {
        let Book {
            register: _,
            entries: _,
            cents: _,
        } = self;
    }
}

impl<N: Naming> Model for Book<N> {
    ghost use Rattle.std.specs.Prelude.{◌≡◌, length, pos};
    ghost use Rattle.tpcc_book.specs.Past.{Past, rise_of};

    ghost Value = { Past };

    ghost view = { λ b. b.register };

    ghost invariant = { λ b. (b.entries.total ≡ length b.register.entries)
        × (pos b.cents.total ≡ rise_of b.register) };
}

impl<N: Naming> Book<N> {
    /// The book of an opening, with an empty journal, and its first purse: of terminal 0, with room
    /// for 10,000 more. Refused only for want of memory.
    pub fn start(
        alloc: Global,
        opening: &Opening,
        blanks: Blanks,
    ) -> Result<(Book<N>, Purse<N>), NoMemory>
        requires entries { blanks.entries.name ≡ N.entries }
        requires cents { blanks.cents.name ≡ N.cents }
        ensures book { IfOk result (λ r. r.0 ≡ opening_past opening.now) }
        ensures purse { IfOk result (λ r.
            r.1 ≡ first_purse) }
    {
        let register = Register::start(alloc, opening)?;
        let (entries, entry_share) = blanks.entries.open::<Entries<N>>();
        let (cents, cent_share) = blanks.cents.open::<PaidCents<N>>();
        let book = Book {
            register,
            entries,
            cents,
        };
        Ok((book, Purse::first(entry_share, cent_share)))
    }

    /// The rows.
    pub fn tables(&self) -> &Tables
        ensures rows { result.now.rows ≡ self.now.state.rows }
        ensures kept { IsKept self.now }
    {
        self.register.tables()
    }

    /// The queue of deliveries.
    pub fn queue(&self) -> &Queue
        ensures tickets { result.now.tickets ≡ self.now.state.queue }
        ensures kept { IsKept self.now }
    {
        self.register.queue()
    }

    /// The journal.
    pub fn journal(&self) -> &Journal
        ensures entries { result.now.entries ≡ self.now.entries }
        ensures kept { IsKept self.now }
    {
        self.register.journal()
    }

    /// By how much the sum of W_YTD over all warehouses rose since the opening (3.3.2.1), in cents: read
    /// off the rows, whatever the purses tell. It takes no memory and does not wait.
    pub fn rise(&self) -> Cents
        ensures rise { result ≡ rise_of self.now }
        ensures kept { IsKept self.now }
    {
        self.register.rise()
    }

    /// Serves a request for a purse: one transaction and one entry at its place, or the first refusal and nothing.
    pub fn serve(&mut self, request: Request, purse: Purse<N>) -> Answer<Purse<N>>
        ensures served { IsServed self.old request purse result self.new }
    {
        // For the proof: the register is kept; W_YTD rises by what is paid.
        recall!(self.register.journal());
        recall!(laws::turn_pays());
        let (terminal, entries) = (purse.terminal(), purse.entries());
        let turned = self.register.turn(request, terminal, entries);
        credit(turned, purse, &mut self.entries, &mut self.cents)
    }

    /// Serves a request as [`Book::serve`] does, by a call that makes a turn.
    pub fn serve_by<F: FnOnce(&mut Register, Request, u32, u64) -> Turned>(
        &mut self,
        request: Request,
        purse: Purse<N>,
        turn: F,
    ) -> Answer<Purse<N>>
        requires takes { TakesTurn (F.pre turn) }
        requires turns { MakesTurn (F.post turn) }
        ensures served { IsServed self.old request purse result self.new }
    {
        // For the proof: the register is kept; W_YTD rises by what is paid.
        recall!(self.register.journal());
        recall!(laws::turn_pays());
        let (terminal, entries) = (purse.terminal(), purse.entries());
        let turned = call_turn(&mut self.register, request, terminal, entries, turn);
        credit(turned, purse, &mut self.entries, &mut self.cents)
    }

    /// The entries and the payments of all purses of the book, put together. The conditions of a call are
    /// that the purses are all there: their number and their rooms add up to 10,001.
    pub fn gather(&mut self, purses: Vec<Purse<N>>) -> (u64, Cents)
        requires all_there { rooms_of purses.items ≡ all_shares }
        ensures same { self.new ≡ self.old }
        ensures entries { (result.0 ≡ entries_of purses.items)
            × (result.0 ≡ length self.old.entries) }
        ensures paid { (result.1 ≡ paid_of purses.items) × (result.1 ≡ rise_of self.old) }
    {
        let mut rest = purses;
        let Some(first) = rest.pop() else {
            unreachable!()
        };
        let mut pool = Pool::of(first);
        while let Some(purse) = rest.pop() {
            pool.take_in(purse);
        }
        self.audit(pool)
    }

    /// The entries and the payments of all purses, which are the journal's length and the rise.
    pub fn audit(&mut self, pool: Pool<N>) -> (u64, Cents)
        requires all { pool.parts ≡ all_shares }
        ensures same { self.new ≡ self.old }
        ensures kept { IsKept self.old }
        ensures entries { (result.0 ≡ pool.entries) × (result.0 ≡ length self.old.entries) }
        ensures paid { (result.1 ≡ pool.paid) × (result.1 ≡ rise_of self.old) }
    {
        // For the proof: the register is kept.
        recall!(self.register.journal());
        pool.audit(&mut self.entries, &mut self.cents)
    }
}

// Called by itself, so that what is known of the turn alone comes out of the call.
fn call_turn<F: FnOnce(&mut Register, Request, u32, u64) -> Turned>(
    register: &mut Register,
    request: Request,
    terminal: u32,
    number: u64,
    turn: F,
) -> Turned
    requires takes { TakesTurn (F.pre turn) }
    requires turns { MakesTurn (F.post turn) }
    ensures turn { IsTurn register.old terminal number request result register.new }
{
    turn(register, request, terminal, number)
}

// The answer to a turn, whose entry and payment are added to the purse and to the totals of all purses.
fn credit<N: Naming>(
    turned: Turned,
    purse: Purse<N>,
    entries: &mut LedgerBook<Entries<N>>,
    cents: &mut LedgerBook<PaidCents<N>>,
) -> Answer<Purse<N>>
    requires room { OnOk turned.outcome
        (CanCredit entries.old.total cents.old.total (paid_by_request turned.request)) }
    ensures answer { result ≡ answer_of turned result.purse }
    ensures fits { Fits turned.request purse result }
    ensures totals { IsCredited turned entries.old.total cents.old.total
        entries.new.total cents.new.total }
{
    let mut purse = purse;
    if turned.outcome.is_ok() {
        purse.credit(entries, cents, turned.request.paid());
    }
    Answer::new(turned, purse)
}
