//! The register: the rows of an opening, and the journal that they are the replay of.
ghost use Rattle.std.specs.Prelude.{◌≡◌, IfOk};
ghost use Rattle.tpcc_book.specs.Past.{IsKept, opening_past, rise_of};
ghost use Rattle.tpcc_book.specs.Turn.{IsTurn};

mod halves;
pub(crate) mod outcome;
pub(crate) mod ready;
mod year_to_date;

use crate::register::outcome::Turned;
use crate::register::ready::{commit, make_ready};
use crate::register::year_to_date::year_to_date;
use std::alloc::Global;
use std::marker::Model;
use tpcc_delivery::Queue;
use tpcc_journal::Journal;
use tpcc_laws::laws;
use tpcc_money::Cents;
use tpcc_population::{Opening, fill, opening_is_sound};
use tpcc_rows::{NoMemory, Request, recall};
use tpcc_tables::Tables;

/// Tables, queue and journal of one opening. Whenever it can be seen, its rows satisfy the
/// consistency conditions 1 to 10 and 12 (3.3.2) and are the opening's rows followed by the journal
/// one transaction at a time, and each entry's reply is what its request gave at its place.
pub struct Register {
    /// The opening whose rows it began with.
    opening: Opening,
    // The sum of W_YTD over the opening's rows, in cents.
    opening_year_to_date: i128,
    /// The rows as the last entry left them.
    tables: Tables,
    /// The deliveries that were queued and aren't done.
    queue: Queue,
    /// The entries, the oldest first.
    journal: Journal,
}

// By hand, so that who lets a register go proves none of its parts anew.
impl Drop for Register {
    fn drop(self) {
        let Register {
            opening: _,
            opening_year_to_date: _,
            tables: _,
            queue: _,
            journal: _,
        } = self;
    }
}

impl Model for Register {
    ghost use Rattle.tpcc_book.specs.Past.{Past};
    ghost use Rattle.tpcc_book.specs.Internal.Past.{IsRegistered};

    ghost Value = { Past };

    ghost view = { λ r.
        record {
          opening = r.opening;
          state = record { rows = r.tables.rows; queue = r.queue.tickets };
          entries = r.journal.entries;
        } };

    ghost invariant = { λ r.
        IsRegistered r.opening_year_to_date (record {
          opening = r.opening;
          state = record { rows = r.tables.rows; queue = r.queue.tickets };
          entries = r.journal.entries;
        }) };
}

impl Register {
    /// The register of an opening, with no ticket and no entry. Refused only for want of memory.
    pub fn start(alloc: Global, opening: &Opening) -> Result<Register, NoMemory>
        ensures started { IfOk result (λ r. r ≡ opening_past opening.now) }
    {
        let tables = fill(alloc, opening)?;
        // For the proof: the conditions hold of an opening.
        recall!(opening_is_sound(*opening));
        let opening_year_to_date = year_to_date(&tables);
        Ok(Register {
            opening: *opening,
            opening_year_to_date,
            tables,
            queue: Queue::new(alloc),
            journal: Journal::new(alloc),
        })
    }

    /// The rows.
    pub fn tables(&self) -> &Tables
        ensures rows { result.now.rows ≡ self.now.state.rows }
        ensures kept { IsKept self.now }
    {
        &self.tables
    }

    /// The queue of deliveries.
    pub fn queue(&self) -> &Queue
        ensures tickets { result.now.tickets ≡ self.now.state.queue }
        ensures kept { IsKept self.now }
    {
        &self.queue
    }

    /// The journal.
    pub fn journal(&self) -> &Journal
        ensures entries { result.now.entries ≡ self.now.entries }
        ensures kept { IsKept self.now }
    {
        &self.journal
    }

    /// The opening that the register was started with.
    pub fn opening(&self) -> Opening
        ensures opening { result ≡ self.now.opening }
    {
        self.opening
    }

    /// By how much the sum of W_YTD over all warehouses rose since the opening (3.3.2.1), in cents: read
    /// off the rows. It takes no memory and does not wait.
    pub fn rise(&self) -> Cents
        ensures rise { result ≡ rise_of self.now }
        ensures kept { IsKept self.now }
    {
        let rise = year_to_date(&self.tables) - self.opening_year_to_date;
        Cents::new(rise as i64)
    }
}

// The way of a request, from the book down to its transaction.
impl Register {
    /// Serves a request of a terminal that made `number` entries: one transaction and one entry, or
    /// the first refusal and nothing.
    pub fn turn(&mut self, request: Request, terminal: u32, number: u64) -> Turned
        ensures turn { IsTurn self.old terminal number request result self.new }
    {
        let (tables, queue, journal) = (&mut self.tables, &mut self.queue, &mut self.journal);
        let ready = match make_ready(tables, queue, journal, &request, terminal, number) {
            Ok(ready) => ready,
            Err(refusal) => {
                return Turned {
                    request,
                    outcome: Err(refusal),
                    place: None,
                };
            }
        };
        let place = journal.len() as u64;
        let reply = commit(tables, queue, journal, ready, terminal, number);
        // For the proof: the moment is in its range; a turn keeps the conditions; W_YTD rises by what is paid; one more
        // entry is one more transaction.
        recall!(request.moment_in_range());
        recall!(laws::turn_keeps());
        recall!(laws::turn_pays());
        recall!(laws::journal_grows());
        Turned {
            request,
            outcome: Ok(reply),
            place: Some(place),
        }
    }
}
