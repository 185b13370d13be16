//! The queue of deliveries (2.7.2).
ghost use Rattle.std.specs.Prelude.{◌≡◌, ◌<◌, [], OnOk, length, slice_get, true};
ghost use Rattle.tpcc_rows.specs.Delivery.{queue_with};
ghost use Rattle.tpcc_rows.specs.Ranges.{is_carrier};
ghost use Rattle.tpcc_rows.specs.WellKeyed.{IsQueueInRange};
ghost use Rattle.tpcc_delivery.specs.Internal.Runs.{queue_after_first};

use std::alloc::Global;
use std::marker::Model;
use tpcc_rows::{NoMemory, QueuedTicket, Ticket, recall};

/// The tickets that wait to be delivered, first come first, each with the district of its next run.
#[derive(Drop)]
pub struct Queue {
    /// The first is run next.
    tickets: Vec<QueuedTicket>,
}

impl Model for Queue {
    ghost use Rattle.std.specs.Prelude.{◌-◌, vec_len, vec_capacity};
    ghost use Rattle.tpcc_rows.specs.WellKeyed.{IsQueueInRange};
    ghost use Rattle.tpcc_delivery.specs.QueueView.{QueueView};

    ghost Value = { QueueView };

    ghost view = { λ q. record { tickets = q.tickets.items; room = vec_capacity q.tickets - vec_len q.tickets } };

    ghost invariant = { λ q. IsQueueInRange q.tickets.items };
}

impl Queue {
    /// A queue with no ticket.
    pub fn new(alloc: Global) -> Queue
        ensures empty { result.tickets ≡ [] }
    {
        Queue {
            tickets: Vec::new(alloc),
        }
    }

    /// How many tickets wait; a ticket whose districts are part run counts as one.
    pub fn len(&self) -> usize
        ensures length { result ≡ length self.now.tickets }
    {
        self.tickets.len()
    }

    /// Each ticket's carrier, moment and next district are in their ranges.
    pub fn in_range(&self)
        ensures range { IsQueueInRange self.now.tickets }
    {
        // For the proof: the invariant of the queue.
        recall!(&self.tickets);
    }

    /// The tickets, first come first.
    pub fn tickets(&self) -> &[QueuedTicket]
        ensures tickets { result.now ≡ self.now.tickets }
    {
        self.tickets.as_slice()
    }

    /// The first ticket, if one waits.
    pub(crate) fn first(&self) -> Option<QueuedTicket>
        ensures first { result ≡ slice_get self.now.tickets 0 }
    {
        self.tickets.first().copied()
    }

    /// The queue after a run of its first ticket: that stands at its next district, or leaves
    /// after the tenth. Takes no memory.
    pub(crate) fn advance(&mut self)
        ensures advanced { self.new.tickets ≡ queue_after_first self.old.tickets }
    {
        if let Some(first) = self.first() {
            if first.next == 10 {
                self.tickets.remove(0);
            } else {
                self.tickets[0].next = first.next + 1;
            }
        }
    }

    /// Makes room for one more ticket.
    pub(crate) fn reserve(&mut self) -> Result<(), NoMemory>
        ensures same { self.new.tickets ≡ self.old.tickets }
        ensures room { OnOk result (0 < self.new.room) }
    {
        self.tickets.reserve(1)?;
        Ok(())
    }

    /// Puts a ticket at the end, with district 1 next.
    pub(crate) fn push(&mut self, ticket: Ticket)
        requires room { 0 < self.old.room }
        requires carrier { is_carrier ticket.carrier ≡ true }
        ensures queued { self.new.tickets ≡ queue_with self.old.tickets ticket }
    {
        // For the proof: the moment is in its range.
        recall!(ticket.queued.seconds());
        self.tickets.push_reserved(QueuedTicket { ticket, next: 1 });
    }
}
