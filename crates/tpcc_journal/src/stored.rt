//! Entries as the journal keeps them: the long replies, which differ in length, stand by themselves, kind by kind.
ghost use Rattle.std.specs.Prelude.{◌≡◌, ◌<◌, [], OnOk, true, vec_len, vec_capacity};
ghost use Rattle.tpcc_journal.specs.Internal.Kept.{is_in, reply_in, Keeps};

use std::alloc::Global;
use std::marker::Model;
use tpcc_rows::{
    AcceptedOrder, Delivery, Entered, Level, NoMemory, Paid, Reply, Request, RolledBackOrder,
    Status, Ticket,
};

/// For how many orders there is room once an eighth of them stand. So much, and as much of payments and entries, is over 32 MB: the
/// allocator maps it by itself and lets it grow where it stands. What is not used yet takes no memory of the machine.
const MANY_ORDERS: usize = 32_768;

/// The same of payments.
const MANY_PAYMENTS: usize = 65_536;

/// Makes room for one more; for many at once where an eighth of them stand, if memory for so many is had.
pub(crate) fn reserve_one<T>(rows: &mut Vec<T>, many: usize) -> Result<(), NoMemory>
    ensures same { rows.new.items ≡ rows.old.items }
    ensures room { OnOk result (vec_len rows.new < vec_capacity rows.new) }
{
    let is_full = rows.len() == rows.capacity();
    let are_some = many / 8 <= rows.len() && rows.len() < many;
    if is_full && are_some && rows.reserve(many).is_ok() {
        return Ok(());
    }
    rows.reserve(1)?;
    Ok(())
}

/// A reply, or where it stands among those of its kind.
#[derive(Clone, Copy)]
pub(crate) enum StoredReply {
    /// The place of an order that was entered.
    Accepted(usize),
    /// An order that was rolled back.
    RolledBack(RolledBackOrder),
    /// The place of a payment.
    Paid(usize),
    /// The place of a customer's status.
    Status(usize),
    /// Of a Stock-Level.
    Level(Level),
    /// Of a Delivery.
    Queued(Ticket),
    /// Of a Deliver.
    Delivery(Delivery),
}

/// An entry with its reply, or the place of that.
#[derive(Drop)]
pub(crate) struct StoredEntry {
    /// The terminal whose request it was.
    pub(crate) terminal: u32,
    /// How many entries of this terminal stand before this one.
    pub(crate) number: u64,
    /// The request, as it was asked.
    pub(crate) request: Request,
    /// What it was answered.
    pub(crate) reply: StoredReply,
}

/// The long replies, kind by kind.
#[derive(Drop)]
pub(crate) struct Replies {
    /// Of orders that were entered, the oldest first.
    orders: Vec<AcceptedOrder>,
    /// Of payments, the oldest first.
    payments: Vec<Paid>,
    /// Of Order-Status, the oldest first.
    statuses: Vec<Status>,
}

impl Model for Replies {
    ghost use Rattle.std.specs.Prelude.{◌-◌, min, vec_len, vec_capacity};
    ghost use Rattle.tpcc_journal.specs.Internal.Kept.{Shelf};

    ghost Value = { Shelf };

    ghost view = { λ r. record {
      kinds = record {
        orders = r.orders.items;
        payments = r.payments.items;
        statuses = r.statuses.items;
      };
      room = min (vec_capacity r.orders - vec_len r.orders)
          (min (vec_capacity r.payments - vec_len r.payments)
          (vec_capacity r.statuses - vec_len r.statuses));
    } };
}

impl Replies {
    /// None.
    pub(crate) fn new(alloc: Global) -> Replies {
        Replies {
            orders: Vec::new(alloc),
            payments: Vec::new(alloc),
            statuses: Vec::new(alloc),
        }
    }

    /// The reply of an entry.
    pub(crate) fn reply(&self, kept: StoredReply) -> Reply
        requires there { is_in self.now.kinds kept ≡ true }
        ensures { result ≡ reply_in self.now.kinds kept }
    {
        match kept {
            StoredReply::Accepted(place) => Reply::Entered(Entered::Accepted(self.orders[place])),
            StoredReply::RolledBack(order) => Reply::Entered(Entered::RolledBack(order)),
            StoredReply::Paid(place) => Reply::Paid(self.payments[place]),
            StoredReply::Status(place) => Reply::Status(self.statuses[place]),
            StoredReply::Level(level) => Reply::Level(level),
            StoredReply::Queued(ticket) => Reply::Queued(ticket),
            StoredReply::Delivery(delivery) => Reply::Delivery(delivery),
        }
    }

    /// Makes room for one more reply of any kind.
    pub(crate) fn reserve(&mut self) -> Result<(), NoMemory>
        ensures same { self.new.kinds ≡ self.old.kinds }
        ensures room { OnOk result (0 < self.new.room) }
    {
        reserve_one(&mut self.orders, MANY_ORDERS)?;
        reserve_one(&mut self.payments, MANY_PAYMENTS)?;
        self.statuses.reserve(1)?;
        Ok(())
    }

    /// Keeps a reply, for which there is room; the others stay.
    pub(crate) fn keep(&mut self, reply: &Reply) -> StoredReply
        requires room { 0 < self.old.room }
        ensures there { is_in self.new.kinds result ≡ true }
        ensures reply { reply_in self.new.kinds result ≡ reply.now }
        ensures others { Keeps self.old.kinds self.new.kinds }
    {
        match reply {
            Reply::Entered(Entered::Accepted(order)) => {
                self.orders.push_reserved(*order);
                StoredReply::Accepted(self.orders.len() - 1)
            }
            Reply::Entered(Entered::RolledBack(order)) => StoredReply::RolledBack(*order),
            Reply::Paid(paid) => {
                self.payments.push_reserved(*paid);
                StoredReply::Paid(self.payments.len() - 1)
            }
            Reply::Status(status) => {
                self.statuses.push_reserved(*status);
                StoredReply::Status(self.statuses.len() - 1)
            }
            Reply::Level(level) => StoredReply::Level(*level),
            Reply::Queued(ticket) => StoredReply::Queued(*ticket),
            Reply::Delivery(delivery) => StoredReply::Delivery(*delivery),
        }
    }
}
