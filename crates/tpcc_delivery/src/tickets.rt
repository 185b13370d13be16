//! A Delivery request (2.7.1): a ticket is queued.
ghost use Rattle.std.specs.Prelude.{◌≡◌, ◌<◌, IfErr, IsNone, OnOk, OnErr, Some, None, true};
ghost use Rattle.std.specs.Option.{option_or};
ghost use Rattle.tpcc_rows.specs.Delivery.{queue_with, ticket_refusal};
ghost use Rattle.tpcc_rows.specs.Ranges.{is_carrier};

use crate::delivery_queue::Queue;
use tpcc_rows::limits::MOST_TICKETS;
use tpcc_rows::{Refusal, Ticket};
use tpcc_tables::Tables;

#[tactic(auto, unfolding(tpcc_rows::specs::Delivery::ticket_tests))]
fn ticket_refusal(tables: &Tables, queue: &Queue, ticket: Ticket) -> Option<Refusal>
    ensures refusal { result ≡ ticket_refusal tables.now.rows queue.now.tickets ticket }
    ensures carrier { IsNone result → is_carrier ticket.carrier ≡ true }
{
    if tables.warehouse(ticket.warehouse).is_none() {
        Some(Refusal::NoWarehouse)
    } else if !(1..=10).contains(&ticket.carrier) {
        Some(Refusal::Carrier)
    } else if MOST_TICKETS <= queue.len() {
        Some(Refusal::QueueFull)
    } else {
        None
    }
}

/// Tells every refusal of a ticket and makes the room for it; the tickets stay as they are.
///
/// Refuses NoWarehouse, Carrier (not 1 to 10), QueueFull (1,000 tickets wait), in this order, and NoMemory last.
pub fn prepare_ticket(tables: &Tables, queue: &mut Queue, ticket: Ticket) -> Result<(), Refusal>
    ensures accepted { OnOk result
        (ticket_refusal tables.now.rows queue.old.tickets ticket ≡ None) }
    ensures carrier { OnOk result (is_carrier ticket.carrier ≡ true) }
    ensures room { OnOk result (0 < queue.new.room) }
    ensures same { queue.new.tickets ≡ queue.old.tickets }
    ensures refused { IfErr result (λ refusal. option_or (ticket_refusal
        tables.now.rows queue.old.tickets ticket) (Some Refusal.NoMemory) ≡ Some refusal) }
{
    if let Some(refusal) = ticket_refusal(tables, queue, ticket) {
        return Err(refusal);
    }
    queue.reserve()?;
    Ok(())
}

/// Queues a ticket that was prepared; takes no memory.
pub fn finish_ticket(queue: &mut Queue, ticket: Ticket)
    requires room { 0 < queue.old.room }
    requires carrier { is_carrier ticket.carrier ≡ true }
    ensures queued { queue.new.tickets ≡ queue_with queue.old.tickets ticket }
{
    queue.push(ticket);
}

/// Queues a ticket, or tells why not with the queue as it was.
pub fn queue(tables: &Tables, queue: &mut Queue, ticket: Ticket) -> Result<(), Refusal>
    ensures queued { OnOk result (queue.new.tickets ≡ queue_with queue.old.tickets ticket) }
    ensures accepted { OnOk result
        (ticket_refusal tables.now.rows queue.old.tickets ticket ≡ None) }
    ensures refused { IfErr result (λ refusal. option_or (ticket_refusal
        tables.now.rows queue.old.tickets ticket) (Some Refusal.NoMemory) ≡ Some refusal) }
    ensures same { OnErr result (queue.new.tickets ≡ queue.old.tickets) }
{
    let queued = ticket;
    prepare_ticket(tables, queue, queued)?;
    finish_ticket(queue, ticket);
    Ok(())
}
