//! The runs of the queue (2.7.4): each delivers the next district of the first ticket.
ghost use Rattle.std.specs.Prelude.{◌≡◌, OnOk, OnErr, IfOk, IfErr, Some, None, true};
ghost use Rattle.tpcc_rows.specs.Delivery.{district_refusal, oldest_new_order, rows_after_district, run_refusal, run_reply, state_after_run};
ghost use Rattle.tpcc_rows.specs.Ranges.{is_carrier};
ghost use Rattle.tpcc_delivery.specs.Runs.{IsPreparedRun};

use crate::charge::district_refusal;
use crate::delivery_queue::Queue;
use tpcc_money::Moment;
use tpcc_rows::{Delivery, DistrictDelivery, Refusal, recall};
use tpcc_tables::Tables;

/// A run that nothing refuses, with what it answers.
#[derive(Clone, Copy)]
pub struct PreparedRun {
    /// What the run will answer.
    pub reply: Delivery,
}

/// Tells every refusal of a run at a moment; takes no memory, and changes nothing.
///
/// A run is of the first ticket's next district and delivers its oldest new order. It is refused
/// where that order's customer can't be charged: Count DeliveryCount, then Total Balance. A
/// district with no new order is skipped, which is a run too; with no ticket there is nothing to do.
pub fn prepare_run(tables: &Tables, queue: &Queue, at: Moment) -> Result<PreparedRun, Refusal>
    ensures accepted { OnOk result (run_refusal tables.now.rows queue.now.tickets ≡ None) }
    ensures ready { IfOk result (IsPreparedRun tables.now.rows queue.now.tickets at) }
    ensures refused { IfErr result
        (λ refusal. run_refusal tables.now.rows queue.now.tickets ≡ Some refusal) }
{
    let Some(first) = queue.first() else {
        return Ok(PreparedRun {
            reply: Delivery::NoneQueued,
        });
    };
    let ticket = first.ticket;
    let district = first.next;
    let order = tables.oldest_new(ticket.warehouse, district);
    match district_refusal(tables, ticket.warehouse, district, order) {
        Some(refusal) => Err(refusal),
        None => Ok(PreparedRun {
            reply: Delivery::District(DistrictDelivery {
                ticket,
                at,
                district,
                order,
            }),
        }),
    }
}

/// Does a run that was prepared for a moment (2.7.4.2); takes no memory.
///
/// The district's oldest new order is delivered, if it has one, and the ticket stands at its next
/// district, or leaves the queue after the tenth.
pub fn finish_run(tables: &mut Tables, queue: &mut Queue, at: Moment, run: PreparedRun) -> Delivery
    requires ready { IsPreparedRun tables.old.rows queue.old.tickets at run }
    ensures state { record { rows = tables.new.rows; queue = queue.new.tickets }
        ≡ state_after_run tables.old.rows queue.old.tickets at }
    ensures reply { result ≡ run_reply tables.old.rows queue.old.tickets at }
{
    let reply = run.reply;
    match reply {
        Delivery::NoneQueued => Delivery::NoneQueued,
        Delivery::District(delivery) => {
            // For the proof: the tickets are in their ranges.
            recall!(queue.in_range());
            let done = delivery;
            deliver_district(tables, at, delivery);
            queue.advance();
            Delivery::District(done)
        }
    }
}

/// Delivers the order of a run, if it has one.
fn deliver_district(tables: &mut Tables, at: Moment, delivery: DistrictDelivery)
    requires oldest { oldest_new_order tables.old.rows delivery.ticket.warehouse delivery.district
        ≡ delivery.order }
    requires carrier { is_carrier delivery.ticket.carrier ≡ true }
    requires accepted { district_refusal
        tables.old.rows delivery.ticket.warehouse delivery.district delivery.order ≡ None }
    ensures rows { tables.new.rows ≡ rows_after_district tables.old.rows delivery.ticket.warehouse
        delivery.district delivery.ticket.carrier at delivery.order }
{
    if let Some(order) = delivery.order {
        tables.deliver(
            delivery.ticket.warehouse,
            delivery.district,
            order,
            delivery.ticket.carrier,
            at,
        );
    }
}

/// One run at a moment, or why it is refused, with all as it was.
pub fn deliver_next(tables: &mut Tables, queue: &mut Queue, at: Moment) -> Result<Delivery, Refusal>
    ensures state { OnOk result (record { rows = tables.new.rows; queue = queue.new.tickets }
        ≡ state_after_run tables.old.rows queue.old.tickets at) }
    ensures reply { IfOk result (λ reply. reply ≡ run_reply tables.old.rows queue.old.tickets at) }
    ensures accepted { OnOk result (run_refusal tables.old.rows queue.old.tickets ≡ None) }
    ensures refused { IfErr result
        (λ refusal. run_refusal tables.old.rows queue.old.tickets ≡ Some refusal) }
    ensures same { OnErr result
        ((tables.new.rows ≡ tables.old.rows) × (queue.new.tickets ≡ queue.old.tickets)) }
{
    let run = prepare_run(tables, queue, at)?;
    Ok(finish_run(tables, queue, at, run))
}
