//! A request in two halves: what may fail, and what can't.
ghost use Rattle.std.specs.Prelude.{◌≡◌, None, IfOk, IfErr, OnOk, Some};
ghost use Rattle.std.specs.Option.{option_or};
ghost use Rattle.tpcc_rows.specs.WellKeyed.{IsStocked};
ghost use Rattle.tpcc_rows.specs.Lookups.{status_refusal, status_reply};
ghost use Rattle.tpcc_rows.specs.Turn.{refusal, state_after, reply_to};
ghost use Rattle.tpcc_book.specs.Internal.Ready.{IsReady, HasRoom, state_of, room_in};

use tpcc_delivery::{PreparedRun, Queue, finish_run, finish_ticket, prepare_run, prepare_ticket};
use tpcc_lookups::{judge_status, order_status, stock_level};
use tpcc_rows::{Level, Refusal, Reply, Request, StatusQuery};
use tpcc_tables::Tables;

/// What was found out of a request that nothing refuses.
#[derive(Clone, Copy)]
pub enum Prepared {
    /// Whether its rows are written or it is rolled back.
    NewOrder(tpcc_new_order::PreparedOrder),
    /// The key of the paying customer.
    Payment(tpcc_payment::PreparedPayment),
    /// Nothing: the reply is long, and is made in the second half.
    Status,
    /// The whole answer, which is short.
    Level(Level),
    /// Nothing: the queue has room for it.
    Ticket,
    /// What the run will answer.
    Run(PreparedRun),
}

/// Tells the first refusal of the rows, the request and the queue, and makes every growth; changes no row and no ticket.
#[tactic(auto, unfolding(tpcc_rows::specs::Turn::refusal, crate::specs::Internal::Ready::IsReady, crate::specs::Internal::Ready::HasRoom))]
pub(crate) fn prepare(
    tables: &mut Tables,
    queue: &mut Queue,
    request: &Request,
) -> Result<Prepared, Refusal>
    requires stocked { IsStocked tables.old.rows }
    ensures rows { tables.new.rows ≡ tables.old.rows }
    ensures tickets { queue.new.tickets ≡ queue.old.tickets }
    ensures ready { IfOk result (IsReady (state_of tables.old queue.old) request.now) }
    ensures accepted { OnOk result (refusal (state_of tables.old queue.old) request.now ≡ None) }
    ensures room { IfOk result (HasRoom (room_in tables.new queue.new) request.now) }
    ensures refused { IfErr result (λ first.
        option_or (refusal (state_of tables.old queue.old) request.now) (Some Refusal.NoMemory)
        ≡ Some first) }
{
    match request {
        Request::NewOrder(order) => match tpcc_new_order::prepare(tables, order) {
            Ok(prepared) => Ok(Prepared::NewOrder(prepared)),
            Err(refusal) => Err(refusal),
        },
        Request::Payment(payment) => match tpcc_payment::prepare(tables, payment) {
            Ok(prepared) => Ok(Prepared::Payment(prepared)),
            Err(refusal) => Err(refusal),
        },
        Request::Status(query) => {
            judge_status(tables, query)?;
            Ok(Prepared::Status)
        }
        Request::Stock(query) => Ok(Prepared::Level(stock_level(tables, query)?)),
        Request::Delivery(ticket) => {
            prepare_ticket(tables, queue, *ticket)?;
            Ok(Prepared::Ticket)
        }
        Request::Deliver(at) => Ok(Prepared::Run(prepare_run(tables, queue, *at)?)),
    }
}

// The reply to a query that nothing refuses.
fn show_status(tables: &Tables, query: &StatusQuery) -> Reply
    requires accepted { status_refusal tables.now.rows query.now ≡ None }
    ensures { result ≡ Reply.Status (status_reply tables.now.rows query.now) }
{
    match order_status(tables, query) {
        Ok(status) => Reply::Status(status),
        Err(_) => unreachable!(),
    }
}

/// Writes a request that was prepared on the same rows and tickets, and gives the reply. Takes no memory.
#[tactic(auto, unfolding(tpcc_rows::specs::Turn::refusal, tpcc_rows::specs::Turn::state_after, tpcc_rows::specs::Turn::reply_to, crate::specs::Internal::Ready::IsReady, crate::specs::Internal::Ready::HasRoom))]
pub(crate) fn finish(
    tables: &mut Tables,
    queue: &mut Queue,
    request: &Request,
    prepared: Prepared,
) -> Reply
    requires stocked { IsStocked tables.old.rows }
    requires accepted { refusal (state_of tables.old queue.old) request.now ≡ None }
    requires ready { IsReady (state_of tables.old queue.old) request.now prepared }
    requires room { HasRoom (room_in tables.old queue.old) request.now prepared }
    ensures state { state_of tables.new queue.new
        ≡ state_after (state_of tables.old queue.old) request.now }
    ensures reply { result ≡ reply_to (state_of tables.old queue.old) request.now }
{
    match request {
        Request::NewOrder(order) => {
            let Prepared::NewOrder(found) = prepared else {
                unreachable!()
            };
            Reply::Entered(tpcc_new_order::finish(tables, order, found))
        }
        Request::Payment(payment) => {
            let Prepared::Payment(found) = prepared else {
                unreachable!()
            };
            Reply::Paid(tpcc_payment::finish(tables, payment, found))
        }
        Request::Status(query) => show_status(tables, query),
        Request::Stock(_) => {
            let Prepared::Level(level) = prepared else {
                unreachable!()
            };
            Reply::Level(level)
        }
        Request::Delivery(ticket) => {
            finish_ticket(queue, *ticket);
            Reply::Queued(*ticket)
        }
        Request::Deliver(at) => {
            let Prepared::Run(run) = prepared else {
                unreachable!()
            };
            Reply::Delivery(finish_run(tables, queue, *at, run))
        }
    }
}
