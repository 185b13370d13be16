//! The steps of a turn: what may fail first, and then what can't.
ghost use Rattle.std.specs.Prelude.{◌≡◌, ◌<◌, ◌∷◌, ◌++◌, [], None, Some, IfOk, IfErr, OnOk};
ghost use Rattle.std.specs.Option.{option_or};
ghost use Rattle.tpcc_rows.specs.WellKeyed.{IsStocked};
ghost use Rattle.tpcc_rows.specs.Turn.{refusal, state_after, reply_to};
ghost use Rattle.tpcc_book.specs.Internal.Ready.{CanFinish, IsReady, HasRoom, state_of, room_in, order_refusals};
ghost use Rattle.tpcc_book.specs.Turn.{journal_refusal, turn_refusal};

use crate::register::halves::{Prepared, finish, prepare};
use tpcc_delivery::Queue;
use tpcc_journal::Journal;
use tpcc_rows::{Refusal, Reply, Request};
use tpcc_tables::Tables;

/// How many entries a journal has at most.
pub const MOST_ENTRIES: usize = 1_000_000_000;

/// All that a turn needs so that it can't fail, with the copy of its request for the journal.
#[derive(Drop)]
pub(crate) struct Ready {
    /// What was found out of the rows.
    pub prepared: Prepared,
    /// The request, for its entry in the journal.
    pub copy: Request,
}

/// Tells the first refusal, makes every growth and copies the request; nothing else changes.
pub(crate) fn make_ready(
    tables: &mut Tables,
    queue: &mut Queue,
    journal: &mut Journal,
    request: &Request,
    terminal: u32,
    number: u64,
) -> Result<Ready, Refusal>
    requires stocked { IsStocked tables.old.rows }
    ensures rows { tables.new.rows ≡ tables.old.rows }
    ensures tickets { queue.new.tickets ≡ queue.old.tickets }
    ensures entries { journal.new.entries ≡ journal.old.entries }
    ensures ready { IfOk result (λ r.
        CanFinish (state_of tables.old queue.old) journal.old.entries terminal number request.now
        (room_in tables.new queue.new) r.prepared) }
    ensures copy { IfOk result (λ r. r.copy ≡ request.now) }
    ensures room { OnOk result (0 < journal.new.room) }
    ensures refused { IfErr result (λ r.
        option_or (turn_refusal
        (state_of tables.old queue.old) journal.old.entries terminal number request.now)
        (Some Refusal.NoMemory) ≡ Some r) }
{
    let prepared = prepare(tables, queue, request);
    let prepared = order_refusals(journal_refusal(journal, terminal, number), prepared)?;
    let copy = request.duplicate()?;
    journal.reserve_entry()?;
    Ok(Ready { prepared, copy })
}

// The refusals 1 to 9 come before those of the journal, and these before all others.
fn order_refusals(
    journal: Option<Refusal>,
    prepared: Result<Prepared, Refusal>,
) -> Result<Prepared, Refusal>
    ensures { result ≡ order_refusals journal prepared }
{
    match prepared {
        Ok(prepared) => match journal {
            Some(refusal) => Err(refusal),
            None => Ok(prepared),
        },
        Err(refusal) if refusal.number() < 10 => Err(refusal),
        Err(refusal) => Err(journal.unwrap_or(refusal)),
    }
}

// The first refusal of the journal: another number of entries than the terminal's, or no room for one more.
fn journal_refusal(journal: &Journal, terminal: u32, number: u64) -> Option<Refusal>
    ensures { result ≡ journal_refusal journal.now.entries terminal number }
{
    let seen = journal.count_of(terminal);
    if seen != number {
        return Some(Refusal::Stranger(seen));
    }
    if MOST_ENTRIES <= journal.len() {
        return Some(Refusal::JournalFull);
    }
    None
}

/// Makes a turn that is ready, and its entry, whose reply it gives; takes no memory.
pub(crate) fn commit(
    tables: &mut Tables,
    queue: &mut Queue,
    journal: &mut Journal,
    ready: Ready,
    terminal: u32,
    number: u64,
) -> Reply
    requires stocked { IsStocked tables.old.rows }
    requires accepted { refusal (state_of tables.old queue.old) ready.copy ≡ None }
    requires prepared { IsReady (state_of tables.old queue.old) ready.copy ready.prepared }
    requires room { HasRoom (room_in tables.old queue.old) ready.copy ready.prepared }
    requires entry { 0 < journal.old.room }
    ensures state { state_of tables.new queue.new
        ≡ state_after (state_of tables.old queue.old) ready.copy }
    ensures entries { journal.new.entries
        ≡ journal.old.entries
        ++ record {
          terminal = terminal;
          number = number;
          request = ready.copy;
          reply = reply_to (state_of tables.old queue.old) ready.copy;
        } ∷ [] }
    ensures reply { result ≡ reply_to (state_of tables.old queue.old) ready.copy }
{
    let Ready { prepared, copy } = ready;
    let reply = finish(tables, queue, &copy, prepared);
    journal.append(terminal, number, copy, &reply);
    reply
}
