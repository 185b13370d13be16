//! What an operator asks next.
ghost use Rattle.std.specs.Prelude.{◌≡◌, IfOk, true};
ghost use Rattle.tpcc_run.specs.Asking.{IsNext};
ghost use Rattle.tpcc_run.specs.Internal.Asking.{IsEndless};

use tpcc_money::Moment;
use tpcc_rows::{NoMemory, Request};
use tpcc_terminal::Terminal;

/// What a terminal asks.
#[derive(Clone, Copy)]
pub(crate) enum Duty {
    /// The requests of its cards.
    Cards,
    /// The next district's delivery, each time.
    Deliveries,
    /// The next district's delivery, until none is queued or one is refused (2.7.2).
    Rest,
}

impl Duty {
    /// Whether more is asked behind an answer.
    pub(crate) fn goes_on(self, delivered: bool) -> bool
        ensures endless { IsEndless self → result ≡ true }
    {
        match self {
            Duty::Cards | Duty::Deliveries => true,
            Duty::Rest => delivered,
        }
    }
}

/// The next request of a duty. Refused only for want of memory.
pub(crate) fn next_request(
    duty: Duty,
    terminal: &mut Terminal,
    moment: Moment,
) -> Result<Request, NoMemory>
    ensures receipts { terminal.new.receipts ≡ terminal.old.receipts }
    ensures next { IfOk result (λ request. IsNext duty moment terminal.old request terminal.new) }
{
    match duty {
        Duty::Cards => terminal.next(moment),
        Duty::Deliveries | Duty::Rest => Ok(Request::Deliver(moment)),
    }
}
