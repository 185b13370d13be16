//! Who asks at a terminal, and one request up to its receipt.
ghost use Rattle.std.specs.Prelude.{◌≡◌, ◌++◌, IfOk, OnErr, OnOk};
ghost use Rattle.tpcc_terminal.specs.Receipts.{AllStand, receipts_of};
ghost use Rattle.tpcc_run.specs.Asking.{HasAnswered, IsNext};
ghost use Rattle.tpcc_run.specs.Internal.Answered.{IfAnswered};

use crate::threads::duty::{Duty, next_request};
use crate::threads::route::Route;
use std::marker::Model;
use std::sync::Wait;
use tpcc_book::Naming;
use tpcc_money::Moment;
use tpcc_rows::{Delivery, NoMemory, Reply, Request, recall};
use tpcc_server::{JobAnswer, OneTurn};
use tpcc_terminal::{Receipt, Terminal, receipts_stand};
use tpcc_turns::{SeatedPurse, Seating, Turns};

/// Who asks at a terminal. It is seen as its purse and its terminal, whose receipts all stand in the purse's front;
/// by which route its requests come to the book no contract says.
pub(crate) struct Operator<'s, N: Naming, T: Seating, C> {
    /// By a mailbox, or by turns of its own.
    route: Route<'s, N, T, C>,
    /// Its terminal's purse.
    purse: SeatedPurse<N, T>,
    /// Its cards and receipts.
    terminal: Terminal,
}

// By hand, so that whoever lets an operator go proves none of its parts anew.
impl<'s, N: Naming, T: Seating, C> Drop for Operator<'s, N, T, C> {
    fn drop(self) {
        let Operator {
            route: _,
            purse: _,
            terminal: _,
        } = self;
    }
}

impl<'s, N: Naming, T: Seating, C> Model for Operator<'s, N, T, C> {
    ghost use Rattle.tpcc_terminal.specs.Receipts.{AllStand};
    ghost use Rattle.tpcc_run.specs.OperatorView.{OperatorView};

    ghost Value = { OperatorView };

    ghost view = { λ o. record { purse = o.purse; station = o.terminal } };

    ghost invariant = { λ o. AllStand o.purse.front o.terminal.receipts };
}

impl<'s, N: Naming, T: Seating, C> Operator<'s, N, T, C> {
    /// Who asks at a terminal with a purse, by a route.
    pub(crate) fn new(
        route: Route<'s, N, T, C>,
        purse: SeatedPurse<N, T>,
        terminal: Terminal,
    ) -> Operator<'s, N, T, C>
        requires receipts { AllStand purse.front terminal.receipts }
        ensures purse { result.purse ≡ purse }
        ensures terminal { result.station ≡ terminal }
    {
        Operator {
            route,
            purse,
            terminal,
        }
    }

    /// The purse and the receipts; cards and route are let go.
    pub(crate) fn into_parts(self) -> (SeatedPurse<N, T>, Vec<Receipt>)
        ensures purse { result.0 ≡ self.entry.purse }
        ensures receipts { result.1.items ≡ self.entry.station.receipts }
        ensures stand { AllStand result.0.front result.1.items }
    {
        let Operator {
            route: _,
            purse,
            terminal,
        } = self;
        (purse, terminal.receipts())
    }
}

/// What became of a request.
#[derive(Drop)]
pub(crate) enum RequestOutcome<'s, N: Naming, T: Seating, C> {
    /// It was answered, and its receipt was kept; whether a district was delivered or passed over.
    Answered(Operator<'s, N, T, C>, bool),
    /// Memory was refused, for the request or for its receipt.
    Short(Operator<'s, N, T, C>),
    /// Its job was still out when nobody served any more.
    Missing,
}

impl<'s, N: Naming, T: Seating, C> Operator<'s, N, T, C> {
    /// The next request of a duty. Refused only for want of memory.
    pub(crate) fn next_request(&mut self, duty: Duty, moment: Moment) -> Result<Request, NoMemory>
        ensures purse { self.new.purse ≡ self.old.purse }
        ensures next { IfOk result (λ request.
            IsNext duty moment self.old.station request self.new.station) }
    {
        next_request(duty, &mut self.terminal, moment)
    }
}

impl<'s, N: Naming, T: Seating, C: OneTurn> Operator<'s, N, T, C> {
    /// Asks one request, by a call of its own, and keeps its receipt.
    pub(crate) fn ask_once<R: Wait>(
        self,
        rt: &R,
        turns: &Turns<N, T>,
        request: Request,
        call: C,
    ) -> RequestOutcome<'s, N, T, C>
        ensures answered { IfAnswered result (HasAnswered request self.entry) }
    {
        let Operator {
            route,
            purse,
            terminal,
        } = self;
        let mut terminal = terminal;
        let Some((route, answer)) = route.ask(rt, turns, request, purse, call) else {
            return RequestOutcome::Missing;
        };
        // For the proof: receipts stand in the front after the turn.
        recall!(receipts_stand());
        let noted = note(&mut terminal, &answer);
        let delivered = is_delivered(&answer);
        let operator = Operator::new(route, purse_of(answer), terminal);
        match noted {
            Ok(()) => RequestOutcome::Answered(operator, delivered),
            Err(_) => RequestOutcome::Short(operator),
        }
    }
}

// Keeps the receipt of an accepted answer. Refused only for want of memory.
fn note<N: Naming, T: Seating>(
    terminal: &mut Terminal,
    answer: &JobAnswer<N, T>,
) -> Result<(), NoMemory>
    ensures noted { OnOk result (terminal.new ≡ record terminal.old {
      receipts = terminal.old.receipts ++ receipts_of (λ p. p.purse) answer.now;
    }) }
    ensures refused { OnErr result (terminal.new ≡ terminal.old) }
{
    terminal.note(answer)
}

// Whether it is the reply of a district's delivery.
fn is_delivered<N: Naming, T: Seating>(answer: &JobAnswer<N, T>) -> bool {
    matches!(answer.outcome(), Ok(Reply::Delivery(Delivery::District(_))))
}

fn purse_of<N: Naming, T: Seating>(answer: JobAnswer<N, T>) -> SeatedPurse<N, T>
    ensures purse { result ≡ answer.purse }
{
    let (_, _, _, purse) = answer.into_parts();
    purse
}
