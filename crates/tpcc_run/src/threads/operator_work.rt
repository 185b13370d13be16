//! One request after another.
ghost use Rattle.tpcc_run.specs.Asking.{HasAskedAll, HasAskedNext};
ghost use Rattle.tpcc_run.specs.Internal.Answered.{IfAll, IfAnswered};

use crate::threads::RunThreads;
use crate::threads::duty::Duty;
use crate::threads::operator::{Operator, RequestOutcome};
use std::alloc::{AllocError, Global};
use std::sync::Wait;
use tpcc_book::Naming;
use tpcc_server::OneTurn;
use tpcc_turns::Seating;

/// What comes back of an operator that was to ask.
#[derive(Drop)]
pub(crate) enum OperatorBack<'s, N: Naming, T: Seating, C> {
    /// It asked all.
    All(Operator<'s, N, T, C>),
    /// Memory was refused before it had asked all, or kept the last receipt.
    Short(Operator<'s, N, T, C>),
    /// Its job was still out when nobody served any more: it is posted, or with a server.
    Missing,
}

impl<
    'r,
    N: Naming,
    T: Seating,
    C: OneTurn,
    F: Fn(Global) -> Result<C, AllocError>,
    R: Wait,
> RunThreads<'r, N, T, F, R> {
    /// Asks so many requests, each by a call of its own, or up to the duty's end.
    pub(crate) fn ask_all<'s>(
        &self,
        operator: Operator<'s, N, T, C>,
        duty: Duty,
        most: u32,
    ) -> OperatorBack<'s, N, T, C>
        requires make { F.IsAlwaysCallable self.now.make.now }
        ensures asked { IfAll result (HasAskedAll duty most self.now.plan.moment operator.entry) }
    {
        let mut operator = operator;
        for _ in 0..most {
            match self.ask_next(operator, duty) {
                RequestOutcome::Answered(last, delivered) if !duty.goes_on(delivered) => {
                    return OperatorBack::All(last);
                }
                RequestOutcome::Answered(next, _) => operator = next,
                RequestOutcome::Short(last) => return OperatorBack::Short(last),
                RequestOutcome::Missing => return OperatorBack::Missing,
            }
        }
        OperatorBack::All(operator)
    }

    // Asks the next request, by a call of its own.
    fn ask_next<'s>(
        &self,
        operator: Operator<'s, N, T, C>,
        duty: Duty,
    ) -> RequestOutcome<'s, N, T, C>
        requires make { F.IsAlwaysCallable self.now.make.now }
        ensures asked { IfAnswered result (HasAskedNext duty self.now.plan.moment operator.entry) }
    {
        let mut operator = operator;
        let Ok(call) = (self.make)(self.alloc) else {
            return RequestOutcome::Short(operator);
        };
        match operator.next_request(duty, self.plan.moment) {
            Ok(request) => operator.ask_once(self.rt, self.turns, request, call),
            Err(_) => RequestOutcome::Short(operator),
        }
    }
}
