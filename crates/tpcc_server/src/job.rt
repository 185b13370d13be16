//! Jobs, and the answers that fit them.
ghost use Rattle.std.specs.Prelude.{◌≡◌};
ghost use Rattle.tpcc_book.specs.Turn.{IsTurn, TakesTurn, MakesTurn};
ghost use Rattle.tpcc_turns.specs.Seats.{IsTurned, keeper_of};
ghost use mathlib.Core.List.{IsPrefix};

use crate::errand::Errand;
use crate::one_turn::{BoxedTurn, OneTurn, TurnCall};
use std::marker::Model;
use std::sync::Wait;
use tpcc_book::{Answer, Naming, Register, Turned};
use tpcc_mailbox::{Answers, Idle, Mailboxes, Serving, Waiting};
use tpcc_rows::Request;
use tpcc_turns::{HeldTurn, SeatedPurse, Seating, Turns};

/// A request, a seated purse, and the call that is to serve the request for it. It has no copy, and
/// running it or giving it back spends it.
#[derive(Drop)]
pub struct Job<N: Naming, T: Seating, C> {
    /// What is to be served.
    request: Request,
    /// By whose purse.
    purse: SeatedPurse<N, T>,
    /// What makes the turn.
    call: C,
}

impl<N: Naming, T: Seating, C> Model for Job<N, T, C> {
    ghost use Rattle.tpcc_server.specs.Jobs.{JobView};

    ghost Value = { JobView C };

    ghost view = { λ job. record { request = job.request; purse = job.purse; call = job.call } };
}

/// What clauses see of a job. No value of it is made.
pub struct JobLabel<N: Naming, T: Seating> {
    /// The job's request.
    pub request: Request,
    /// The job's purse.
    pub purse: SeatedPurse<N, T>,
}

/// What a job is answered by.
pub type JobAnswer<N, T> = Answer<SeatedPurse<N, T>>;

/// Mailboxes for jobs.
pub type JobMailboxes<N, T, C> = Mailboxes<Job<N, T, C>, JobAnswer<N, T>>;

/// The right to post a job.
pub type JobIdle<N, T, C> = Idle<Job<N, T, C>, JobAnswer<N, T>>;

/// The right to the answer of a job that was posted.
pub type JobWaiting<N, T, C> = Waiting<Job<N, T, C>, JobAnswer<N, T>>;

/// The right to take jobs.
pub type JobServing<N, T, C> = Serving<Job<N, T, C>, JobAnswer<N, T>>;

impl<N: Naming, T: Seating, C> Answers<Job<N, T, C>> for Answer<SeatedPurse<N, T>> {
    type Label = JobLabel<N, T>;

    ghost label = { λ job. record { request = job.request; purse = job.purse } };

    // An answer fits where it is one turn of the book for the job's own request and purse.
    ghost fits = { λ letter answer. IsTurned letter.request letter.purse answer };
}

impl<N: Naming, T: Seating> Job<N, T, BoxedTurn> {
    /// A job of a boxed call, which has to make a turn wherever it is called. It takes no memory.
    pub fn new(request: Request, purse: SeatedPurse<N, T>, call: TurnCall) -> Job<N, T, BoxedTurn>
        requires takes { TakesTurn (TurnCall.pre call) }
        requires turns { MakesTurn (TurnCall.post call) }
        ensures request { result.request ≡ request }
        ensures purse { result.purse ≡ purse }
    {
        Job::of(request, purse, BoxedTurn::new(call))
    }
}

impl<N: Naming, T: Seating, C: OneTurn> Job<N, T, C> {
    /// A job of a call that is known to make a turn. It takes no memory.
    pub fn of(request: Request, purse: SeatedPurse<N, T>, call: C) -> Job<N, T, C>
        ensures request { result.request ≡ request }
        ensures purse { result.purse ≡ purse }
        ensures call { result.call ≡ call }
    {
        Job {
            request,
            purse,
            call,
        }
    }

    /// Makes the call once in a turn that is kept, for the job's own request and purse. It does not wait.
    pub fn run_held(
        self,
        turns: &Turns<N, T>,
        held: HeldTurn<N, T>,
    ) -> (HeldTurn<N, T>, Answer<SeatedPurse<N, T>>)
        ensures keeper { keeper_of result.0 ≡ keeper_of held }
        ensures grows { IsPrefix held.front result.0.front }
        ensures seen { result.1.purse.front ≡ result.0.front }
        ensures turned { IsTurned self.request self.purse result.1 }
    {
        let Job {
            request,
            purse,
            call,
        } = self;
        turns.serve_held(
            held,
            request,
            purse,
            move |register: &mut Register, asked: Request, terminal: u32, number: u64| -> Turned
                ensures turn { IsTurn register.old terminal number asked result register.new }
            { call.turn_once(register, asked, terminal, number) },
        )
    }
}

impl<N: Naming, T: Seating, C: Drop> Job<N, T, C> {
    /// The job's own request and purse. The call is let go and never made; no memory is taken.
    pub fn give_back(self) -> (Request, SeatedPurse<N, T>)
        ensures request { result.0 ≡ self.request }
        ensures purse { result.1 ≡ self.purse }
    {
        let Job {
            request,
            purse,
            call: _,
        } = self;
        (request, purse)
    }
}

impl<N: Naming, T: Seating, C: OneTurn> Errand<N, T> for Job<N, T, C> {
    ghost request = { λ job. job.request };

    ghost purse = { λ job. job.purse };

    fn run<R: Wait>(self, turns: &Turns<N, T>, rt: &R) -> Answer<SeatedPurse<N, T>> {
        let Job {
            request,
            purse,
            call,
        } = self;
        turns.serve_by(
            rt,
            request,
            purse,
            move |register: &mut Register, request: Request, terminal: u32, number: u64| -> Turned
                ensures turn { IsTurn register.old terminal number request result register.new }
            { call.turn_once(register, request, terminal, number) },
        )
    }
}
