//! The routes by which a terminal's requests come to the book.
ghost use Rattle.std.specs.Prelude.{◌≡◌, IfSome};
ghost use Rattle.tpcc_turns.specs.Seats.{IsTurned};
ghost use Rattle.tpcc_mailbox.specs.Tokens.{identity, idle_origin};

use std::sync::Wait;
use tpcc_book::Naming;
use tpcc_rows::Request;
use tpcc_server::{Errand, Job, JobAnswer, JobIdle, JobMailboxes, OneTurn, ask};
use tpcc_turns::{SeatedPurse, Seating, Turns};

/// How one terminal's requests are served, one after another.
pub(crate) enum Route<'s, N: Naming, T: Seating, C> {
    /// By a job in the terminal's mailbox, which a server takes, or by a turn of its own where the book is free.
    ByMailbox(MailboxRoute<'s, N, T, C>),
    /// By a turn that the terminal's own thread makes.
    ByTurn,
}

/// The right to post in one mailbox.
pub(crate) struct MailboxRoute<'s, N: Naming, T: Seating, C> {
    /// The mailboxes that servers look at.
    pub mailboxes: &'s JobMailboxes<N, T, C>,
    /// The right to post into one of them.
    pub idle: JobIdle<N, T, C>,
    /// The mailbox is one of these.
    pub ghost origin: { idle_origin idle ≡ identity mailboxes.now },
}

// By hand, so that whoever lets a route go proves none of its parts anew.
impl<'s, N: Naming, T: Seating, C> Drop for Route<'s, N, T, C> {
    fn drop(self) {
        match self {
            Route::ByMailbox(_) | Route::ByTurn => {}
        }
    }
}

// By hand, as of a route.
impl<'s, N: Naming, T: Seating, C> Drop for MailboxRoute<'s, N, T, C> {
    fn drop(self) {
        let MailboxRoute {
            mailboxes: _,
            idle: _,
        } = self;
    }
}

impl<'s, N: Naming, T: Seating, C: OneTurn> Route<'s, N, T, C> {
    /// Serves a request for a purse by a call, and gives the route back with the answer. None where the job is
    /// still out when nobody serves any more.
    pub(crate) fn ask<R: Wait>(
        self,
        rt: &R,
        turns: &Turns<N, T>,
        request: Request,
        purse: SeatedPurse<N, T>,
        call: C,
    ) -> Option<(Route<'s, N, T, C>, JobAnswer<N, T>)>
        ensures turned { IfSome result (λ r. IsTurned request purse r.1) }
    {
        let job = Job::of(request, purse, call);
        match self {
            Route::ByTurn => {
                let answer = job.run(turns, rt);
                Some((Route::ByTurn, answer))
            }
            // A thread that finds the book free makes its own turn: that spares two changes of threads.
            Route::ByMailbox(route) if !turns.is_busy() => {
                let answer = job.run(turns, rt);
                Some((Route::ByMailbox(route), answer))
            }
            Route::ByMailbox(route) => {
                let (route, answer) = route.ask(rt, job)?;
                Some((Route::ByMailbox(route), answer))
            }
        }
    }
}

impl<'s, N: Naming, T: Seating, C: OneTurn> MailboxRoute<'s, N, T, C> {
    // Posts the job, and waits for its answer.
    fn ask<R: Wait>(
        self,
        rt: &R,
        job: Job<N, T, C>,
    ) -> Option<(MailboxRoute<'s, N, T, C>, JobAnswer<N, T>)>
        ensures turned { IfSome result (λ r. IsTurned job.request job.purse r.1) }
    {
        let MailboxRoute { mailboxes, idle } = self;
        match ask(rt, mailboxes, idle, job) {
            Ok((idle, answer)) => Some((MailboxRoute { mailboxes, idle }, answer)),
            Err(_) => None,
        }
    }
}
