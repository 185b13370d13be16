//! The routes of a run's terminals.
ghost use Rattle.std.specs.Prelude.{◌≡◌, ◌<◌, All, IfSome, IsSome, vec_len};
ghost use Rattle.tpcc_mailbox.specs.Tokens.{identity, idle_origin};

use crate::threads::route::{MailboxRoute, Route};
use std::alloc::{AllocError, Global};
use tpcc_book::Naming;
use tpcc_rows::recall;
use tpcc_server::{JobIdle, JobMailboxes};
use tpcc_turns::{Seating, Turns};

/// The routes by all mailboxes.
pub(crate) fn by_mailboxes<'s, N: Naming, T: Seating, C>(
    alloc: Global,
    mailboxes: &'s JobMailboxes<N, T, C>,
    idles: Vec<JobIdle<N, T, C>>,
) -> Result<Vec<Route<'s, N, T, C>>, AllocError>
    requires idles { All (λ idle. idle_origin idle ≡ identity mailboxes.now) idles.items }
{
    let mut idles = idles;
    let mut routes = Vec::new(alloc);
    while let Some(route) = next_route(&mut idles, mailboxes) {
        routes.push(route)?;
    }
    Ok(routes)
}

// The route by one more mailbox.
fn next_route<'s, N: Naming, T: Seating, C>(
    idles: &mut Vec<JobIdle<N, T, C>>,
    mailboxes: &'s JobMailboxes<N, T, C>,
) -> Option<Route<'s, N, T, C>>
    requires idles { All (λ idle. idle_origin idle ≡ identity mailboxes.now) idles.old.items }
    ensures rest { All (λ idle. idle_origin idle ≡ identity mailboxes.now) idles.new.items }
    ensures less { IsSome result → vec_len idles.new < vec_len idles.old }
{
    let idle = next_idle(idles, mailboxes)?;
    Some(Route::ByMailbox(MailboxRoute { mailboxes, idle }))
}

// The right to post in one more mailbox. It borrows the mailboxes for its clauses alone, which name the identity that
// each right is of; what is known of all rights is kept apart from the route that is made of one.
fn next_idle<N: Naming, T: Seating, C>(
    idles: &mut Vec<JobIdle<N, T, C>>,
    mailboxes: &JobMailboxes<N, T, C>,
) -> Option<JobIdle<N, T, C>>
    requires idles { All (λ idle. idle_origin idle ≡ identity mailboxes.now) idles.old.items }
    ensures rest { All (λ idle. idle_origin idle ≡ identity mailboxes.now) idles.new.items }
    ensures one { IfSome result (λ idle. idle_origin idle ≡ identity mailboxes.now) }
    ensures less { IsSome result → vec_len idles.new < vec_len idles.old }
{
    // For the proof: each right is of these mailboxes.
    recall!(mailboxes);
    idles.pop()
}

/// Routes by turns of their own. They live as long as the turns, which are lent for that alone.
pub(crate) fn by_turns<'s, N: Naming, T: Seating, C>(
    alloc: Global,
    turns: &'s Turns<N, T>,
    count: usize,
) -> Result<Vec<Route<'s, N, T, C>>, AllocError> {
    // For the borrow checker: the routes' lifetime is that of the turns.
    recall!(turns);
    let mut routes = Vec::new(alloc);
    for _ in 0..count {
        routes.push(Route::ByTurn)?;
    }
    Ok(routes)
}
