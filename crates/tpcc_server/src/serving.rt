//! What a server does with its mailboxes.
ghost use Rattle.std.specs.Prelude.{◌≡◌, ◌+◌, ◌<◌, ◌≤◌, true, None};
ghost use Rattle.tpcc_mailbox.specs.Tokens.{identity, mailbox_count, serving_origin, serving_hand, serving_answered, serving_saw_closed};
ghost use Rattle.tpcc_turns.specs.Seats.{keeper_of};
ghost use Rattle.tpcc_server.specs.Rounds.{HasAnswered, HasAnsweredInTurn};
ghost use Rattle.tpcc_server.specs.Servings.{HasServed};
ghost use Rattle.tpcc_server.specs.Internal.TurnStates.{keeper_in};

use crate::errand::Errand;
use crate::gate::Gate;
use crate::job::{JobMailboxes, JobServing};
use crate::lull::Lull;
use crate::one_turn::OneTurn;
use crate::turn_state::TurnState;
use std::sync::Wait;
use tpcc_book::Naming;
use tpcc_turns::{HeldTurn, SeatedPurse, Seating, Turns};

/// Looks at each mailbox once, in order, and answers the jobs that it finds, each in a turn of its own. It gives
/// their number. The server's own purse keeps the book's turn from one job to the next while nobody else waits for it,
/// and comes back without it.
pub fn serve_round<N: Naming, T: Seating, C: OneTurn, G: Gate, R: Wait>(
    rt: &R,
    mailboxes: &JobMailboxes<N, T, C>,
    serving: &mut JobServing<N, T, C>,
    turns: &Turns<N, T>,
    gate: &mut G,
    keeper: SeatedPurse<N, T>,
) -> (u64, SeatedPurse<N, T>)
    requires origin { serving_origin serving.old ≡ identity mailboxes.now }
    requires free { serving_hand serving.old ≡ None }
    ensures kept { HasServed serving.old serving.new }
    ensures closed { serving_saw_closed serving.new ≡ serving_saw_closed serving.old }
    ensures served { result.0 ≤ mailbox_count mailboxes.now }
    ensures keeper { keeper_of result.1 ≡ keeper_of keeper }
    // The number is that of the jobs answered, at most one a mailbox.
    ensures answered { HasAnsweredInTurn (serving_answered serving.old)
        (serving_answered serving.new) result.0 (mailbox_count mailboxes.now) }
{
    let state = TurnState::Free(keeper);
    let (served, state) = serve_some(rt, mailboxes, serving, turns, gate, u64::MAX, state);
    (served, state.rest(turns))
}

// Passes the gate in front of a job; one that may hold the server up, without the turn.
fn pass_before<N: Naming, T: Seating, G: Gate>(
    turns: &Turns<N, T>,
    gate: &mut G,
    mailbox: usize,
    state: TurnState<N, T>,
) -> TurnState<N, T>
    ensures keeper { keeper_in result ≡ keeper_in state }
{
    let state = if gate.is_open() {
        state
    } else {
        TurnState::Free(state.rest(turns))
    };
    gate.before(mailbox);
    state
}

// Passes the gate behind a job. The turn is given up at one that may hold the server up, and where somebody else waits.
fn pass_after<N: Naming, T: Seating, G: Gate>(
    turns: &Turns<N, T>,
    gate: &mut G,
    mailbox: usize,
    held: HeldTurn<N, T>,
) -> TurnState<N, T>
    ensures keeper { keeper_in result ≡ keeper_of held }
{
    let state = if gate.is_open() {
        TurnState::Holding(held).give_way(turns)
    } else {
        TurnState::Free(turns.end(held))
    };
    gate.after(mailbox);
    state
}

// A round that ends once it has answered so many jobs.
fn serve_some<N: Naming, T: Seating, C: OneTurn, G: Gate, R: Wait>(
    rt: &R,
    mailboxes: &JobMailboxes<N, T, C>,
    serving: &mut JobServing<N, T, C>,
    turns: &Turns<N, T>,
    gate: &mut G,
    most: u64,
    state: TurnState<N, T>,
) -> (u64, TurnState<N, T>)
    requires origin { serving_origin serving.old ≡ identity mailboxes.now }
    requires free { serving_hand serving.old ≡ None }
    ensures kept { HasServed serving.old serving.new }
    ensures closed { serving_saw_closed serving.new ≡ serving_saw_closed serving.old }
    ensures served { result.0 ≤ mailbox_count mailboxes.now }
    ensures most { result.0 ≤ most }
    ensures keeper { keeper_in result.1 ≡ keeper_in state }
    ensures answered { HasAnsweredInTurn (serving_answered serving.old)
        (serving_answered serving.new) result.0 (mailbox_count mailboxes.now) }
{
    let mut state = state;
    let mut served = 0u64;
    for k in 0..mailboxes.len() {
        if served == most {
            break;
        }
        state.stand_by(rt, turns);
        if let Some((taken, job)) = mailboxes.take(serving, k) {
            let before = pass_before(turns, gate, k, state);
            let (held, answer) = job.run_held(turns, before.hold(rt, turns));
            mailboxes.answer(serving, taken, answer);
            state = pass_after(turns, gate, k, held);
            served += 1;
        }
    }
    (served, state)
}

/// Makes rounds until it has answered `limit` jobs, or has made one whole round after it saw the
/// mailboxes closed. It gives the server, the gate and its own purse back, and the number of jobs that it answered.
/// Between two jobs the purse keeps the book's turn, unless somebody else waits for it, the gate may hold the server up, or
/// it has found no job for some thousand looks. While another server keeps the turn it stands by for about a tenth of a
/// second before each job that it might take, so that the turn goes from one to the other seldom.
pub fn serve_until_closed<N: Naming, T: Seating, C: OneTurn, G: Gate, R: Wait>(
    rt: &R,
    mailboxes: &JobMailboxes<N, T, C>,
    serving: JobServing<N, T, C>,
    turns: &Turns<N, T>,
    gate: G,
    limit: u64,
    keeper: SeatedPurse<N, T>,
) -> (JobServing<N, T, C>, G, u64, SeatedPurse<N, T>)
    requires origin { serving_origin serving ≡ identity mailboxes.now }
    requires free { serving_hand serving ≡ None }
    ensures kept { HasServed serving result.0 }
    ensures limit { result.2 ≤ limit }
    ensures keeper { keeper_of result.3 ≡ keeper_of keeper }
    // The number is that of the jobs answered.
    ensures answered { HasAnswered (serving_answered serving) (serving_answered result.0) result.2 }
    // Fewer only where it saw the mailboxes closed.
    ensures fewer { result.2 < limit → serving_saw_closed result.0 ≡ true }
{
    let mut serving = serving;
    let mut gate = gate;
    let mut state = TurnState::Free(keeper);
    let mut lull = Lull::new();
    let mut served = 0u64;
    for _ in rt.forever() {
        // Read before the round, so that a job posted before the mailboxes were closed is found.
        let closed = mailboxes.is_closed(&mut serving);
        let (answered, left) = serve_some(
            rt,
            mailboxes,
            &mut serving,
            turns,
            &mut gate,
            limit - served,
            state,
        );
        state = left.give_way(turns);
        served += answered;
        if closed || served == limit {
            break;
        }
        if answered == 0 {
            state = state.pause(rt, turns, mailboxes, &mut lull);
        } else {
            lull.end();
        }
    }
    (serving, gate, served, state.rest(turns))
}
