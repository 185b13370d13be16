//! What a client does with a job.
ghost use Rattle.std.specs.Prelude.{◌≡◌, true, IfOk, IfErr};
ghost use Rattle.tpcc_turns.specs.Seats.{IsTurned};
ghost use Rattle.tpcc_mailbox.specs.Tokens.{identity, idle_origin, idle_mailbox, waiting_origin, waiting_mailbox, waiting_letter, waiting_saw_closed};

use crate::job::{Job, JobAnswer, JobIdle, JobMailboxes, JobWaiting};
use std::sync::Wait;
use std::time::Duration;
use tpcc_book::Naming;
use tpcc_turns::{Pause, Seating};

/// How long a client sleeps at most before it looks again, in milliseconds; the answer wakes it.
const LONGEST: u64 = 100;

/// Posts a job, and waits for its answer, or until the mailboxes are seen closed while there is none.
/// In the error the job stays posted, and a server may still take it: its token is the right to what
/// becomes of it. No memory is taken.
pub fn ask<N: Naming, T: Seating, C, R: Wait>(
    rt: &R,
    mailboxes: &JobMailboxes<N, T, C>,
    idle: JobIdle<N, T, C>,
    job: Job<N, T, C>,
) -> Result<(JobIdle<N, T, C>, JobAnswer<N, T>), JobWaiting<N, T, C>>
    requires origin { idle_origin idle ≡ identity mailboxes.now }
    // One turn of the book, for the job's own request and purse.
    ensures fits { IfOk result (λ r. IsTurned job.request job.purse r.1) }
    ensures origin { IfOk result (λ r. idle_origin r.0 ≡ identity mailboxes.now) }
    ensures mailbox { IfOk result (λ r. idle_mailbox r.0 ≡ idle_mailbox idle) }
    // Only once the mailboxes were seen closed, with the very job that was posted.
    ensures closed { IfErr result (λ w. waiting_saw_closed w ≡ true) }
    ensures letter { IfErr result (λ w. waiting_letter w ≡ job) }
    ensures same { IfErr result (λ w. (waiting_origin w ≡ identity mailboxes.now)
        × (waiting_mailbox w ≡ idle_mailbox idle)) }
{
    let mut waiting = mailboxes.post(idle, job);
    let mut pause = Pause::among(mailboxes.len() as u64);
    for _ in rt.forever() {
        waiting = match mailboxes.collect(waiting) {
            Ok(done) => return Ok(done),
            Err(back) => back,
        };
        if mailboxes.seen_closed(&mut waiting) {
            break;
        }
        if pause.next().is_some() {
            mailboxes.sleep(rt, &waiting, Duration::from_millis(LONGEST));
        }
    }
    Err(waiting)
}
