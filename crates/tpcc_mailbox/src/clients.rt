//! What a client does with its mailbox.
ghost use Rattle.std.specs.Prelude.{◌≡◌, ◌+◌, ◌<◌, ◌≤◌, true, IfOk, IfErr};
ghost use Rattle.tpcc_mailbox.specs.Tokens.{identity, idle_origin, idle_mailbox, idle_saw_closed, waiting_origin, waiting_mailbox, waiting_letter, waiting_saw_closed};

use crate::letters::answers::Answers;
use crate::letters::room::PostedLetter;
use crate::table::{Mailboxes, exchange_slot, load_word, step_word, word_index};
use crate::tokens::{Idle, Waiting};
use crate::words::plays::{Collecting, Posting, Reading};
use crate::words::rule::{ANSWERED, CLOSED, FREE, Mail, POSTED};
use std::snapshot::Snapshot;

impl<J, A: Answers<J>> Mailboxes<J, A> {
    /// Puts a letter into the client's mailbox, also where the mailboxes are closed.
    pub fn post(&self, idle: Idle<J, A>, letter: J) -> Waiting<J, A>
        requires origin { idle_origin idle ≡ identity self.now }
        ensures origin { waiting_origin result ≡ idle_origin idle }
        ensures mailbox { waiting_mailbox result ≡ idle_mailbox idle }
        ensures letter { waiting_letter result ≡ letter }
        ensures closed { waiting_saw_closed result ≡ idle_saw_closed idle }
    {
        let Idle {
            mut seat,
            mailbox,
            room,
        } = idle;
        let shared = &self.table.shared;
        let kept = Snapshot::of(&letter);
        let posted = Mail::Letter(PostedLetter::new(letter, room));
        let was = exchange_slot(shared, &mut seat, mailbox, Some(posted));
        let None = was else { unreachable!() };
        step_word::<J, A, Posting>(shared, &mut seat, mailbox, FREE, POSTED);
        self.sleepers.wake_server();
        Waiting {
            seat,
            mailbox,
            letter: kept,
        }
    }

    /// Takes the answer out of the client's mailbox, which is free then. While there is no answer the
    /// token comes back unchanged.
    pub fn collect(&self, waiting: Waiting<J, A>) -> Result<(Idle<J, A>, A), Waiting<J, A>>
        requires origin { waiting_origin waiting ≡ identity self.now }
        // The answer fits the very letter that was posted.
        ensures fits { IfOk result (λ r. A.fits (A.label (waiting_letter waiting)) r.1) }
        ensures back { IfErr result (λ w. w ≡ waiting) }
        ensures origin { IfOk result (λ r. idle_origin r.0 ≡ waiting_origin waiting) }
        ensures mailbox { IfOk result (λ r. idle_mailbox r.0 ≡ waiting_mailbox waiting) }
        ensures closed { IfOk result (λ r. idle_saw_closed r.0 ≡ waiting_saw_closed waiting) }
    {
        let shared = &self.table.shared;
        // A plain load first: a failed exchange would take the cache line from the server at work.
        if shared.peek(word_index(waiting.mailbox)) != ANSWERED {
            return Err(waiting);
        }
        let Waiting {
            mut seat,
            mailbox,
            letter,
        } = waiting;
        if step_word::<J, A, Collecting>(shared, &mut seat, mailbox, ANSWERED, FREE) != ANSWERED {
            return Err(Waiting {
                seat,
                mailbox,
                letter,
            });
        }
        let found = exchange_slot(shared, &mut seat, mailbox, None);
        let Some(Mail::Reply(answered)) = found else {
            unreachable!()
        };
        let (answer, room) = answered.take_out();
        let idle = Idle {
            seat,
            mailbox,
            room,
        };
        Ok((idle, answer))
    }

    /// Whether the mailboxes are closed, as a client asks it. True is answered only where the flag was
    /// read as up, and always once this token has seen it up.
    pub fn seen_closed(&self, waiting: &mut Waiting<J, A>) -> bool
        requires origin { waiting_origin waiting.old ≡ identity self.now }
        ensures origin { waiting_origin waiting.new ≡ waiting_origin waiting.old }
        ensures mailbox { waiting_mailbox waiting.new ≡ waiting_mailbox waiting.old }
        ensures letter { waiting_letter waiting.new ≡ waiting_letter waiting.old }
        ensures closed { waiting_saw_closed waiting.new ≡ result }
        ensures again { waiting_saw_closed waiting.old ≡ true → result ≡ true }
    {
        let shared = &self.table.shared;
        load_word::<J, A, Reading>(shared, &mut waiting.seat, word_index(self.count)) == CLOSED
    }
}
