//! What a server does.
ghost use Rattle.std.specs.Prelude.{◌≡◌, ◌+◌, ◌<◌, ◌≤◌, [], ◌∷◌, ◌++◌, true, IfSome, IfNone, Some, None};
ghost use Rattle.tpcc_mailbox.specs.Tokens.{identity, mailbox_count, serving_origin, serving_hand, serving_splits, serving_answered, serving_saw_closed, taken_mailbox, taken_letter};

use crate::letters::answers::Answers;
use crate::table::{Mailboxes, exchange_slot, load_word, split_seat, step_word, word_index};
use crate::tokens::{Serving, Taken};
use crate::words::plays::{Answering, Closing, Reading, SplittingServer, Taking};
use crate::words::rule::{ANSWERED, CLOSED, Mail, POSTED, TAKEN};
use std::snapshot::Snapshot;

impl<J, A: Answers<J>> Mailboxes<J, A> {
    /// Takes the letter out of the mailbox `k` into the server's hand, if one is posted there. `None`
    /// also where there is no such mailbox. Until the letter is answered this server takes no other.
    pub fn take(&self, serving: &mut Serving<J, A>, k: usize) -> Option<(Taken<J, A>, J)>
        requires origin { serving_origin serving.old ≡ identity self.now }
        requires free { serving_hand serving.old ≡ None }
        ensures origin { serving_origin serving.new ≡ serving_origin serving.old }
        ensures within { IfSome result (λ r. k < mailbox_count self.now) }
        ensures taken { IfSome result (λ r. (taken_letter r.0 ≡ r.1) × (taken_mailbox r.0 ≡ k)) }
        ensures hand { IfSome result (λ r. serving_hand serving.new ≡ Some (k, r.1)) }
        ensures none { IfNone result (serving.new ≡ serving.old) }
        ensures closed { serving_saw_closed serving.new ≡ serving_saw_closed serving.old }
        ensures splits { serving_splits serving.new ≡ serving_splits serving.old }
        ensures answered { serving_answered serving.new ≡ serving_answered serving.old }
    {
        if k >= self.count {
            return None;
        }
        let shared = &self.table.shared;
        // A plain load first: a failed exchange would take the cache line from the client or the server there.
        if shared.peek(word_index(k)) != POSTED {
            return None;
        }
        if step_word::<J, A, Taking>(shared, &mut serving.seat, k, POSTED, TAKEN) != POSTED {
            return None;
        }
        let found = exchange_slot(shared, &mut serving.seat, k, None);
        let Some(Mail::Letter(posted)) = found else {
            unreachable!()
        };
        let (letter, room) = posted.open();
        let taken = Taken {
            mailbox: k,
            letter: Snapshot::of(&letter),
            room,
        };
        Some((taken, letter))
    }

    /// Puts the answer of the letter in the server's hand into the mailbox that it was taken from.
    pub fn answer(&self, serving: &mut Serving<J, A>, taken: Taken<J, A>, answer: A)
        requires origin { serving_origin serving.old ≡ identity self.now }
        // It was this server that took the letter.
        requires taken { serving_hand serving.old ≡ Some (taken_mailbox taken, taken_letter taken) }
        requires fits { A.fits (A.label (taken_letter taken)) answer }
        ensures origin { serving_origin serving.new ≡ serving_origin serving.old }
        ensures free { serving_hand serving.new ≡ None }
        ensures closed { serving_saw_closed serving.new ≡ serving_saw_closed serving.old }
        ensures splits { serving_splits serving.new ≡ serving_splits serving.old }
        ensures answered { serving_answered serving.new
            ≡ serving_answered serving.old ++ taken_mailbox taken ∷ [] }
    {
        let Taken {
            mailbox,
            letter: _,
            room,
        } = taken;
        let answered = Mail::Reply(room.fill(answer));
        let shared = &self.table.shared;
        let was = exchange_slot(shared, &mut serving.seat, mailbox, Some(answered));
        let None = was else { unreachable!() };
        step_word::<J, A, Answering>(shared, &mut serving.seat, mailbox, TAKEN, ANSWERED);
        self.wake_client(mailbox);
    }

    /// Closes the mailboxes, which may be closed already. It raises a flag and stops nothing: letters
    /// stay where they are, and all calls go on as before.
    pub fn close(&self, serving: &mut Serving<J, A>)
        requires origin { serving_origin serving.old ≡ identity self.now }
        ensures origin { serving_origin serving.new ≡ serving_origin serving.old }
        ensures closed { serving_saw_closed serving.new ≡ true }
        ensures hand { serving_hand serving.new ≡ serving_hand serving.old }
        ensures splits { serving_splits serving.new ≡ serving_splits serving.old }
        ensures answered { serving_answered serving.new ≡ serving_answered serving.old }
    {
        self.table
            .shared
            .store::<Closing>(&mut serving.seat, word_index(self.count), CLOSED);
    }

    /// Whether the mailboxes are closed. True is answered only where the flag was read as up, and always
    /// once this token has closed the mailboxes or seen them closed.
    pub fn is_closed(&self, serving: &mut Serving<J, A>) -> bool
        requires origin { serving_origin serving.old ≡ identity self.now }
        ensures origin { serving_origin serving.new ≡ serving_origin serving.old }
        ensures closed { serving_saw_closed serving.new ≡ result }
        ensures again { serving_saw_closed serving.old ≡ true → result ≡ true }
        ensures hand { serving_hand serving.new ≡ serving_hand serving.old }
        ensures splits { serving_splits serving.new ≡ serving_splits serving.old }
        ensures answered { serving_answered serving.new ≡ serving_answered serving.old }
    {
        let shared = &self.table.shared;
        load_word::<J, A, Reading>(shared, &mut serving.seat, word_index(self.count)) == CLOSED
    }
}

impl<J, A: Answers<J>> Serving<J, A> {
    /// Makes one more server, whose hand is empty. Both have seen of the closed flag what this one had.
    pub fn split(&mut self, mailboxes: &Mailboxes<J, A>) -> Serving<J, A>
        requires origin { serving_origin self.old ≡ identity mailboxes.now }
        ensures origin { (serving_origin self.new ≡ serving_origin self.old)
            × (serving_origin result ≡ serving_origin self.old) }
        ensures hand { serving_hand self.new ≡ serving_hand self.old }
        ensures free { serving_hand result ≡ None }
        // Each has half the share of the right to serve that this one had.
        ensures splits { (serving_splits self.new ≡ serving_splits self.old + 1)
            × (serving_splits result ≡ serving_splits self.old + 1) }
        // The new one has answered nothing.
        ensures answered { (serving_answered self.new ≡ serving_answered self.old)
            × (serving_answered result ≡ []) }
        ensures closed { (serving_saw_closed self.new ≡ serving_saw_closed self.old)
            × (serving_saw_closed result ≡ serving_saw_closed self.old) }
    {
        Serving {
            seat: split_seat::<J, A, SplittingServer>(&mailboxes.table.shared, &mut self.seat),
        }
    }
}
