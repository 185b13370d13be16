//! What a server does while it finds no job.

use std::hint;
use std::sync::Wait;
use std::time::Duration;
use tpcc_mailbox::{Answers, Mailboxes};
use tpcc_turns::Pause;

/// How many mailboxes it looks at in vain before it gives the book's turn up.
const LOOKS: usize = 1_000;

/// Among how many it waits, as its pauses count them.
const SERVERS: u64 = 50;

/// How long a server has found no job.
#[derive(Drop)]
pub(crate) struct Lull {
    /// At how many mailboxes it has looked in vain, up to some more than `LOOKS`.
    looks: usize,
    /// How it waits from then on.
    pause: Pause,
    /// For how long it sleeps if its next round is in vain too.
    sleep: Option<Duration>,
}

impl Lull {
    /// It has found one just now.
    pub(crate) fn new() -> Lull {
        Lull {
            looks: 0,
            pause: Pause::among(SERVERS),
            sleep: None,
        }
    }

    /// A job was found.
    pub(crate) fn end(&mut self) {
        *self = Lull::new();
    }

    /// Whether the lull is a long one, after a round over so many mailboxes that found no job.
    pub(crate) fn is_long(&mut self, mailboxes: usize) -> bool {
        if self.looks < LOOKS {
            self.looks = self.looks.saturating_add(mailboxes);
            hint::spin_loop();
            return false;
        }
        true
    }

    /// Waits once. Before it sleeps it says so and makes one more round, so that no letter is missed.
    pub(crate) fn wait<J, A: Answers<J>, R: Wait>(&mut self, rt: &R, mailboxes: &Mailboxes<J, A>) {
        match self.sleep {
            Some(most) => {
                mailboxes.sleep_idle(rt, most);
                self.sleep = None;
            }
            None => {
                self.sleep = self.pause.next();
                if self.sleep.is_some() {
                    mailboxes.doze();
                }
            }
        }
    }
}
