//! Sleeping until the other side has done its part.
ghost use Rattle.std.specs.Prelude.{◌≡◌, ◌<◌};
ghost use Rattle.tpcc_mailbox.specs.Tokens.{identity, mailbox_count, waiting_origin};

use crate::letters::answers::Answers;
use crate::table::{Mailboxes, word_index};
use crate::tokens::Waiting;
use crate::words::rule::{POSTED, TAKEN};
use std::sync::Wait;
use std::sync::atomic::{AtomicU64, Ordering};
use std::time::Duration;

/// Whether a server sleeps, as its word says.
const ASLEEP: u64 = 1;

/// Who sleeps, for those who wake. It spares them the call where nobody does, and no claim rests on it: each sleep ends by
/// itself.
#[derive(Drop)]
pub(crate) struct Sleepers {
    /// How many clients sleep at their mailboxes.
    clients: AtomicU64,
    /// Whether a server sleeps, and the word at which it does.
    servers: AtomicU64,
}

impl Sleepers {
    /// Nobody sleeps.
    pub(crate) fn new() -> Sleepers {
        Sleepers {
            clients: AtomicU64::new(0),
            servers: AtomicU64::new(0),
        }
    }

    /// Wakes a server, if one sleeps.
    pub(crate) fn wake_server(&self) {
        if self.servers.load(Ordering::SeqCst) == ASLEEP {
            self.servers.store(0, Ordering::SeqCst);
            self.servers.wake_one();
        }
    }
}

impl<J, A: Answers<J>> Mailboxes<J, A> {
    /// Sleeps until the letter of this token is answered, though no longer than `most`; it may also end early.
    pub fn sleep<R: Wait>(&self, rt: &R, waiting: &Waiting<J, A>, most: Duration)
        requires origin { waiting_origin waiting.now ≡ identity self.now }
    {
        let shared = &self.table.shared;
        let word = word_index(waiting.mailbox);
        self.sleepers.clients.fetch_add(1, Ordering::SeqCst);
        // Whoever takes the letter wakes nobody, so a sleep that began before that goes on after it.
        let state = if shared.peek(word) == POSTED {
            POSTED
        } else {
            TAKEN
        };
        shared.park_timeout(rt, word, state as u32, most);
        self.sleepers.clients.fetch_sub(1, Ordering::SeqCst);
    }

    /// Wakes the client of a mailbox, if one sleeps.
    pub(crate) fn wake_client(&self, mailbox: usize)
        requires within { mailbox < mailbox_count self.now }
    {
        if self.sleepers.clients.load(Ordering::SeqCst) != 0 {
            self.table.shared.wake_one(word_index(mailbox));
        }
    }

    /// Says that a server is about to sleep: from now on the next letter wakes it. It looks at each mailbox once more
    /// before it does, so that it misses none.
    pub fn doze(&self) {
        self.sleepers.servers.store(ASLEEP, Ordering::SeqCst);
    }

    /// Sleeps until a letter is posted, though no longer than `most`, or not at all where one was posted since a server
    /// said that it is about to sleep. It may also end early.
    pub fn sleep_idle<R: Wait>(&self, rt: &R, most: Duration) {
        self.sleepers.servers.park_timeout(rt, ASLEEP as u32, most);
    }
}
