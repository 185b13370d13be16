//! How a thread waits for what another does.

use std::sync::Wait;
use std::sync::atomic::AtomicU64;
use std::thread;
use std::time::Duration;

/// How often a thread yields before it sleeps, where few wait.
const YIELDS: u64 = 100;

/// How many yields all that wait for the same make between them, where many do.
const YIELDS_OF_ALL: u64 = 1_000;

/// The shortest first sleep, in nanoseconds; each further one is twice as long.
const SHORTEST: u64 = 50_000;

/// The longest sleep, in nanoseconds.
const LONGEST: u64 = 12_800_000;

/// About how long a turn takes, in nanoseconds.
const TURN: u64 = 10_000;

/// How mailboxes, servers and turns wait: a thread yields its processor a few times and then sleeps, longer each time. The
/// more threads wait for the same, the fewer times it yields and the longer it sleeps at first, so that they leave the
/// processors to the one that works.
#[derive(Drop)]
pub struct Pause {
    /// How often it still yields.
    yields: u64,
    /// How long it sleeps next, in nanoseconds.
    sleep: u64,
    /// Nobody wakes a thread at this word.
    word: AtomicU64,
}

impl Pause {
    /// Before the first wait of one thread among so many.
    pub fn among(count: u64) -> Pause {
        Pause {
            yields: (YIELDS_OF_ALL / count.max(1)).min(YIELDS),
            sleep: count.saturating_mul(TURN).max(SHORTEST).min(LONGEST),
            word: AtomicU64::new(0),
        }
    }

    /// Waits once: it yields, or tells for how long to sleep.
    pub fn next(&mut self) -> Option<Duration> {
        if self.yields > 0 {
            self.yields -= 1;
            thread::yield_now();
            return None;
        }
        let sleep = Duration::from_nanos(self.sleep);
        self.sleep = self.sleep.saturating_mul(2).min(LONGEST);
        Some(sleep)
    }

    /// Waits once, where nobody wakes the thread.
    pub fn wait<R: Wait>(&mut self, rt: &R) {
        if let Some(sleep) = self.next() {
            self.word.park_timeout(rt, 0, sleep);
        }
    }

    /// Waits once as a ticket that has so many before it: the next one looks often, any other sleeps the longer the more
    /// there are.
    pub fn wait_behind<R: Wait>(&mut self, rt: &R, before: u64) {
        if before <= 1 {
            self.wait(rt);
        } else {
            let sleep = before.saturating_mul(TURN).min(LONGEST);
            self.word.park_timeout(rt, 0, Duration::from_nanos(sleep));
        }
    }
}
