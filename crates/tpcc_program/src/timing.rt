//! How long a command takes, for whoever asks with `--time`.
ghost use Rattle.std.specs.Prelude.{◌≡◌, ◌+◌, ◌-◌, ◌*◌, ◌/◌};

use std::fmt::{self, Display, Formatter};
use std::io::{self, Read, Write};
use std::sync::atomic::{AtomicU64, Ordering};
use std::time::Clock;

/// When a command began, when its opening stood and when its requests were served, in nanoseconds of the
/// monotonic clock; 0 where that is still to come, and where the clock can't be read.
#[derive(Drop)]
pub struct Timing {
    /// When it began.
    begun: u64,
    /// When its opening stood.
    opened: AtomicU64,
    /// When its requests were served.
    served: AtomicU64,
}

impl Timing {
    /// The timing of a command that begins now.
    pub fn begin<R: Clock>(rt: &R) -> Timing {
        Timing {
            begun: nanoseconds(rt),
            opened: AtomicU64::new(0),
            served: AtomicU64::new(0),
        }
    }

    /// The opening stands. Of several calls the first counts.
    pub fn mark_opened<R: Clock>(&self, rt: &R) {
        mark(&self.opened, rt);
    }

    /// The requests are served. Of several calls the first counts.
    pub fn mark_served<R: Clock>(&self, rt: &R) {
        mark(&self.served, rt);
    }

    /// A reader whose first call says that the opening stands.
    pub fn time_reader<'a, T: Clock, R: Read>(
        &'a self,
        rt: &'a T,
        input: R,
    ) -> TimedReader<'a, T, R>
        ensures remaining { ⟦<TimedReader<'a, T, R> as Read>⟧.remaining result
            ≡ R.remaining input }
    {
        TimedReader {
            input,
            rt,
            timing: self,
        }
    }

    /// A writer whose first call says that the requests are served.
    pub fn time_writer<'a, T: Clock, W: Write>(&'a self, rt: &'a T, out: W) -> TimedWriter<'a, T, W>
        ensures contents { ⟦<TimedWriter<'a, T, W> as Write>⟧.contents result ≡ W.contents out }
    {
        TimedWriter {
            out,
            rt,
            timing: self,
        }
    }

    /// What a command that ends now took for so many requests.
    pub fn times<R: Clock>(&self, rt: &R, requests: u64) -> Times
        ensures requests { result.requests ≡ requests }
    {
        self.mark_opened(rt);
        self.mark_served(rt);
        let opened = self.opened.load(Ordering::SeqCst);
        let served = self.served.load(Ordering::SeqCst);
        Times {
            opening: opened.saturating_sub(self.begun),
            requests,
            serving: served.saturating_sub(opened),
        }
    }
}

/// How long a command took, in two lines such as `opening 0.412 s` and
/// `requests 92000 in 0.310 s, 296774 a second`.
#[derive(Clone, Copy)]
pub struct Times {
    /// From the command's beginning to its opening, in nanoseconds.
    pub opening: u64,
    /// How many requests were served.
    pub requests: u64,
    /// From the opening to the last of them, in nanoseconds.
    pub serving: u64,
}

impl Times {
    /// How many requests were served in a second, rounded down; a time of nothing counts as a nanosecond.
    pub fn rate(&self) -> u128
        ensures rate { result ≡ self.now.requests * 1000000000 / (self.now.serving - 1 + 1) }
    {
        u128::from(self.requests) * 1_000_000_000 / (u128::from(self.serving.saturating_sub(1)) + 1)
    }
}

impl Display for Times {
    fn fmt<W: fmt::Write>(&self, f: &mut Formatter<W>) -> fmt::Result {
        let opening = Seconds(self.opening);
        let serving = Seconds(self.serving);
        let rate = self.rate();
        write!(f, "opening {opening} s\n")?;
        write!(
            f,
            "requests {} in {serving} s, {rate} a second\n",
            self.requests
        )
    }
}

// Nanoseconds as seconds with three decimals, rounded down.
#[derive(Clone, Copy)]
struct Seconds(u64);

impl Display for Seconds {
    fn fmt<W: fmt::Write>(&self, f: &mut Formatter<W>) -> fmt::Result {
        let milliseconds = self.0 / 1_000_000;
        write!(f, "{}.{:03}", milliseconds / 1_000, milliseconds % 1_000)
    }
}

/// A reader whose first call says that the opening stands.
#[derive(Drop)]
pub struct TimedReader<'a, T, R> {
    /// The reader that is read.
    input: R,
    /// Whose clock is asked.
    rt: &'a T,
    /// What is told of the first call.
    timing: &'a Timing,
}

impl<T: Clock, R: Read> Read for TimedReader<'_, T, R> {
    ghost remaining = { λ r. R.remaining r.input };

    fn read(&mut self, buf: &mut [u8]) -> io::Result<usize> {
        self.timing.mark_opened(self.rt);
        self.input.read(buf)
    }
}

/// A writer whose first call says that the requests are served.
#[derive(Drop)]
pub struct TimedWriter<'a, T, W> {
    /// The writer that is written.
    out: W,
    /// Whose clock is asked.
    rt: &'a T,
    /// What is told of the first call.
    timing: &'a Timing,
}

impl<'a, T: Clock, W: Write> TimedWriter<'a, T, W> {
    /// The writer that was written.
    pub fn into_inner(self) -> W
        ensures contents { W.contents result ≡ ⟦<TimedWriter<'a, T, W> as Write>⟧.contents self.entry }
    {
        self.out
    }
}

impl<T: Clock, W: Write> Write for TimedWriter<'_, T, W> {
    ghost contents = { λ w. W.contents w.out };

    fn write(&mut self, buf: &[u8]) -> io::Result<usize> {
        self.timing.mark_served(self.rt);
        self.out.write(buf)
    }

    fn flush(&mut self) -> io::Result<()> {
        self.out.flush()
    }
}

// The moment is now, where it was not told before.
fn mark<R: Clock>(moment: &AtomicU64, rt: &R) {
    if moment.load(Ordering::SeqCst) == 0 {
        let _ = moment.compare_exchange(0, nanoseconds(rt), Ordering::SeqCst, Ordering::SeqCst);
    }
}

// What the monotonic clock shows, in nanoseconds; 0 where it can't be read.
fn nanoseconds<R: Clock>(rt: &R) -> u64 {
    match rt.monotonic() {
        Ok(since_start) => u64::try_from(since_start.as_nanos()).unwrap_or(0),
        Err(_) => 0,
    }
}
