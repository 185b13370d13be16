//! How many of what a run has.

use tpcc_money::Moment;

/// How many terminals ask at most.
pub const MOST_TERMINALS: u32 = 999;

/// The greatest number of a terminal: the delivery runner's, behind as many terminals as there may be.
pub const GREATEST_TERMINAL: u32 = MOST_TERMINALS + 1;

/// How many threads serve at most.
pub const MOST_SERVERS: u32 = 16;

/// How many jobs a server may serve before it ends, where it is to end.
pub const GREATEST_RETIRE: u32 = 100_000;

/// How many requests a terminal asks at most.
pub const MOST_CARDS: u32 = 100_000;

/// Who makes the turns of a run.
#[derive(Clone, Copy)]
pub enum Service {
    /// Servers, to which the terminals post their jobs.
    Servers {
        /// How many threads serve, 1 to [`MOST_SERVERS`].
        count: u32,
        /// How many jobs a server but the first serves before it ends, up to [`GREATEST_RETIRE`]; 0 is without end.
        retire: u32,
    },
    /// Each terminal's own thread: there is neither mailbox nor server.
    Direct,
}

/// What a run is made of.
#[derive(Clone, Copy)]
pub struct Plan {
    /// How many terminals ask requests, 1 to [`MOST_TERMINALS`].
    pub terminals: u32,
    /// Who makes their turns.
    pub service: Service,
    /// How many requests each terminal asks, and how often the delivery runner asks for a delivery,
    /// 0 to [`MOST_CARDS`].
    pub cards: u32,
    /// From which the terminals draw their requests (2.1.6).
    pub seed: u64,
    /// When each request is asked, in seconds since 1970.
    pub moment: Moment,
}
