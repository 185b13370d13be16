//! What a run is lent.
ghost use Rattle.tpcc_run.specs.Plans.{IsPlan};
ghost use Rattle.tpcc_run.specs.Internal.Plans.{plan_once};

use crate::plan::Plan;
use std::alloc::Global;

/// What whoever asks for a run lends it.
#[derive(Drop)]
pub(crate) struct RunContext<'r, F, R> {
    /// Threads, clock and waiting.
    pub rt: &'r R,
    /// Where the run takes memory.
    pub alloc: Global,
    /// Makes the call of each request.
    pub make: &'r F,
    /// How many terminals, servers and cards, and from which seed.
    pub plan: Plan,
    /// The plan is in its ranges.
    pub ghost planned: { IsPlan plan } by { plan_once plan },
}
