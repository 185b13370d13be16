//! What the threads of a run promise of what they give back.
ghost use Rattle.std.specs.Prelude.{◌≡◌};
ghost use Rattle.tpcc_turns.specs.Seats.{keeper_of};
ghost use Rattle.tpcc_run.specs.Internal.Working.{HasComeBack};

use crate::plan::Plan;
use crate::threads::duty::Duty;
use crate::threads::operator_work::OperatorBack;
use std::snapshot::Snapshot;
use std::thread::{Promise, PromisedHandle};
use tpcc_book::Naming;
use tpcc_population::Scale;
use tpcc_turns::{SeatedPurse, Seating};

/// Where nothing stopped it, the terminal that comes back was one of this scale and of the plan's seed, began with an empty
/// purse, and has asked all that its duty asks of the plan's cards, each by one turn of the book.
#[derive(Clone, Copy)]
pub(crate) struct ComesBack {
    /// Whether it asks its cards or deliveries.
    pub duty: Duty,
    /// The scale of the run's opening.
    pub scale: Scale,
    /// The run's plan: the seed of its draws, the moment of each of its requests, and how many cards it has to ask.
    pub plan: Plan,
    /// Its number, and its purse's.
    pub number: u32,
}

impl<'s, N: Naming, T: Seating, C> Promise<OperatorBack<'s, N, T, C>> for ComesBack {
    ghost kept_by = { λ promise back. HasComeBack promise back };
}

pub(crate) type TerminalHandle<'s, N, T, C> = PromisedHandle<OperatorBack<'s, N, T, C>, ComesBack>;

/// The server's purse comes back as one that made no entry and paid nothing since.
#[derive(Drop)]
pub(crate) struct KeepsPurse<N: Naming, T: Seating> {
    /// The purse that the server was given.
    pub purse: Snapshot<SeatedPurse<N, T>>,
}

impl<N: Naming, T: Seating> Promise<SeatedPurse<N, T>> for KeepsPurse<N, T> {
    ghost kept_by = { λ promise purse. keeper_of purse ≡ keeper_of promise.purse.value };
}

/// The thread of a server, which gives the server's purse back.
pub(crate) type ServerHandle<N, T> = PromisedHandle<SeatedPurse<N, T>, KeepsPurse<N, T>>;
