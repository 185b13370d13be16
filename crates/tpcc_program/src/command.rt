//! A command: what the program is to do, with all that its words say.
ghost use Rattle.std.specs.Prelude.{◌≡◌, IfErr, IfOk};
ghost use Rattle.tpcc_program.specs.Internal.Scales.{HasNoScale, IsScaleOf};
ghost use Rattle.tpcc_program.specs.Openings.{named_opening, named_scale};

use crate::words::WordsFault;
use tpcc_money::Moment;
use tpcc_population::{Opening, Scale};
use tpcc_rows::Table;
use tpcc_run::Plan;
use tpcc_show::ShownParts;

/// Which requests are to be written.
#[derive(Clone, Copy)]
pub struct RequestsCommand {
    /// `--terminal`, 1 to [`GREATEST_TERMINAL`](tpcc_run::GREATEST_TERMINAL), else 1: the terminal
    /// whose requests they are.
    pub terminal: u32,
    /// `--cards`, at most [`MOST_CARDS`](tpcc_run::MOST_CARDS), else 23: how many.
    pub cards: u32,
}

/// What the program is to do.
#[derive(Clone, Copy)]
pub enum Task {
    /// Serve a script.
    Script,
    /// Write a table of the opening.
    Dump(Table),
    /// Run terminals and servers.
    Run(Plan),
    /// Write the requests of a terminal.
    Requests(RequestsCommand),
}

/// What the words ask.
#[derive(Clone, Copy)]
pub struct Command {
    /// What to do.
    pub task: Task,
    /// `--warehouses`, else 1. That there is such a scale is not promised, nor of the next two.
    pub warehouses: u32,
    /// `--customers`: of each district; else 10.
    pub customers: u32,
    /// `--items`, else 100.
    pub items: u32,
    /// `--seed`, else 1.
    pub seed: u64,
    /// `--moment`, in seconds since 1970, else 0.
    pub moment: Moment,
    /// Whether `--seeded` is among the words: else the opening is plain and has neither seed nor
    /// moment.
    pub seeded: bool,
    /// What each `--show` of a script or a run asks for, in their order; none where there is none.
    pub shows: ShownParts,
    /// `--time`: whether a script or a run tells how long it took.
    pub timed: bool,
}

impl Command {
    // The scale that the options name.
    pub(crate) fn scale(&self) -> Result<Scale, WordsFault>
        ensures named { IfOk result (IsScaleOf self.now) }
        ensures none { IfErr result (HasNoScale self.now) }
    {
        match Scale::new(self.warehouses, self.customers, self.items) {
            Ok(scale) => Ok(scale),
            Err(fault) => Err(WordsFault::Scale(fault)),
        }
    }

    // The opening that the options name, of their scale.
    pub(crate) fn opening(&self, scale: Scale) -> Opening
        requires scale { scale ≡ named_scale self.now }
        ensures named { result ≡ named_opening self.now }
    {
        if self.seeded {
            Opening::Seeded {
                scale,
                seed: self.seed,
                moment: self.moment,
            }
        } else {
            Opening::Plain { scale }
        }
    }
}
