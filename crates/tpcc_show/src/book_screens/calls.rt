//! The screens of what a book holds.
ghost use Rattle.std.specs.Prelude.{◌≡◌, IfOk};
ghost use Rattle.tpcc_rows.specs.Conditions.{first_broken};
ghost use Rattle.tpcc_rows.specs.Replay.{results_of};
ghost use Rattle.tpcc_text.specs.Screens as screens;

use std::alloc::Global;
use tpcc_conditions::check;
use tpcc_journal::{Journal, results};
use tpcc_rows::NoMemory;
use tpcc_tables::Tables;
use tpcc_text::{Screen, broken_screen, consistent_screen};

/// The screen of the consistency conditions (3.3.2). Refused only for want of memory.
pub fn check_screen(alloc: Global, tables: &Tables) -> Result<Screen, NoMemory>
    ensures shown { IfOk result (λ s. s ≡ screens.check_screen (first_broken tables.now.rows)) }
{
    match check(tables) {
        Ok(()) => consistent_screen(alloc),
        Err(broken) => broken_screen(
            alloc,
            broken.condition,
            broken.warehouse,
            broken.district,
            broken.number,
        ),
    }
}

/// The screens of the delivery result log (2.7.2.2). Refused only for want of memory.
pub fn results_screen(alloc: Global, journal: &Journal) -> Result<Screen, NoMemory>
    ensures shown { IfOk result (λ s. s ≡ screens.results_screen (results_of journal.now.entries)) }
{
    let log = results(alloc, journal)?;
    tpcc_text::results_screen(alloc, log.as_slice())
}
