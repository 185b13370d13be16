//! The delivery result log (2.7.2.2).
ghost use Rattle.std.specs.Prelude.{◌≡◌, ◌++◌, ◌∷◌, [], Some, IfOk, OnOk, length};
ghost use Rattle.std.specs.Option.{option_to_list};
ghost use Rattle.tpcc_journal.specs.Internal.Kept.{run_at};
ghost use Rattle.tpcc_rows.specs.Replay.{district_delivery, district_deliveries, results_of, whole_ticket};

use crate::journal::Journal;
use std::alloc::Global;
use tpcc_rows::{Delivered, Delivery, DistrictDelivery, NoMemory, Reply};

/// The run that a reply tells of, if it is of one and delivered or skipped a district.
fn district_delivery(reply: &Reply) -> Option<DistrictDelivery>
    ensures { result ≡ district_delivery reply.now }
{
    match reply {
        Reply::Delivery(Delivery::District(delivery)) => Some(*delivery),
        _ => None,
    }
}

fn add_run(runs: &mut Vec<DistrictDelivery>, run: Option<DistrictDelivery>) -> Result<(), NoMemory>
    ensures { OnOk result (runs.new.items ≡ runs.old.items ++ option_to_list run) }
{
    let Some(run) = run else {
        return Ok(());
    };
    runs.push(run)?;
    Ok(())
}

fn add_line(lines: &mut Vec<Delivered>, line: Delivered) -> Result<(), NoMemory>
    ensures { OnOk result (lines.new.items ≡ lines.old.items ++ line ∷ []) }
{
    lines.push(line)?;
    Ok(())
}

/// The run of the entry at a place, if it is one and delivered or skipped a district.
fn run_at(journal: &Journal, place: usize) -> Option<DistrictDelivery>
    ensures { result ≡ run_at journal.now.entries place }
{
    match journal.entry(place) {
        Some(entry) => district_delivery(&entry.reply),
        None => None,
    }
}

fn district_deliveries(alloc: Global, journal: &Journal) -> Result<Vec<DistrictDelivery>, NoMemory>
    ensures { IfOk result (λ v. v.items ≡ district_deliveries journal.now.entries) }
{
    let mut runs = Vec::new(alloc);
    for place in 0..journal.len() {
        add_run(&mut runs, run_at(journal, place))?;
    }
    Ok(runs)
}

/// The ten runs of a ticket as one line of the log: the ticket and the moment are the tenth's.
fn whole_ticket(runs: &[DistrictDelivery]) -> Delivered
    requires { length runs.now ≡ 10 }
    ensures { Some result ≡ whole_ticket runs.now }
{
    Delivered {
        ticket: runs[9].ticket,
        at: runs[9].at,
        orders: [
            runs[0].order,
            runs[1].order,
            runs[2].order,
            runs[3].order,
            runs[4].order,
            runs[5].order,
            runs[6].order,
            runs[7].order,
            runs[8].order,
            runs[9].order,
        ],
    }
}

/// The runs of whole tickets, in order: one for each full ten of the journal's district
/// deliveries. Runs of a ticket that is not whole yet are left out. Refuses for want of memory alone.
pub fn results(alloc: Global, journal: &Journal) -> Result<Vec<Delivered>, NoMemory>
    ensures log { IfOk result (λ v. v.items ≡ results_of journal.now.entries) }
{
    let runs = district_deliveries(alloc, journal)?;
    let runs = runs.as_slice();
    let mut lines = Vec::new(alloc);
    for ten in 0..runs.len() / 10 {
        add_line(&mut lines, whole_ticket(&runs[10 * ten..10 * ten + 10]))?;
    }
    Ok(lines)
}
