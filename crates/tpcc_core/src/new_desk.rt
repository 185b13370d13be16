//! The seats and servers that a desk starts with.
ghost use Rattle.std.specs.Prelude.{◌≡◌, ◌≤◌, ◌-◌, pos, IfOk, OnOk};
ghost use Rattle.tpcc_book.specs.Purses.{first_purse, most_purses};
ghost use Rattle.tpcc_core.specs.OpeningDesk.{seats_of, hands_of};

use crate::seat::DeskTerminal;
use crate::server::Server;
use std::alloc::Global;
use tpcc_book::{Naming, Purse};
use tpcc_rows::NoMemory;

// A free seat for each terminal, with a purse that is split off the first.
pub(crate) fn make_seats<N: Naming>(
    alloc: Global,
    first: &mut Purse<N>,
    terminals: u32,
) -> Result<Vec<DeskTerminal<Purse<N>>>, NoMemory>
    requires first { first.old ≡ first_purse }
    requires terminals { terminals ≤ most_purses }
    ensures seats { IfOk result (λ seats. seats.items ≡ seats_of terminals) }
    ensures first { OnOk result (first.new
        ≡ record { terminal = 0; entries = 0; paid = pos 0; room = most_purses - terminals }) }
{
    let mut seats = Vec::with_capacity(alloc, terminals as usize)?;
    for k in 0..terminals {
        seats.push_reserved(DeskTerminal::new(alloc, first.split(k + 1)));
    }
    Ok(seats)
}

// An empty hand for each server.
pub(crate) fn make_servers<P: Drop>(alloc: Global, servers: u32) -> Result<Vec<Server<P>>, NoMemory>
    ensures servers { IfOk result (λ hands. hands.items ≡ hands_of servers) }
{
    let mut hands = Vec::with_capacity(alloc, servers as usize)?;
    for k in 0..servers {
        hands.push_reserved(Server::new());
    }
    Ok(hands)
}
