//! All that clients and servers know, put into one seat, by which the table can be closed.
ghost use Rattle.std.specs.Prelude.{◌≡◌, ℕ, ◌+◌, ◌<◌, ◌≤◌, [], ◌∷◌, ◌++◌, map, reverse, vec_len, vec_capacity};
ghost use mathlib.Core.Option.{some};
ghost use lib.ListN.{get_elem?};
ghost use Rattle.tpcc_mailbox.specs.Tokens.{client_origin, client_mailbox};
ghost use Rattle.tpcc_mailbox.specs.Internal.Roles.{client_role, server_role, AreClientsOf, AreServersOf};
ghost use Rattle.tpcc_mailbox.specs.Internal.Steps.{MayReturn};

use crate::letters::answers::Answers;
use crate::table::{MailboxSeat, SharedTable};
use crate::tokens::{Client, Idle, Serving, Waiting};
use crate::words::plays::{Gathering, Returning};

// A list is taken from its end, so it is turned round first.
fn backwards<T>(mut items: Vec<T>) -> Vec<T>
    ensures items { result.items ≡ reverse items.items }
    ensures len { vec_len result ≡ vec_len items }
{
    items.as_mut_slice().reverse();
    items
}

// Joins a seat into `all`. A seat that is joined holds no slot, so it gives its own back first: by a load, of a
// word that nobody uses.
fn gather_seat<J, A: Answers<J>>(
    shared: &SharedTable<J, A>,
    all: &mut MailboxSeat<J, A>,
    mut seat: MailboxSeat<J, A>,
)
    requires own { (seat.table_id ≡ shared.now.table_id)
        × (all.old.table_id ≡ shared.now.table_id) }
    requires words { 0 < shared.now.table_id.words }
    requires gives { MayReturn (λ j a. A.fits (A.label j) a) shared.now.table_id.slots seat }
    ensures seat { (all.new.table_id ≡ all.old.table_id)
        × (all.new.id ≡ all.old.id)
        × (all.new.me.1 ≡ all.old.me.1) }
    ensures roles { all.new.me.0.roles ≡ all.old.me.0.roles ++ seat.me.0.roles }
{
    shared.load::<Returning>(&mut seat, 0);
    shared.join_seat::<Gathering>(all, seat);
}

// Joins one client's seat into `all`, and tells its mailbox.
fn gather_client<J, A: Answers<J> + Drop>(
    shared: &SharedTable<J, A>,
    count: usize,
    all: &mut MailboxSeat<J, A>,
    client: Client<J, A>,
) -> usize
    requires own { (client_origin client ≡ shared.now.table_id)
        × (all.old.table_id ≡ shared.now.table_id) }
    requires count { (count ≡ shared.now.table_id.slots) × (count < shared.now.table_id.words) }
    ensures seat { (all.new.table_id ≡ all.old.table_id)
        × (all.new.id ≡ all.old.id)
        × (all.new.me.1 ≡ all.old.me.1) }
    ensures roles { all.new.me.0.roles ≡ all.old.me.0.roles ++ client_role client ∷ [] }
    ensures mailbox { (result ≡ client_mailbox client) × (result < count) }
{
    match client {
        Client::Idle(idle) => {
            let Idle {
                seat,
                mailbox,
                room: _,
            } = idle;
            gather_seat(shared, all, seat);
            mailbox
        }
        Client::Waiting(waiting) => {
            let Waiting {
                seat,
                mailbox,
                letter: _,
            } = waiting;
            gather_seat(shared, all, seat);
            mailbox
        }
    }
}

/// Joins the clients' seats into `all`, and puts the numbers of their mailboxes into `places`, in order.
pub(crate) fn gather_clients<J, A: Answers<J> + Drop>(
    shared: &SharedTable<J, A>,
    count: usize,
    all: &mut MailboxSeat<J, A>,
    clients: Vec<Client<J, A>>,
    places: &mut Vec<usize>,
)
    requires own { AreClientsOf shared.now.table_id clients.items
        × (all.old.table_id ≡ shared.now.table_id) }
    requires count { (count ≡ shared.now.table_id.slots) × (count < shared.now.table_id.words) }
    requires room { (vec_len places.old ≡ 0) × (vec_len clients ≤ vec_capacity places.old) }
    ensures seat { (all.new.table_id ≡ all.old.table_id)
        × (all.new.id ≡ all.old.id)
        × (all.new.me.1 ≡ all.old.me.1) }
    ensures roles { all.new.me.0.roles ≡ all.old.me.0.roles ++ map client_role clients.items }
    ensures places { places.new.items ≡ map client_mailbox clients.items }
    ensures within { (k : ℕ) (x : ℕ) → get_elem? places.new.items k ≡ some x → x < count }
{
    let mut clients = backwards(clients);
    while let Some(client) = clients.pop() {
        let mailbox = gather_client(shared, count, all, client);
        places.push_reserved(mailbox);
    }
}

/// Joins the servers' seats into `all`.
pub(crate) fn gather_servings<J, A: Answers<J>>(
    shared: &SharedTable<J, A>,
    all: &mut MailboxSeat<J, A>,
    servings: Vec<Serving<J, A>>,
)
    requires own { AreServersOf shared.now.table_id servings.items
        × (all.old.table_id ≡ shared.now.table_id) }
    requires words { 0 < shared.now.table_id.words }
    ensures seat { (all.new.table_id ≡ all.old.table_id)
        × (all.new.id ≡ all.old.id)
        × (all.new.me.1 ≡ all.old.me.1) }
    ensures roles { all.new.me.0.roles ≡ all.old.me.0.roles ++ map server_role servings.items }
{
    let mut servings = backwards(servings);
    while let Some(serving) = servings.pop() {
        let Serving { seat } = serving;
        gather_seat(shared, all, seat);
    }
}
