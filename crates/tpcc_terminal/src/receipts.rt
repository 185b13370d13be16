//! Receipts of accepted requests.
ghost use Rattle.std.specs.Prelude.{◌≡◌, ◌++◌, ◌<◌, ◌-◌, OnOk, OnErr, IfOk, vec_capacity, vec_len};
ghost use Rattle.tpcc_book.specs.Purses.{PurseView};
ghost use Rattle.tpcc_terminal.specs.Receipts.{receipts_of};

use std::alloc::Global;
use tpcc_book::{Answer, Naming, Purse};
use tpcc_rows::{NoMemory, Reply, Request};
use tpcc_turns::{SeatedPurse, Seating};

/// What a terminal keeps of an accepted request, to be settled with the journal at the end.
#[derive(Drop)]
pub struct Receipt {
    /// The terminal of the purse that was handed in.
    pub terminal: u32,
    /// How many entries that purse had made before.
    pub number: u64,
    /// The place of the entry in the journal, counted from 0.
    pub place: u64,
    /// The request that was served.
    pub request: Request,
    /// What it was answered.
    pub reply: Reply,
}

/// A purse, with a seat or without, tells its terminal and how many entries it has made.
pub trait NumberedPurse {
    /// What it is seen as without its seat.
    ghost held: { Self → PurseView };

    /// The terminal whose purse it is.
    fn terminal(&self) -> u32
        ensures terminal { result ≡ (held self.now).terminal };

    /// How many entries of the journal were made by it.
    fn entries(&self) -> u64
        ensures entries { result ≡ (held self.now).entries };
}

impl<N: Naming> NumberedPurse for Purse<N> {
    ghost held = { λ purse. purse };

    fn terminal(&self) -> u32 {
        Purse::terminal(self)
    }

    fn entries(&self) -> u64 {
        Purse::entries(self)
    }
}

impl<N: Naming, T: Seating> NumberedPurse for SeatedPurse<N, T> {
    ghost held = { λ seated. seated.purse };

    fn terminal(&self) -> u32 {
        SeatedPurse::terminal(self)
    }

    fn entries(&self) -> u64 {
        SeatedPurse::entries(self)
    }
}

/// Keeps the receipt of an accepted answer; of a refused one there is none. Refused only for want of
/// memory, with the receipts as they were.
pub(crate) fn keep<P: NumberedPurse>(
    receipts: &mut Vec<Receipt>,
    answer: &Answer<P>,
) -> Result<(), NoMemory>
    ensures kept { OnOk result
        (receipts.new.items ≡ receipts.old.items ++ receipts_of P.held answer.now) }
    ensures refused { OnErr result (receipts.new.items ≡ receipts.old.items) }
{
    let (Ok(reply), Some(place)) = (answer.outcome(), answer.place()) else {
        return Ok(());
    };
    receipts.reserve(1)?;
    let request = answer.request().duplicate()?;
    receipts.push_reserved(Receipt {
        terminal: answer.purse().terminal(),
        number: answer.purse().entries().saturating_sub(1),
        place,
        request,
        reply: *reply,
    });
    Ok(())
}
