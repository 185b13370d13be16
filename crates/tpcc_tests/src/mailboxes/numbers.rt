//! Three mailboxes of numbers: how they are made and served, and what is left in them. Where memory is refused all comes back
//! as it was handed in, and is taken apart then.
ghost use Rattle.std.specs.Prelude.{◌≡◌, All, None};
ghost use Rattle.tpcc_mailbox.specs.Tokens.{identity, idle_origin, client_origin, serving_origin, serving_hand};

use crate::samples::requests::BEFORE;
use std::alloc::Global;
use std::process::Abort;
use tpcc_mailbox::{Answers, Client, Idle, Kept, Left, Mailboxes, Serving};

/// The answer of a number names the number and the server that answered it.
#[derive(Drop)]
pub struct NumberAnswer {
    pub letter: u64,
    pub server: u64,
}

impl Answers<u64> for NumberAnswer {
    type Label = u64;

    ghost label = { λ j. j };

    ghost fits = { λ j a. a.letter ≡ j };

    ghost use Rattle.std.specs.Prelude.{◌≡◌};
}

/// Three mailboxes, with their clients and a server.
#[derive(Drop)]
pub struct Three {
    pub boxes: Mailboxes<u64, NumberAnswer>,
    pub one: Idle<u64, NumberAnswer>,
    pub two: Idle<u64, NumberAnswer>,
    pub three: Idle<u64, NumberAnswer>,
    pub serving: Serving<u64, NumberAnswer>,
    pub ghost origin: { (idle_origin one ≡ identity boxes)
        × (idle_origin two ≡ identity boxes)
        × (idle_origin three ≡ identity boxes)
        × (serving_origin serving ≡ identity boxes) },
    pub ghost hand: { serving_hand serving ≡ None },
}

/// Made again where memory was refused.
pub fn make_three<R: Abort>(rt: &R, alloc: Global) -> Three {
    let made = match Mailboxes::<u64, NumberAnswer>::new(alloc, 3) {
        Ok(made) => made,
        Err(_) => Mailboxes::<u64, NumberAnswer>::new(alloc, 3).expect(rt, "three mailboxes"),
    };
    let (boxes, mut idles, serving) = made;
    let three = idles.pop().unwrap();
    let two = idles.pop().unwrap();
    let one = idles.pop().unwrap();
    Three {
        boxes,
        one,
        two,
        three,
        serving,
    }
}

/// Three clients in this order.
pub fn in_order<R: Abort>(
    rt: &R,
    alloc: Global,
    first: Client<u64, NumberAnswer>,
    second: Client<u64, NumberAnswer>,
    third: Client<u64, NumberAnswer>,
) -> Vec<Client<u64, NumberAnswer>>
    requires { (client_origin second ≡ client_origin first)
        × (client_origin third ≡ client_origin first) }
    ensures { All (λ x. client_origin x ≡ client_origin first) result.items }
{
    let mut clients = Vec::with_capacity(alloc, 3).expect(rt, BEFORE);
    clients.push_reserved(first);
    clients.push_reserved(second);
    clients.push_reserved(third);
    clients
}

/// A server takes the letter of a mailbox and answers it.
pub fn serve<R: Abort>(
    rt: &R,
    boxes: &Mailboxes<u64, NumberAnswer>,
    serving: &mut Serving<u64, NumberAnswer>,
    k: usize,
    server: u64,
)
    requires { (serving_origin serving.old ≡ identity boxes.now)
        × (serving_hand serving.old ≡ None) }
    ensures { (serving_origin serving.new ≡ serving_origin serving.old)
        × (serving_hand serving.new ≡ None) }
{
    let Some((taken, letter)) = boxes.take(serving, k) else {
        panic!(rt; "a letter was posted")
    };
    boxes.answer(serving, taken, NumberAnswer { letter, server });
}

/// No letter is 0, and no server.
pub const NOTHING: (u64, u64) = (0, 0);

/// That a letter is held.
pub const HELD: (u64, u64) = (0, 9);

/// The letter, and the server of its answer.
fn value_of(left: Left<u64, NumberAnswer>) -> (u64, u64) {
    match left {
        Left::Nothing => NOTHING,
        Left::Letter(letter) => (letter, 0),
        Left::Reply(NumberAnswer { letter, server }) => (letter, server),
        Left::Held => HELD,
    }
}

/// Asserts what is left for each client, from the last one to the first.
fn are_left<R: Abort>(rt: &R, lefts: Vec<Left<u64, NumberAnswer>>, expected: &[(u64, u64)]) {
    let mut lefts = lefts;
    for wanted in expected {
        let left = lefts.pop().expect(rt, "one for each client");
        assert!(rt; value_of(left) == *wanted);
    }
    assert!(rt; lefts.is_empty());
}

/// Takes the mailboxes apart, and asserts what is left.
pub fn leaves<R: Abort>(
    rt: &R,
    boxes: Mailboxes<u64, NumberAnswer>,
    clients: Vec<Client<u64, NumberAnswer>>,
    servings: Vec<Serving<u64, NumberAnswer>>,
    expected: &[(u64, u64)],
)
    requires clients { All (λ x. client_origin x ≡ identity boxes) clients.items }
    requires servings { All (λ x. serving_origin x ≡ identity boxes) servings.items }
{
    match boxes.reclaim(clients, servings) {
        Ok(lefts) => are_left(rt, lefts, expected),
        Err(
            Kept {
                mailboxes,
                clients,
                servings,
            },
        ) => {
            let reclaimed = mailboxes.reclaim(clients, servings).ok();
            are_left(rt, reclaimed.expect(rt, "what is left"), expected)
        }
    }
}
