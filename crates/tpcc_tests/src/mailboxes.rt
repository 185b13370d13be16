//! Mailboxes that are taken apart while a server is withheld. No clause refuses a body that calls every letter held then,
//! so these tests do.
pub mod numbers;

use crate::samples::requests::BEFORE;
use numbers::{HELD, NumberAnswer, Three, in_order, leaves, make_three, serve};
use std::alloc::Global;
use std::process::Abort;
use std::sync::atomic::{AtomicBool, Ordering};
use std::sync::{Arc, Wait};
use std::thread;
use std::time::{Clock, Duration};
use tpcc_mailbox::{Client, Taken};

#[test]
fn a_client_that_is_handed_in_alone_is_given_its_own(rt: HostRuntime) {
    let Three {
        boxes,
        one,
        two,
        three,
        mut serving,
    } = make_three(&rt, rt.alloc());
    let withheld = (boxes.post(one, 10), three);
    let two = boxes.post(two, 20);
    serve(&rt, &boxes, &mut serving, 0, 1);
    let mut clients = Vec::with_capacity(rt.alloc(), 1).expect(&rt, BEFORE);
    clients.push_reserved(Client::Waiting(two));
    leaves(&rt, boxes, clients, Vec::new(rt.alloc()), &[(20, 0)]);
    drop(withheld)
}

#[test]
fn a_server_withheld_with_an_empty_hand_holds_no_letter(rt: HostRuntime) {
    let Three {
        boxes,
        one,
        two,
        three,
        mut serving,
    } = make_three(&rt, rt.alloc());
    let mut withheld = serving.split(&boxes);
    let one = Client::Waiting(boxes.post(one, 10));
    let two = Client::Waiting(boxes.post(two, 20));
    let three = Client::Waiting(boxes.post(three, 30));
    serve(&rt, &boxes, &mut withheld, 1, 1);
    serve(&rt, &boxes, &mut serving, 2, 2);
    let clients = in_order(&rt, rt.alloc(), one, two, three);
    let expected = [(30, 2), (20, 1), (10, 0)];
    leaves(&rt, boxes, clients, Vec::new(rt.alloc()), &expected)
}

#[test]
fn a_server_withheld_with_a_letter_holds_that_one_alone(rt: HostRuntime) {
    let is_over = Arc::new(rt.alloc(), AtomicBool::new(false)).expect(&rt, BEFORE);
    let theirs = Arc::try_clone(&is_over).expect(&rt, BEFORE);
    let server = thread::spawn(&rt, move || one_is_held(&rt, rt.alloc(), &theirs));
    assert!(rt; server.is_ok());
    for _ in rt.forever() {
        if is_over.load(Ordering::SeqCst) {
            break;
        }
        thread::sleep(&rt, Duration::from_millis(1));
    }
}

/// A server takes a letter, and the mailboxes are taken apart without it.
fn one_is_held<R: Wait + Clock + Abort>(rt: &R, alloc: Global, is_over: &AtomicBool) {
    let Three {
        boxes,
        one,
        two,
        three,
        mut serving,
    } = make_three(rt, alloc);
    let mut withheld = serving.split(&boxes);
    let one = Client::Waiting(boxes.post(one, 10));
    let two = Client::Waiting(boxes.post(two, 20));
    let three = Client::Waiting(boxes.post(three, 30));
    let Some((taken, _)) = boxes.take(&mut withheld, 1) else {
        panic!(rt; "a letter was posted")
    };
    serve(rt, &boxes, &mut serving, 2, 2);
    let clients = in_order(rt, alloc, one, two, three);
    leaves(
        rt,
        boxes,
        clients,
        Vec::new(alloc),
        &[(30, 2), HELD, (10, 0)],
    );
    is_over.store(true, Ordering::SeqCst);
    keep(rt, taken)
}

/// Keeps a letter until the tests end: a `Taken` can't be let go.
fn keep<R: Wait + Clock>(rt: &R, taken: Taken<u64, NumberAnswer>) {
    let _taken = taken;
    for _ in rt.forever() {
        thread::sleep(rt, Duration::from_millis(100));
    }
    unreachable!()
}
