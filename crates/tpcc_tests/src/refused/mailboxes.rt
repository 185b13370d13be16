//! Mailboxes that are made and taken apart again where memory was refused.
use crate::mailboxes::numbers::{NOTHING, Three, in_order, leaves, make_three, serve};
use std::alloc::Global;
use std::process::Abort;
use tpcc_mailbox::Client;

#[test]
fn letters_and_answers_come_back_with_no_server_handed_in(rt: HostRuntime) {
    come_back(&rt, rt.alloc())
}

/// Of three clients one has an answer, one a letter, and one nothing.
fn come_back(rt: &impl Abort, alloc: Global) {
    let Three {
        boxes,
        one,
        two,
        three,
        mut serving,
    } = make_three(rt, alloc);
    let one = Client::Waiting(boxes.post(one, 10));
    let two = Client::Waiting(boxes.post(two, 20));
    serve(rt, &boxes, &mut serving, 0, 1);
    let clients = in_order(rt, alloc, two, Client::Idle(three), one);
    let expected = [(10, 1), NOTHING, (20, 0)];
    leaves(rt, boxes, clients, Vec::new(alloc), &expected)
}
