//! A terminal of a desk that posts again where it was refused memory.
use crate::desk::{AtDesk, at_desk, payment_at};
use std::alloc::Global;
use std::process::Abort;
use tpcc_book::Naming;
use tpcc_core::{CoreFault, Desk};

#[test]
fn a_terminal_of_a_desk_posts(rt: HostRuntime) {
    assert!(rt;
        at_desk(&rt, rt.alloc(), 2, OnePost).is_ok() || at_desk(&rt, rt.alloc(), 2, OnePost).is_ok()
    );
}

/// A post that is refused memory leaves the purse at its terminal, and can be made again.
#[derive(Drop)]
struct OnePost;

impl AtDesk for OnePost {
    fn happens<N: Naming, R: Abort>(self, rt: &R, _alloc: Global, desk: &mut Desk<N>) {
        if let Err(fault) = desk.step(payment_at(1)) {
            assert!(rt; fault == CoreFault::NoMemory && desk.purse(1).is_some());
            assert!(rt; desk.step(payment_at(1)).is_ok());
        }
        assert!(rt; desk.purse(1).is_none());
    }
}
