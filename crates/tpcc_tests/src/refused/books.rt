//! Requests at a book that are served again where they were refused memory: one of each kind, and a terminal's receipts.
use super::terminals::make_terminal;
use crate::books::{AtBook, at_book, serve};
use crate::samples::requests::{BEFORE, balance, let_go, payment, purse_of, requests};
use std::alloc::{AllocGlobal, Global};
use std::process::Abort;
use tpcc_book::{Answer, Book, Naming, Purse};
use tpcc_conditions::check;
use tpcc_journal::results;
use tpcc_money::Cents;
use tpcc_show::screen;
use tpcc_terminal::{Receipt, Terminal};

#[test]
fn a_book_serves_each_kind_of_request(rt: HostRuntime) {
    assert!(rt;
        at_book(&rt, rt.alloc(), EachKind).is_ok() || at_book(&rt, rt.alloc(), EachKind).is_ok()
    );
}

/// One request of each kind makes six entries, keeps the conditions, and has a screen; the log can be had.
#[derive(Drop)]
struct EachKind;

impl AtBook for EachKind {
    fn happens<N: Naming, R: Abort + AllocGlobal>(
        self,
        rt: &R,
        alloc: Global,
        book: &mut Book<N>,
        one: Purse<N>,
        _two: Purse<N>,
    ) {
        let entries = serve_all(rt, alloc, book, one);
        assert!(rt; entries == 6 && book.journal().len() == 6 && check(book.tables()).is_ok());
        assert!(rt; has_log(alloc, book) || has_log(alloc, book));
    }
}

/// The entries of the purse behind one request of each kind.
fn serve_all<N: Naming, R: Abort + AllocGlobal>(
    rt: &R,
    alloc: Global,
    book: &mut Book<N>,
    purse: Purse<N>,
) -> u64 {
    let mut purse = purse;
    for request in requests(rt) {
        purse = show(rt, alloc, serve(rt, book, request, purse));
    }
    purse.entries()
}

/// Whether there is memory for the delivery result log.
fn has_log<N: Naming>(alloc: Global, book: &Book<N>) -> bool {
    results(alloc, book.journal()).is_ok()
}

/// The purse of an accepted answer, whose screen can be had.
fn show<P, R: Abort>(rt: &R, alloc: Global, answer: Answer<P>) -> P {
    assert!(rt; answer.outcome().is_ok());
    assert!(rt; screen(alloc, &answer).is_ok() || screen(alloc, &answer).is_ok());
    purse_of(answer)
}

#[test]
fn a_terminal_keeps_the_receipts_of_its_journaled_answers(rt: HostRuntime) {
    at_book(&rt, rt.alloc(), TwoReceipts).expect(&rt, BEFORE)
}

/// The receipts of 1.00 and 2.00 by terminal 5, with the balances -11.00 and -13.00 behind them: the second of three
/// payments is refused.
#[derive(Drop)]
struct TwoReceipts;

impl AtBook for TwoReceipts {
    fn happens<N: Naming, R: Abort + AllocGlobal>(
        self,
        rt: &R,
        alloc: Global,
        book: &mut Book<N>,
        one: Purse<N>,
        _two: Purse<N>,
    ) {
        let mut terminal = make_terminal(rt, alloc);
        pay_three(rt, book, &mut terminal, one);
        let receipts = terminal.receipts();
        assert!(rt; are_both(receipts.as_slice()));
        let_go(receipts)
    }
}

/// Payments of 1.00, 0.99 and 2.00, each noted by the terminal.
fn pay_three<N: Naming, R: Abort>(
    rt: &R,
    book: &mut Book<N>,
    terminal: &mut Terminal,
    purse: Purse<N>,
) {
    let mut purse = purse;
    for cents in [100, 99, 200] {
        let answer = serve(rt, book, payment(cents), purse);
        assert!(rt; terminal.note(&answer).is_ok() || terminal.note(&answer).is_ok());
        purse = purse_of(answer);
    }
}

fn are_both(receipts: &[Receipt]) -> bool {
    match receipts {
        [one, two] => is_receipt(one, 0, 100, -1100) && is_receipt(two, 1, 200, -1300),
        _ => false,
    }
}

/// The receipt of a payment by terminal 5, whose number and place are the same.
fn is_receipt(receipt: &Receipt, number: u64, cents: i64, left: i64) -> bool {
    (receipt.terminal, receipt.number, receipt.place) == (5, number, number)
        && receipt.request == payment(cents)
        && balance(&receipt.reply) == Some(Cents::new(left))
}
