//! How many bytes the rows, requests, replies and entries take: a table in docs/architecture.md.
//!
//! Fields lie in the order of the source, each at a multiple of its alignment, and the whole is
//! made a multiple of the greatest alignment within. `u32` and `Moment` take 4 bytes, `Cents` and
//! `u64` 8, `Rate` 2; `Text<N>` its N bytes and 2 for the length, made even; `Few` its places and 2
//! for the length. An enum's tag is a byte before the fields of each case: an `Option` of what
//! takes 4 bytes takes 8. The sums are worked out by hand; each size is its sum but for the end's
//! padding, so that no other order of the fields is smaller.
use std::mem::size_of;
use std::process::Abort;
use tpcc_rows::{
    AcceptedOrder, Address, CustomerRow, Delivered, Delivery, DistrictRow, EnteredLine,
    EnteredLines, Entry, HistoryRow, ItemRow, NewOrderRow, OrderLineRow, OrderRow, Paid, Payment,
    Reply, Request, RolledBackOrder, Row, Status, StatusLine, StatusLines, StockRow, Text,
    WarehouseRow,
};

/// In each pair the size in bytes is the expected one.
fn are_as_expected(rt: &impl Abort, sizes: &[(usize, usize)]) {
    for (size, expected) in sizes {
        assert!(rt; size == expected, "{size} is not {expected}");
    }
}

const ROWS: [(usize, usize); 12] = [
    (size_of::<Text<24>>(), 24 + 2),
    // Three texts of 20 bytes, one of 2 and one of 9, which is made even.
    (size_of::<Address>(), 3 * 22 + 4 + 12),
    // W_ID, W_NAME, the address, W_TAX, W_YTD: 108, made a multiple of 8.
    (size_of::<WarehouseRow>(), 4 + 12 + 82 + 2 + 8 + 4),
    // Three numbers, D_NAME, the address, D_TAX, D_YTD: 116.
    (size_of::<DistrictRow>(), 3 * 4 + 12 + 82 + 2 + 8 + 4),
    // Five numbers, C_SINCE, the names, the address, C_PHONE, C_CREDIT, three amounts, C_DISCOUNT, C_DATA.
    (
        size_of::<CustomerRow>(),
        5 * 4 + 4 + (18 + 4 + 18) + 82 + 18 + 4 + 3 * 8 + 2 + 502,
    ),
    // Five numbers, H_DATE, H_AMOUNT, H_DATA: 58.
    (size_of::<HistoryRow>(), 5 * 4 + 4 + 8 + 26 + 6),
    // Five numbers, O_ENTRY_D, O_CARRIER_ID, O_ALL_LOCAL: 33, made a multiple of 4.
    (size_of::<OrderRow>(), 5 * 4 + 4 + 8 + 1 + 3),
    // Seven numbers, OL_DELIVERY_D, OL_AMOUNT, OL_DIST_INFO: 70.
    (size_of::<OrderLineRow>(), 7 * 4 + 8 + 8 + 26 + 2),
    (size_of::<NewOrderRow>(), 3 * 4),
    // Two numbers, I_PRICE, I_NAME, I_DATA: 94.
    (size_of::<ItemRow>(), 2 * 4 + 8 + 26 + 52 + 2),
    // Six numbers, S_DIST_01 to S_DIST_10, S_DATA.
    (size_of::<StockRow>(), 6 * 4 + 10 * 26 + 52),
    // A CUSTOMER row after its tag.
    (size_of::<Row>(), 8 + 696),
];

/// What is prepared goes from the first half of a transaction to the second; of a payment it is a key of three numbers.
const REQUESTS: [(usize, usize); 4] = [
    // Four numbers, who pays, H_DATE, H_AMOUNT.
    (size_of::<Payment>(), 4 * 4 + 20 + 4 + 8),
    (size_of::<Request>(), 8 + 48),
    (size_of::<tpcc_new_order::PreparedOrder>(), 1),
    (size_of::<tpcc_payment::PreparedPayment>(), 3 * 4),
];

const REPLIES: [(usize, usize); 12] = [
    // Five numbers, two amounts, I_NAME, the brand: 63.
    (size_of::<EnteredLine>(), 5 * 4 + 2 * 8 + 26 + 1 + 1),
    // Fifteen lines and their number: 962.
    (size_of::<EnteredLines>(), 15 * 64 + 2 + 6),
    // Five numbers, the moment, C_LAST, C_CREDIT, three rates, the total, the lines: 1,028.
    (
        size_of::<AcceptedOrder>(),
        5 * 4 + 4 + 18 + 4 + 3 * 2 + 8 + 968 + 4,
    ),
    // Four numbers, C_LAST, C_CREDIT: 38.
    (size_of::<RolledBackOrder>(), 4 * 4 + 18 + 4 + 2),
    // Five numbers, two moments, three amounts, three addresses, the names, C_PHONE, C_CREDIT,
    // C_DISCOUNT, C_DATA after its tag: 566.
    (
        size_of::<Paid>(),
        5 * 4 + 2 * 4 + 3 * 8 + 3 * 82 + (18 + 4 + 18) + 18 + 4 + 2 + (2 + 202) + 2,
    ),
    // Three numbers, OL_DELIVERY_D, OL_AMOUNT: 28.
    (size_of::<StatusLine>(), 3 * 4 + 8 + 8 + 4),
    (size_of::<StatusLines>(), 15 * 32 + 2 + 6),
    // Three numbers, the names, C_BALANCE, and the last order after its tag: O_ID, O_ENTRY_D,
    // O_CARRIER_ID and the lines. 572.
    (
        size_of::<Status>(),
        3 * 4 + (18 + 4 + 18) + 8 + (8 + (4 + 4 + 8 + 488)) + 4,
    ),
    // A ticket's three numbers, the moment, the district and the order, after a tag.
    (size_of::<Delivery>(), 4 + (12 + 4 + 4 + 8)),
    (size_of::<Delivered>(), 12 + 4 + 10 * 8),
    // An accepted order after its tag and that of what became of the order.
    (size_of::<Reply>(), 8 + 8 + 1032),
    // The terminal, padded to the number's alignment, and the number, request and reply.
    (size_of::<Entry>(), 4 + 4 + 8 + 56 + 1048),
];

#[test]
fn rows_requests_replies_and_entries_have_their_sizes(rt: HostRuntime) {
    are_as_expected(&rt, &ROWS);
    are_as_expected(&rt, &REQUESTS);
    are_as_expected(&rt, &REPLIES);
}
