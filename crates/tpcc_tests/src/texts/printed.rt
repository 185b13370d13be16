//! Values as they are printed, with ample memory.
use std::alloc::AllocGlobal;
use std::fmt::Display;
use std::process::Abort;
use tpcc_audit::report;
use tpcc_money::{AmountFault, Cents, Moment, Rate};
use tpcc_rows::{Field, Refusal, TextFault};
use tpcc_text::Report;

/// The value's text is this one.
fn is_printed(rt: &(impl Abort + AllocGlobal), value: impl Display + Drop, expected: &str) {
    let text = value.to_string(rt.alloc()).expect(rt, "memory for a text");
    assert!(rt; text.as_str() == expected, "{expected}");
}

/// Each value's text is the one beside it.
fn are_printed<T: Display + Copy + Drop>(rt: &(impl Abort + AllocGlobal), values: &[(T, &str)]) {
    for (value, expected) in values {
        is_printed(rt, *value, expected);
    }
}

#[test]
fn amounts_and_rates_print_their_decimals(rt: HostRuntime) {
    let amounts = [
        (Cents::new(5), "0.05"),
        (Cents::new(-5), "-0.05"),
        (Cents::new(i64::MIN), "-92233720368547758.08"),
    ];
    are_printed(&rt, &amounts);
    are_printed(
        &rt,
        &[(Rate::new(1), "0.0001"), (Rate::new(9999), "0.9999")],
    );
}

#[test]
fn faults_print_their_names(rt: HostRuntime) {
    are_printed(
        &rt,
        &[(AmountFault::Shape, "Shape"), (AmountFault::Range, "Range")],
    );
    are_printed(&rt, &[(TextFault::TooLong, "TooLong")]);
}

#[test]
fn a_moment_is_a_date_and_a_time(rt: HostRuntime) {
    let leap_day = Moment::new(951_782_400).text(rt.alloc());
    assert!(rt; leap_day.is_ok_and(|text| text.as_slice() == b"2000-02-29T00:00:00".as_slice()));
}

#[test]
fn a_report_is_three_lines(rt: HostRuntime) {
    let totals = Report {
        entries: 3,
        paid: Cents::new(350),
        rise: Cents::new(350),
    };
    let written = report(&totals, Vec::new(rt.alloc()));
    assert!(rt;
        written.is_ok_and(|text| text.as_slice() == b"entries 3\npaid 3.50\nrise 3.50\n".as_slice())
    );
}

// Those of docs/formats.md and of docs/model.md.
#[test]
fn each_field_and_each_refusal_prints_its_own_name(rt: HostRuntime) {
    are_printed(&rt, &FIELDS);
    are_printed(&rt, &REFUSALS);
}

const FIELDS: [(Field, &str); 9] = [
    (Field::PaymentCount, "PaymentCount"),
    (Field::DeliveryCount, "DeliveryCount"),
    (Field::StockOrders, "StockOrders"),
    (Field::RemoteOrders, "RemoteOrders"),
    (Field::WarehouseYtd, "WarehouseYtd"),
    (Field::DistrictYtd, "DistrictYtd"),
    (Field::Balance, "Balance"),
    (Field::YtdPayment, "YtdPayment"),
    (Field::StockYtd, "StockYtd"),
];

const REFUSALS: [(Refusal, &str); 16] = [
    (Refusal::NoWarehouse, "NoWarehouse"),
    (Refusal::NoDistrict, "NoDistrict"),
    (Refusal::NoCustomer, "NoCustomer"),
    (Refusal::LineCount, "LineCount"),
    (Refusal::Quantity, "Quantity"),
    (Refusal::NoSupply, "NoSupply"),
    (Refusal::Amount, "Amount"),
    (Refusal::Carrier, "Carrier"),
    (Refusal::Threshold, "Threshold"),
    (Refusal::Stranger(3), "Stranger 3"),
    (Refusal::JournalFull, "JournalFull"),
    (Refusal::QueueFull, "QueueFull"),
    (Refusal::OrderNumbers, "OrderNumbers"),
    (Refusal::Count(Field::StockOrders), "Count StockOrders"),
    (Refusal::Total(Field::YtdPayment), "Total YtdPayment"),
    (Refusal::NoMemory, "NoMemory"),
];
