//! A dump of a text that no opening has.
use crate::samples::requests::let_go;
use std::alloc::{AllocGlobal, Global};
use std::process::Abort;
use tpcc_money::{Cents, Rate};
use tpcc_rows::{Address, Row, Table, Text, WarehouseRow};
use tpcc_show::dump;
use tpcc_tables::Tables;

const RECORDS: &str =
    "W_ID,W_NAME,W_STREET_1,W_STREET_2,W_CITY,W_STATE,W_ZIP,W_TAX,W_YTD\n1,\"A,B \"\"C\"\"\",,,,AB,,0.1000,1000.00\n";

/// With commas and quotes in its name.
fn warehouse() -> WarehouseRow {
    WarehouseRow {
        id: 1,
        name: Text::of(b"A,B \"C\""),
        address: Address {
            street_1: Text::empty(),
            street_2: Text::empty(),
            city: Text::empty(),
            state: Text::of(b"AB"),
            zip: Text::empty(),
        },
        tax: Rate::new(1000),
        ytd: Cents::new(100_000),
    }
}

/// A table's dump, where there is memory for it.
pub fn dump_text(alloc: Global, tables: &Tables, table: Table) -> Option<Vec<u8>> {
    dump(alloc, tables, table, Vec::new(alloc)).ok()
}

#[test]
fn commas_and_quotes_within_a_text_are_quoted(rt: HostRuntime) {
    let mut tables = Tables::empty(rt.alloc());
    is_quoted(&rt, &mut tables);
    let_go(tables)
}

fn is_quoted(rt: &(impl Abort + AllocGlobal), tables: &mut Tables) {
    assert!(rt; tables.load(Row::Warehouse(warehouse())).is_ok());
    let text = dump_text(rt.alloc(), tables, Table::Warehouse).expect(rt, "a dump");
    assert!(rt; text.as_slice() == RECORDS.as_bytes());
}
