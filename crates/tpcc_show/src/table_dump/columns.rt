//! The names of tables' columns (1.3).
ghost use Rattle.std.specs.Prelude.{◌≡◌, map};
ghost use Rattle.tpcc_show.specs.Columns as columns;

use tpcc_rows::Table;

const WAREHOUSE_COLUMNS: &[&str] = &[
    "W_ID",
    "W_NAME",
    "W_STREET_1",
    "W_STREET_2",
    "W_CITY",
    "W_STATE",
    "W_ZIP",
    "W_TAX",
    "W_YTD",
];

const DISTRICT_COLUMNS: &[&str] = &[
    "D_ID",
    "D_W_ID",
    "D_NAME",
    "D_STREET_1",
    "D_STREET_2",
    "D_CITY",
    "D_STATE",
    "D_ZIP",
    "D_TAX",
    "D_YTD",
    "D_NEXT_O_ID",
];

const CUSTOMER_COLUMNS: &[&str] = &[
    "C_ID",
    "C_D_ID",
    "C_W_ID",
    "C_FIRST",
    "C_MIDDLE",
    "C_LAST",
    "C_STREET_1",
    "C_STREET_2",
    "C_CITY",
    "C_STATE",
    "C_ZIP",
    "C_PHONE",
    "C_SINCE",
    "C_CREDIT",
    "C_CREDIT_LIM",
    "C_DISCOUNT",
    "C_BALANCE",
    "C_YTD_PAYMENT",
    "C_PAYMENT_CNT",
    "C_DELIVERY_CNT",
    "C_DATA",
];

const HISTORY_COLUMNS: &[&str] = &[
    "H_C_ID", "H_C_D_ID", "H_C_W_ID", "H_D_ID", "H_W_ID", "H_DATE", "H_AMOUNT", "H_DATA",
];

const ORDER_COLUMNS: &[&str] = &[
    "O_ID",
    "O_D_ID",
    "O_W_ID",
    "O_C_ID",
    "O_ENTRY_D",
    "O_CARRIER_ID",
    "O_OL_CNT",
    "O_ALL_LOCAL",
];

const ORDER_LINE_COLUMNS: &[&str] = &[
    "OL_O_ID",
    "OL_D_ID",
    "OL_W_ID",
    "OL_NUMBER",
    "OL_I_ID",
    "OL_SUPPLY_W_ID",
    "OL_DELIVERY_D",
    "OL_QUANTITY",
    "OL_AMOUNT",
    "OL_DIST_INFO",
];

const NEW_ORDER_COLUMNS: &[&str] = &["NO_O_ID", "NO_D_ID", "NO_W_ID"];

const ITEM_COLUMNS: &[&str] = &["I_ID", "I_IM_ID", "I_NAME", "I_PRICE", "I_DATA"];

const STOCK_COLUMNS: &[&str] = &[
    "S_I_ID",
    "S_W_ID",
    "S_QUANTITY",
    "S_DIST_01",
    "S_DIST_02",
    "S_DIST_03",
    "S_DIST_04",
    "S_DIST_05",
    "S_DIST_06",
    "S_DIST_07",
    "S_DIST_08",
    "S_DIST_09",
    "S_DIST_10",
    "S_YTD",
    "S_ORDER_CNT",
    "S_REMOTE_CNT",
    "S_DATA",
];

/// The names of a table's columns in the standard's order, as `W_ID`.
pub fn columns(table: Table) -> &'static [&'static str]
    ensures { map (λ name. name.now) result.now ≡ columns.columns table }
{
    match table {
        Table::Warehouse => WAREHOUSE_COLUMNS,
        Table::District => DISTRICT_COLUMNS,
        Table::Customer => CUSTOMER_COLUMNS,
        Table::History => HISTORY_COLUMNS,
        Table::Order => ORDER_COLUMNS,
        Table::OrderLine => ORDER_LINE_COLUMNS,
        Table::NewOrder => NEW_ORDER_COLUMNS,
        Table::Item => ITEM_COLUMNS,
        Table::Stock => STOCK_COLUMNS,
    }
}
