//! The ranges of the columns (1.3), row by row.
ghost use Rattle.std.specs.Prelude.{◌≡◌, pos, neg_ℤ};
ghost use Rattle.std.specs.Prelude.{ℕ, ℤ};
ghost use Rattle.std.specs.List.{list_all};
ghost use Rattle.tpcc_rows.specs.Ranges as ranges;

use tpcc_money::{Cents, GREATEST_PRICE, Moment, Rate};
use tpcc_rows::limits::{
    GREATEST_CARRIER, GREATEST_COUNT, GREATEST_CUSTOMER, GREATEST_DISTRICT, GREATEST_IMAGE,
    GREATEST_ITEM, GREATEST_LINE_AMOUNT, GREATEST_ORDER, GREATEST_STOCK_YTD, GREATEST_TOTAL,
    GREATEST_WAREHOUSE,
};
use tpcc_rows::{
    Address, CustomerRow, DistrictRow, HistoryRow, ItemRow, NewOrderRow, OrderLineRow, OrderRow,
    StockRow, Text, WarehouseRow,
};

fn is_within(low: u32, high: u32, n: u32) -> bool
    ensures { result ≡ ranges.is_within low high n }
{
    low <= n && n <= high
}

fn is_amount_within(low: i64, high: i64, amount: Cents) -> bool
    ensures { result ≡ ranges.is_amount_within low high amount }
{
    low <= amount.value() && amount.value() <= high
}

fn is_total(amount: Cents) -> bool
    ensures { result ≡ ranges.is_total amount }
{
    is_amount_within(0, GREATEST_TOTAL, amount)
}

fn is_balance(amount: Cents) -> bool
    ensures { result ≡ ranges.is_balance amount }
{
    is_amount_within(-GREATEST_TOTAL, GREATEST_TOTAL, amount)
}

fn is_rate(rate: Rate) -> bool
    ensures { result ≡ ranges.is_rate rate }
{
    is_within(0, 9_999, u32::from(rate.value()))
}

fn is_moment(moment: Moment) -> bool
    ensures { result ≡ ranges.is_moment moment }
{
    is_within(0, Moment::LAST_SECOND, moment.seconds())
}

fn is_text<const N: usize>(longest: usize, text: &Text<N>) -> bool
    ensures { result ≡ ranges.is_text longest text.now }
{
    text.len() <= longest && tpcc_rows::are_plain(text.bytes())
}

fn is_exact_text<const N: usize>(long: usize, text: &Text<N>) -> bool
    ensures { result ≡ ranges.is_exact_text long text.now }
{
    text.len() == long && tpcc_rows::are_plain(text.bytes())
}

fn is_warehouse_id(id: u32) -> bool
    ensures { result ≡ ranges.is_warehouse_id id }
{
    is_within(1, GREATEST_WAREHOUSE, id)
}

fn is_district_id(id: u32) -> bool
    ensures { result ≡ ranges.is_district_id id }
{
    is_within(1, GREATEST_DISTRICT, id)
}

fn is_customer_id(id: u32) -> bool
    ensures { result ≡ ranges.is_customer_id id }
{
    is_within(1, GREATEST_CUSTOMER, id)
}

fn is_item_id(id: u32) -> bool
    ensures { result ≡ ranges.is_item_id id }
{
    is_within(1, GREATEST_ITEM, id)
}

fn is_order_id(id: u32) -> bool
    ensures { result ≡ ranges.is_order_id id }
{
    is_within(1, GREATEST_ORDER, id)
}

fn is_count(count: u32) -> bool
    ensures { result ≡ ranges.is_count count }
{
    is_within(0, GREATEST_COUNT, count)
}

fn is_carrier_or_null(carrier: Option<u32>) -> bool
    ensures { result ≡ ranges.is_null_or ranges.is_carrier carrier }
{
    match carrier {
        Some(carrier) => is_within(1, GREATEST_CARRIER, carrier),
        None => true,
    }
}

fn is_moment_or_null(moment: Option<Moment>) -> bool
    ensures { result ≡ ranges.is_null_or ranges.is_moment moment }
{
    match moment {
        Some(moment) => is_moment(moment),
        None => true,
    }
}

fn is_address(address: &Address) -> bool
    ensures { result ≡ ranges.is_address address.now }
{
    is_text(20, &address.street_1)
        && is_text(20, &address.street_2)
        && is_text(20, &address.city)
        && is_text(2, &address.state)
        && is_text(9, &address.zip)
}

/// Whether each column of a row of WAREHOUSE is in its range.
#[tactic(auto, unfolding(tpcc_rows::specs::Ranges::is_warehouse_row))]
pub fn is_warehouse_row(row: &WarehouseRow) -> bool
    ensures { result ≡ ranges.is_warehouse_row row.now }
{
    is_warehouse_id(row.id)
        && is_text(10, &row.name)
        && is_address(&row.address)
        && is_rate(row.tax)
        && is_total(row.ytd)
}

/// Whether each column of a row of DISTRICT is in its range.
#[tactic(auto, unfolding(tpcc_rows::specs::Ranges::is_district_row))]
pub fn is_district_row(row: &DistrictRow) -> bool
    ensures { result ≡ ranges.is_district_row row.now }
{
    is_district_id(row.id)
        && is_warehouse_id(row.warehouse)
        && is_text(10, &row.name)
        && is_address(&row.address)
        && is_rate(row.tax)
        && is_total(row.ytd)
        && is_order_id(row.next_order)
}

/// Whether each column of a row of CUSTOMER is in its range.
#[tactic(auto, unfolding(tpcc_rows::specs::Ranges::is_customer_row))]
pub fn is_customer_row(row: &CustomerRow) -> bool
    ensures { result ≡ ranges.is_customer_row row.now }
{
    is_customer_id(row.id)
        && is_district_id(row.district)
        && is_warehouse_id(row.warehouse)
        && is_text(16, &row.first)
        && is_text(2, &row.middle)
        && is_text(16, &row.last)
        && is_address(&row.address)
        && is_text(16, &row.phone)
        && is_moment(row.since)
        && is_text(2, &row.credit)
        && is_total(row.credit_limit)
        && is_rate(row.discount)
        && is_balance(row.balance)
        && is_total(row.ytd_payment)
        && is_count(row.payment_count)
        && is_count(row.delivery_count)
        && is_text(500, &row.information)
}

/// Whether each column of a row of HISTORY is in its range.
#[tactic(auto, unfolding(tpcc_rows::specs::Ranges::is_history_row))]
pub fn is_history_row(row: &HistoryRow) -> bool
    ensures { result ≡ ranges.is_history_row row.now }
{
    is_customer_id(row.customer)
        && is_district_id(row.customer_district)
        && is_warehouse_id(row.customer_warehouse)
        && is_district_id(row.district)
        && is_warehouse_id(row.warehouse)
        && is_moment(row.date)
        && is_amount_within(1, GREATEST_LINE_AMOUNT, row.amount)
        && is_text(24, &row.information)
}

/// Whether each column of a row of ORDER is in its range.
#[tactic(auto, unfolding(tpcc_rows::specs::Ranges::is_order_row))]
pub fn is_order_row(row: &OrderRow) -> bool
    ensures { result ≡ ranges.is_order_row row.now }
{
    is_order_id(row.id)
        && is_district_id(row.district)
        && is_warehouse_id(row.warehouse)
        && is_customer_id(row.customer)
        && is_moment(row.entry_date)
        && is_carrier_or_null(row.carrier)
        && is_within(5, 15, row.line_count)
}

/// Whether each column of a row of ORDER-LINE is in its range.
#[tactic(auto, unfolding(tpcc_rows::specs::Ranges::is_order_line_row))]
pub fn is_order_line_row(row: &OrderLineRow) -> bool
    ensures { result ≡ ranges.is_order_line_row row.now }
{
    is_order_id(row.order)
        && is_district_id(row.district)
        && is_warehouse_id(row.warehouse)
        && is_within(1, 15, row.number)
        && is_item_id(row.item)
        && is_warehouse_id(row.supply)
        && is_moment_or_null(row.delivered)
        && is_within(1, 10, row.quantity)
        && is_amount_within(0, GREATEST_LINE_AMOUNT, row.amount)
        && is_exact_text(24, &row.district_information)
}

/// Whether each column of a row of NEW-ORDER is in its range.
#[tactic(auto, unfolding(tpcc_rows::specs::Ranges::is_new_order_row))]
pub fn is_new_order_row(row: &NewOrderRow) -> bool
    ensures { result ≡ ranges.is_new_order_row row.now }
{
    is_order_id(row.order) && is_district_id(row.district) && is_warehouse_id(row.warehouse)
}

/// Whether each column of a row of ITEM is in its range.
#[tactic(auto, unfolding(tpcc_rows::specs::Ranges::is_item_row))]
pub fn is_item_row(row: &ItemRow) -> bool
    ensures { result ≡ ranges.is_item_row row.now }
{
    is_item_id(row.id)
        && is_within(1, GREATEST_IMAGE, row.image)
        && is_text(24, &row.name)
        && is_amount_within(1, GREATEST_PRICE, row.price)
        && is_text(50, &row.information)
}

fn are_district_texts(texts: &[Text<24>]) -> bool
    ensures { result ≡ list_all (ranges.is_exact_text 24) texts.now }
{
    texts.iter().all(|text| is_exact_text(24, text))
}

/// Whether each column of a row of STOCK is in its range.
#[tactic(auto, unfolding(tpcc_rows::specs::Ranges::is_stock_row))]
pub fn is_stock_row(row: &StockRow) -> bool
    ensures { result ≡ ranges.is_stock_row row.now }
{
    is_item_id(row.item)
        && is_warehouse_id(row.warehouse)
        && is_within(10, 100, row.quantity)
        && row.district_information.len() == 10
        && are_district_texts(&row.district_information)
        && is_within(0, GREATEST_STOCK_YTD, row.ytd)
        && is_count(row.order_count)
        && is_count(row.remote_count)
        && is_text(50, &row.information)
}
