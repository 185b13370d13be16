//! The rows of the nine tables (1.3), with the columns in the standard's order, but for the few that
//! stand elsewhere so that no bytes are lost between them.
//!
//! A column's field is its name in words without the table's prefix; the four
//! `*_DATA` columns are `information`. The bound of a text is its type, and a row is
//! a plain value, whose copy takes no memory. The ranges of all columns stand in
//! `specs/Ranges.antt`; a row outside of them can be built but not loaded.

use crate::values::few::Filler;
use crate::values::text::Text;
use tpcc_money::{Cents, Moment, Rate};

/// The five columns of an address.
#[derive(Clone, Copy, PartialEq, Eq)]
pub struct Address {
    /// W_STREET_1, D_STREET_1 or C_STREET_1.
    pub street_1: Text<20>,
    /// W_STREET_2, D_STREET_2 or C_STREET_2.
    pub street_2: Text<20>,
    /// W_CITY, D_CITY or C_CITY.
    pub city: Text<20>,
    /// W_STATE, D_STATE or C_STATE.
    pub state: Text<2>,
    /// W_ZIP, D_ZIP or C_ZIP.
    pub zip: Text<9>,
}

/// WAREHOUSE: W_ID, W_NAME, the address, W_TAX, W_YTD.
#[derive(Clone, Copy, PartialEq, Eq)]
pub struct WarehouseRow {
    /// W_ID, 1 to 100.
    pub id: u32,
    /// W_NAME.
    pub name: Text<10>,
    /// W_STREET_1 to W_ZIP.
    pub address: Address,
    /// W_TAX: the sales tax of the warehouse, 0.0000 to 0.9999.
    pub tax: Rate,
    /// W_YTD: rises by each payment into the warehouse, 0.00 to 9,999,999,999.99.
    pub ytd: Cents,
}

/// DISTRICT: D_ID, D_W_ID, D_NAME, the address, D_TAX, D_YTD, D_NEXT_O_ID.
#[derive(Clone, Copy, PartialEq, Eq)]
pub struct DistrictRow {
    /// D_ID, 1 to 10.
    pub id: u32,
    /// D_W_ID, 1 to 100.
    pub warehouse: u32,
    /// D_NAME.
    pub name: Text<10>,
    /// D_STREET_1 to D_ZIP.
    pub address: Address,
    /// D_TAX: the sales tax of the district, 0.0000 to 0.9999.
    pub tax: Rate,
    /// D_YTD: rises by each payment into the district, 0.00 to 9,999,999,999.99.
    pub ytd: Cents,
    /// D_NEXT_O_ID: the number that the next order takes.
    pub next_order: u32,
}

/// CUSTOMER: C_ID, C_D_ID, C_W_ID, the names, the address, and the rest to C_DATA.
#[derive(Clone, Copy, PartialEq, Eq)]
pub struct CustomerRow {
    /// C_ID, 1 to 3,000.
    pub id: u32,
    /// C_D_ID, 1 to 10.
    pub district: u32,
    /// C_W_ID, 1 to 100.
    pub warehouse: u32,
    /// C_FIRST.
    pub first: Text<16>,
    /// C_MIDDLE.
    pub middle: Text<2>,
    /// C_LAST: many customers of a district may have one last name.
    pub last: Text<16>,
    /// C_STREET_1 to C_ZIP.
    pub address: Address,
    /// C_PHONE.
    pub phone: Text<16>,
    /// C_SINCE.
    pub since: Moment,
    /// C_CREDIT: `GC` for good, `BC` for bad.
    pub credit: Text<2>,
    /// C_CREDIT_LIM, 0.00 to 9,999,999,999.99; no transaction looks whether it is kept.
    pub credit_limit: Cents,
    /// C_BALANCE: what the customer owes; below zero where more was paid than delivered.
    pub balance: Cents,
    /// C_YTD_PAYMENT: rises by each payment of the customer, 0.00 to 9,999,999,999.99.
    pub ytd_payment: Cents,
    /// C_PAYMENT_CNT: rises by one with each payment of the customer, at most 999,999,999.
    pub payment_count: u32,
    /// C_DELIVERY_CNT: rises by one with each order of the customer that is delivered, at most 999,999,999.
    pub delivery_count: u32,
    /// C_DISCOUNT, 0.0000 to 0.9999.
    pub discount: Rate,
    /// C_DATA.
    pub information: Text<500>,
}

/// HISTORY: one payment of a customer into a district.
#[derive(Clone, Copy, PartialEq, Eq)]
pub struct HistoryRow {
    /// H_C_ID, 1 to 3,000: the customer who paid.
    pub customer: u32,
    /// H_C_D_ID, 1 to 10.
    pub customer_district: u32,
    /// H_C_W_ID, 1 to 100.
    pub customer_warehouse: u32,
    /// H_D_ID, 1 to 10: the district that was paid.
    pub district: u32,
    /// H_W_ID, 1 to 100: the warehouse that was paid.
    pub warehouse: u32,
    /// H_DATE: the moment of the payment.
    pub date: Moment,
    /// H_AMOUNT, 0.01 to 9,999.99.
    pub amount: Cents,
    /// H_DATA.
    pub information: Text<24>,
}

/// ORDER: O_ID, O_D_ID, O_W_ID, O_C_ID, O_ENTRY_D, O_CARRIER_ID, O_OL_CNT, O_ALL_LOCAL.
#[derive(Clone, Copy, PartialEq, Eq)]
pub struct OrderRow {
    /// O_ID, 1 to 9,999,999, below D_NEXT_O_ID of the district.
    pub id: u32,
    /// O_D_ID, 1 to 10.
    pub district: u32,
    /// O_W_ID, 1 to 100.
    pub warehouse: u32,
    /// O_C_ID, 1 to 3,000: a customer of that district.
    pub customer: u32,
    /// O_ENTRY_D: the moment at which the order was entered.
    pub entry_date: Moment,
    /// O_CARRIER_ID: null until the order is delivered.
    pub carrier: Option<u32>,
    /// O_OL_CNT, 5 to 15.
    pub line_count: u32,
    /// O_ALL_LOCAL: whether the home warehouse supplies every line.
    pub all_local: bool,
}

/// ORDER-LINE: one line of an order, numbered from 1.
#[derive(Clone, Copy, PartialEq, Eq)]
pub struct OrderLineRow {
    /// OL_O_ID, 1 to 9,999,999.
    pub order: u32,
    /// OL_D_ID, 1 to 10.
    pub district: u32,
    /// OL_W_ID, 1 to 100.
    pub warehouse: u32,
    /// OL_NUMBER, 1 to 15.
    pub number: u32,
    /// OL_I_ID, 1 to 100,000.
    pub item: u32,
    /// OL_SUPPLY_W_ID: the warehouse whose stock the line takes.
    pub supply: u32,
    /// OL_DELIVERY_D: null until the order is delivered.
    pub delivered: Option<Moment>,
    /// OL_AMOUNT, 0.00 to 9,999.99.
    pub amount: Cents,
    /// OL_QUANTITY, 1 to 10.
    pub quantity: u32,
    /// OL_DIST_INFO, exactly 24 bytes.
    pub district_information: Text<24>,
}

impl Filler for OrderLineRow {
    ghost use Rattle.std.specs.Prelude.{[], None, pos};

    ghost filler = { record {
      order = 0;
      district = 0;
      warehouse = 0;
      number = 0;
      item = 0;
      supply = 0;
      delivered = None;
      amount = pos 0;
      quantity = 0;
      district_information = [];
    } };

    fn filler() -> Self {
        OrderLineRow {
            order: 0,
            district: 0,
            warehouse: 0,
            number: 0,
            item: 0,
            supply: 0,
            delivered: None,
            amount: Cents::new(0),
            quantity: 0,
            district_information: Text::empty(),
        }
    }
}

/// NEW-ORDER: an order that is not delivered yet.
#[derive(Clone, Copy, PartialEq, Eq)]
pub struct NewOrderRow {
    /// NO_O_ID, 1 to 9,999,999.
    pub order: u32,
    /// NO_D_ID, 1 to 10.
    pub district: u32,
    /// NO_W_ID, 1 to 100.
    pub warehouse: u32,
}

/// ITEM: I_ID, I_IM_ID, I_NAME, I_PRICE, I_DATA.
#[derive(Clone, Copy, PartialEq, Eq)]
pub struct ItemRow {
    /// I_ID, 1 to 100,000.
    pub id: u32,
    /// I_IM_ID, 1 to 10,000: the number of the item's image.
    pub image: u32,
    /// I_PRICE, 0.01 to 999.99.
    pub price: Cents,
    /// I_NAME.
    pub name: Text<24>,
    /// I_DATA.
    pub information: Text<50>,
}

/// STOCK: one item in one warehouse. What each order line reads and writes stands together, in front of S_DIST.
#[derive(Clone, Copy, PartialEq, Eq)]
pub struct StockRow {
    /// S_I_ID, 1 to 100,000.
    pub item: u32,
    /// S_W_ID, 1 to 100.
    pub warehouse: u32,
    /// S_QUANTITY, 10 to 100.
    pub quantity: u32,
    /// S_YTD: rises by the quantity of each order line that it supplies, at most 99,999,999.
    pub ytd: u32,
    /// S_ORDER_CNT: rises by one with each order line that it supplies, at most 999,999,999.
    pub order_count: u32,
    /// S_REMOTE_CNT: rises by one with each of them that is of another warehouse's order, at most 999,999,999.
    pub remote_count: u32,
    /// S_DATA.
    pub information: Text<50>,
    /// S_DIST_01 to S_DIST_10, each exactly 24 bytes.
    pub district_information: [Text<24>; 10],
}
