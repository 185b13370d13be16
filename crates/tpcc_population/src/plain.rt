//! The plain opening (4.3.3.1): each row by its numbers, with no draw.
ghost use Rattle.std.specs.Prelude.{◌≡◌, map, ⊤};
ghost use Rattle.std.specs.List.{range_with_len};
ghost use Rattle.tpcc_rows.specs.Opening.{plain_address, plain_district_information, plain_rules};

use crate::new_orders::opening_new_order;
use crate::opening::plain_is_sound;
use crate::rules::RowRules;
use crate::scale::Scale;
use crate::texts::{credit, district_information, numbered_text};
use std::alloc::Global;
use tpcc_draws::last_name;
use tpcc_money::{Cents, Moment, Rate};
use tpcc_rows::limits::{GREATEST_CARRIER, GREATEST_IMAGE};
use tpcc_rows::{
    Address, CustomerRow, DistrictRow, HistoryRow, ItemRow, NewOrderRow, NoMemory, OrderLineRow,
    OrderRow, StockRow, Text, WarehouseRow, recall,
};

/// The rows of the plain opening.
#[derive(Clone, Copy)]
pub(crate) struct PlainRules {
    /// How many there are.
    pub(crate) scale: Scale,
}

impl RowRules for PlainRules {
    ghost sizes = { λ plain. plain.scale };

    ghost rules = { λ plain. plain_rules plain.scale };

    ghost are_customers = { λ plain warehouse district customers. ⊤ };

    fn scale(&self) -> Scale {
        self.scale
    }

    #[tactic(auto, unfolding(tpcc_rows::specs::Opening::plain_rows))]
    fn is_sound(&self) {
        // For the proof: the conditions hold of the opening.
        recall!(plain_is_sound(self.scale));
    }

    fn warehouse(&self, number: u32) -> WarehouseRow {
        WarehouseRow {
            id: number,
            name: numbered_text(b"WARE", 3, number),
            address: plain_address(),
            tax: Rate::new(1000),
            ytd: Cents::new(i64::from(self.scale.customers()) * 10000),
        }
    }

    fn district(&self, warehouse: u32, number: u32) -> DistrictRow {
        let customers = self.scale.customers();
        DistrictRow {
            id: number,
            warehouse,
            name: numbered_text(b"DIST", 2, number),
            address: plain_address(),
            tax: Rate::new(number as u16 * 100),
            ytd: Cents::new(i64::from(customers) * 1000),
            next_order: customers + 1,
        }
    }

    fn customer(&self, warehouse: u32, district: u32, number: u32) -> CustomerRow {
        CustomerRow {
            id: number,
            district,
            warehouse,
            first: numbered_text(b"FIRST", 4, 9999 - number),
            middle: Text::of(b"OE"),
            last: last_name((number - 1) % 3),
            address: plain_address(),
            phone: numbered_text(b"", 16, number),
            since: Moment::new(0),
            credit: credit(number % 10 == 0),
            credit_limit: Cents::new(5_000_000),
            discount: Rate::new((number % 51) as u16 * 100),
            balance: Cents::new(-1000),
            ytd_payment: Cents::new(1000),
            payment_count: 1,
            delivery_count: 0,
            information: Text::of(&[b'x'; 300]),
        }
    }

    fn history(&self, warehouse: u32, district: u32, customer: u32) -> HistoryRow {
        HistoryRow {
            customer,
            customer_district: district,
            customer_warehouse: warehouse,
            district,
            warehouse,
            date: Moment::new(0),
            amount: Cents::new(1000),
            information: Text::of(b"OPENINGPAYMENT"),
        }
    }

    fn customers(
        &self,
        alloc: Global,
        _warehouse: u32,
        _district: u32,
    ) -> Result<Vec<u32>, NoMemory> {
        Ok(Vec::new(alloc))
    }

    fn order(&self, _customers: &[u32], warehouse: u32, district: u32, number: u32) -> OrderRow {
        OrderRow {
            id: number,
            district,
            warehouse,
            customer: number,
            entry_date: Moment::new(0),
            carrier: if self.scale.is_delivered(number) {
                Some(1 + (number - 1) % GREATEST_CARRIER)
            } else {
                None
            },
            line_count: 5,
            all_local: true,
        }
    }

    fn line_count(&self, _warehouse: u32, _district: u32, _order: u32) -> u32 {
        5
    }

    fn order_line(&self, warehouse: u32, district: u32, order: u32, number: u32) -> OrderLineRow {
        let is_delivered = self.scale.is_delivered(order);
        OrderLineRow {
            order,
            district,
            warehouse,
            number,
            item: 1 + (5 * (order - 1) + number - 1) % self.scale.items(),
            supply: warehouse,
            delivered: if is_delivered {
                Some(Moment::new(0))
            } else {
                None
            },
            quantity: 5,
            amount: if is_delivered {
                Cents::new(0)
            } else {
                Cents::new(i64::from(number) * 100)
            },
            district_information: district_information(district),
        }
    }

    fn new_order(&self, warehouse: u32, district: u32, order: u32) -> NewOrderRow {
        opening_new_order(warehouse, district, order)
    }

    fn item(&self, number: u32) -> ItemRow {
        ItemRow {
            id: number,
            image: 1 + (number - 1) % GREATEST_IMAGE,
            name: numbered_text(b"ITEMNAME", 6, number),
            price: Cents::new(i64::from(100 + (number - 1) % 9901)),
            information: Text::of(if number % 10 == 0 {
                b"ORIGINALiiiiiiiiiiiiiiiiii"
            } else {
                b"iiiiiiiiiiiiiiiiiiiiiiiiii"
            }),
        }
    }

    fn stock(&self, warehouse: u32, item: u32) -> StockRow {
        StockRow {
            item,
            warehouse,
            quantity: 10 + item % 91,
            district_information: ten_texts(),
            ytd: 0,
            order_count: 0,
            remote_count: 0,
            information: Text::of(if item % 20 == 0 {
                b"ORIGINALssssssssssssssssss"
            } else {
                b"ssssssssssssssssssssssssss"
            }),
        }
    }
}

// The one address of the plain opening.
fn plain_address() -> Address
    ensures { result ≡ plain_address }
{
    Address {
        street_1: Text::of(b"MAINSTREET"),
        street_2: Text::of(b"SIDESTREET"),
        city: Text::of(b"CITYCENTRE"),
        state: Text::of(b"AB"),
        zip: Text::of(b"000111111"),
    }
}

// S_DIST_01 to S_DIST_10.
fn ten_texts() -> [Text<24>; 10]
    ensures { result ≡ map plain_district_information (range_with_len 1 10) }
{
    [
        district_information(1),
        district_information(2),
        district_information(3),
        district_information(4),
        district_information(5),
        district_information(6),
        district_information(7),
        district_information(8),
        district_information(9),
        district_information(10),
    ]
}
