//! The drawn opening (4.3.3.1): each row from its own stream, its columns drawn in their order.
ghost use Rattle.std.specs.Prelude.{◌≡◌, length};
ghost use Rattle.tpcc_population.specs.Seeded.{drawn_customers, seeded_rules};

mod address;
mod numbers;
mod orders;
mod texts;

use self::address::drawn_address;
use self::numbers::{district_number, line_number, number_in_districts, stock_number};
use self::orders::{carrier_and_lines, drawn_amount, order_customers};
use self::texts::{drawn_information, drawn_last, drawn_texts};
use crate::new_orders::opening_new_order;
use crate::opening::seeded_is_sound;
use crate::rules::RowRules;
use crate::scale::Scale;
use crate::texts::credit;
use std::alloc::Global;
use std::marker::Model;
use tpcc_draws::Stream;
use tpcc_money::{Cents, Moment, Rate};
use tpcc_rows::limits::GREATEST_IMAGE;
use tpcc_rows::{
    CustomerRow, DistrictRow, HistoryRow, ItemRow, NewOrderRow, NoMemory, OrderLineRow, OrderRow,
    StockRow, Text, WarehouseRow, recall,
};

/// The rows of the drawn opening: what the draws start from.
#[derive(Clone, Copy)]
pub(crate) struct SeededRules {
    /// How many rows are drawn.
    pub(crate) scale: Scale,
    /// Which streams the draws come from.
    pub(crate) seed: u64,
    /// When all that has a date was done.
    pub(crate) moment: Moment,
}

impl Model for SeededRules {
    ghost use Rattle.tpcc_population.specs.Seeded.{Seeding};

    ghost Value = { Seeding };

    ghost view = { λ s. record { scale = s.scale; seed = s.seed; moment = s.moment } };

    ghost inverse = { λ v. record { scale = v.scale; seed = v.seed; moment = v.moment } };
}

impl RowRules for SeededRules {
    ghost sizes = { λ seeded. seeded.scale };

    ghost rules = { seeded_rules };

    ghost are_customers = { λ seeded warehouse district customers.
        (customers ≡ drawn_customers seeded warehouse district)
        × (length customers ≡ seeded.scale.customers) };

    fn scale(&self) -> Scale {
        self.scale
    }

    #[tactic(auto, unfolding(crate::specs::Opening::seeded_rows))]
    fn is_sound(&self) {
        // For the proof: the conditions hold of the opening.
        recall!(seeded_is_sound(self.scale, self.seed, self.moment));
    }

    fn warehouse(&self, number: u32) -> WarehouseRow {
        let mut stream = Stream::of(self.seed, 1, u64::from(number));
        let name = stream.a_string(6, 10);
        let address = drawn_address(&mut stream);
        let tax = Rate::new(stream.between(0, 2000) as u16);
        WarehouseRow {
            id: number,
            name,
            address,
            tax,
            ytd: Cents::new(i64::from(self.scale.customers()) * 10000),
        }
    }

    fn district(&self, warehouse: u32, number: u32) -> DistrictRow {
        let mut stream = Stream::of(self.seed, 2, district_number(warehouse, number));
        let name = stream.a_string(6, 10);
        let address = drawn_address(&mut stream);
        let tax = Rate::new(stream.between(0, 2000) as u16);
        let customers = self.scale.customers();
        DistrictRow {
            id: number,
            warehouse,
            name,
            address,
            tax,
            ytd: Cents::new(i64::from(customers) * 1000),
            next_order: customers + 1,
        }
    }

    fn customer(&self, warehouse: u32, district: u32, number: u32) -> CustomerRow {
        let row = number_in_districts(&self.scale, warehouse, district, number);
        let mut stream = Stream::of(self.seed, 3, row);
        let first = stream.a_string(8, 16);
        let last = drawn_last(&mut stream, number);
        let address = drawn_address(&mut stream);
        let phone = stream.n_string(16, 16);
        let credit = credit(stream.between(1, 10) == 1);
        let discount = Rate::new(stream.between(0, 5000) as u16);
        let information = stream.a_string(300, 500);
        CustomerRow {
            id: number,
            district,
            warehouse,
            first,
            middle: Text::of(b"OE"),
            last,
            address,
            phone,
            since: self.moment,
            credit,
            credit_limit: Cents::new(5_000_000),
            discount,
            balance: Cents::new(-1000),
            ytd_payment: Cents::new(1000),
            payment_count: 1,
            delivery_count: 0,
            information,
        }
    }

    fn history(&self, warehouse: u32, district: u32, customer: u32) -> HistoryRow {
        let row = number_in_districts(&self.scale, warehouse, district, customer);
        let mut stream = Stream::of(self.seed, 4, row);
        let information = stream.a_string(12, 24);
        HistoryRow {
            customer,
            customer_district: district,
            customer_warehouse: warehouse,
            district,
            warehouse,
            date: self.moment,
            amount: Cents::new(1000),
            information,
        }
    }

    fn customers(
        &self,
        alloc: Global,
        warehouse: u32,
        district: u32,
    ) -> Result<Vec<u32>, NoMemory> {
        order_customers(alloc, self, warehouse, district)
    }

    fn order(&self, customers: &[u32], warehouse: u32, district: u32, number: u32) -> OrderRow {
        let (carrier, line_count) = carrier_and_lines(self, warehouse, district, number);
        OrderRow {
            id: number,
            district,
            warehouse,
            customer: customers[number as usize - 1],
            entry_date: self.moment,
            carrier,
            line_count,
            all_local: true,
        }
    }

    fn line_count(&self, warehouse: u32, district: u32, order: u32) -> u32 {
        carrier_and_lines(self, warehouse, district, order).1
    }

    fn order_line(&self, warehouse: u32, district: u32, order: u32, number: u32) -> OrderLineRow {
        let row = line_number(&self.scale, warehouse, district, order, number);
        let is_delivered = self.scale.is_delivered(order);
        let mut stream = Stream::of(self.seed, 6, row);
        let item = stream.between(1, self.scale.items());
        let amount = drawn_amount(&mut stream, is_delivered);
        let district_information = stream.a_string(24, 24);
        OrderLineRow {
            order,
            district,
            warehouse,
            number,
            item,
            supply: warehouse,
            delivered: if is_delivered {
                Some(self.moment)
            } else {
                None
            },
            quantity: 5,
            amount,
            district_information,
        }
    }

    fn new_order(&self, warehouse: u32, district: u32, order: u32) -> NewOrderRow {
        opening_new_order(warehouse, district, order)
    }

    fn item(&self, number: u32) -> ItemRow {
        let mut stream = Stream::of(self.seed, 8, u64::from(number));
        let image = stream.between(1, GREATEST_IMAGE);
        let name = stream.a_string(14, 24);
        let price = Cents::new(i64::from(stream.between(100, 10_000)));
        let information = drawn_information(&mut stream);
        ItemRow {
            id: number,
            image,
            name,
            price,
            information,
        }
    }

    fn stock(&self, warehouse: u32, item: u32) -> StockRow {
        let row = stock_number(&self.scale, warehouse, item);
        let mut stream = Stream::of(self.seed, 9, row);
        let quantity = stream.between(10, 100);
        let district_information = drawn_texts(&mut stream);
        let information = drawn_information(&mut stream);
        StockRow {
            item,
            warehouse,
            quantity,
            district_information,
            ytd: 0,
            order_count: 0,
            remote_count: 0,
            information,
        }
    }
}
