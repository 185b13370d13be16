//! The writes of one transaction, each after its growth was made.
ghost use Rattle.std.specs.Prelude.{◌≡◌, ◌<◌, OnOk, length, Some, None, true};
ghost use Rattle.tpcc_rows.specs.Delivery.{after_delivery, district_refusal, oldest_new_order};
ghost use Rattle.tpcc_rows.specs.Ranges.{is_carrier};
ghost use Rattle.tpcc_tables.specs.Writes.{with_payment, IsPayment, with_entered_order, IsOrder};

use super::Tables;
use crate::changes::order_number::raise_next_order;
use crate::changes::{delivery, payment, supply};
use crate::rooms;
use tpcc_money::{Cents, Moment};
use tpcc_rows::{HistoryRow, NewOrderRow, NoMemory, OrderLineRow, OrderRow, Text, recall};

/// For how many orders more room is made at once in each district.
const SPARE_ORDERS: usize = 16;

impl Tables {
    /// Makes room for one payment. A refused growth leaves all rows as they were.
    pub fn reserve_payment(&mut self) -> Result<(), NoMemory>
        ensures same { self.new.rows ≡ self.old.rows }
        ensures room { OnOk result (0 < self.new.payment_room) }
        ensures orders { self.new.order_room ≡ self.old.order_room }
    {
        if self.histories.reserve(1).is_err() {
            return Err(NoMemory);
        }
        self.payment_room = 1;
        Ok(())
    }

    /// Makes room for one order of so many lines. A refused growth leaves all rows as they were.
    pub fn reserve_order(&mut self, lines: u32) -> Result<(), NoMemory>
        ensures same { self.new.rows ≡ self.old.rows }
        ensures room { OnOk result (lines < self.new.order_room) }
        ensures payments { self.new.payment_room ≡ self.old.payment_room }
    {
        if !self.are_open {
            rooms::open(
                &mut self.orders,
                &mut self.order_lines,
                &mut self.new_orders,
                self.districts.as_slice(),
            )?;
            self.are_open = true;
        }
        rooms::make(&mut self.orders, 1, SPARE_ORDERS)?;
        rooms::make(&mut self.new_orders, 1, SPARE_ORDERS)?;
        rooms::make(&mut self.order_lines, lines as usize, 15 * SPARE_ORDERS)?;
        self.order_room = u64::from(lines) + 1;
        Ok(())
    }

    /// Pays the amount of a HISTORY row into its warehouse and district (2.5.2.2), takes it from
    /// the customer's balance, adds it to C_YTD_PAYMENT and 1 to C_PAYMENT_CNT, and appends the
    /// row. C_DATA becomes the information, where there is one. Takes no memory.
    pub fn pay(&mut self, history: HistoryRow, information: Option<Text<500>>)
        requires room { 0 < self.old.payment_room }
        requires payment { IsPayment self.old.rows history information }
        ensures rows { self.new.rows ≡ with_payment self.old.rows history information }
        ensures orders { self.new.order_room ≡ self.old.order_room }
    {
        payment::pay_warehouse(&mut self.warehouses, history.warehouse, history.amount);
        payment::pay_district(
            &mut self.districts,
            history.warehouse,
            history.district,
            history.amount,
        );
        payment::pay_customer(
            &mut self.customers,
            history.customer_warehouse,
            history.customer_district,
            history.customer,
            history.amount,
            information,
        );
        self.sums.pay(&history);
        payment::append_history(&mut self.histories, history);
        self.payment_room = 0;
    }

    /// Enters an order (2.4.2.2): its ORDER, NEW-ORDER and ORDER-LINE rows are put at their
    /// places, its district's next number rises, and each line is taken from its STOCK row.
    /// Takes no memory.
    pub fn append_order(&mut self, order: OrderRow, lines: &[OrderLineRow])
        requires room { length lines.now < self.old.order_room }
        requires order { IsOrder self.old.rows order lines.now }
        ensures rows { self.new.rows ≡ with_entered_order self.old.rows order lines.now }
        ensures payments { self.new.payment_room ≡ self.old.payment_room }
    {
        raise_next_order(&mut self.districts, order.warehouse, order.district);
        supply::supply(&mut self.stocks, order.warehouse, lines);
        self.order_lines.append_all(lines);
        let waiting = NewOrderRow {
            order: order.id,
            district: order.district,
            warehouse: order.warehouse,
        };
        self.new_orders.append(waiting);
        self.orders.append(order);
        self.sums.enter(&order, Cents::new(0));
        self.order_room = 0;
    }

    /// Delivers a district's oldest new order (2.7.4.2): its NEW-ORDER row goes, its carrier and
    /// the moment of delivery of its lines are set, and its customer's balance rises by the sum of
    /// its lines and C_DELIVERY_CNT by 1. Takes no memory.
    pub fn deliver(
        &mut self,
        warehouse: u32,
        district: u32,
        order: u32,
        carrier: u32,
        moment: Moment,
    )
        requires oldest { oldest_new_order self.old.rows warehouse district ≡ Some order }
        requires carrier { is_carrier carrier ≡ true }
        requires accepted { district_refusal self.old.rows warehouse district (Some order) ≡ None }
        ensures rows { self.new.rows
            ≡ after_delivery self.old.rows warehouse district order carrier moment }
        ensures payments { self.new.payment_room ≡ self.old.payment_room }
    {
        // For the proof: the moment is in its range.
        recall!(moment.seconds());
        let lines = self.order_lines.lines_of(warehouse, district, order);
        let amount = delivery::amount(lines);
        let undelivered = delivery::amount_where(lines, false);
        let customer = delivery::customer_of(&self.orders, warehouse, district, order);
        delivery::remove_new_order(&mut self.new_orders, warehouse, district, order);
        delivery::carry(&mut self.orders, warehouse, district, order, carrier);
        self.order_lines.stamp(warehouse, district, order, moment);
        delivery::charge(&mut self.customers, warehouse, district, customer, amount);
        self.sums
            .deliver(warehouse, district, customer, undelivered);
        self.order_room = 0;
    }
}
