//! What the consistency conditions (3.3.2) add up, kept beside the rows.
ghost use Rattle.std.specs.Prelude.{◌≡◌, ◌≤◌, true, []};
ghost use Rattle.tpcc_tables.specs.Internal.Sums.{CanGrow, HasPaid, HasEntered, HasDelivered, is_order_amount};

mod count;
pub mod entry;
mod fill;
pub mod found;
pub mod total;

use entry::{CustomerSums, DistrictSums, WarehouseSums};
use std::alloc::Global;
use tpcc_money::Cents;
use tpcc_rows::{HistoryRow, OrderRow};

/// The sums of each warehouse, district and customer, in ascending order of their keys.
#[derive(Drop)]
pub struct Sums {
    /// One entry for each WAREHOUSE row.
    pub warehouses: Vec<WarehouseSums>,
    /// One entry for each DISTRICT row.
    pub districts: Vec<DistrictSums>,
    /// One entry for each CUSTOMER row.
    pub customers: Vec<CustomerSums>,
}

impl Sums {
    /// The sums of tables with no rows.
    pub fn empty(alloc: Global) -> Sums
        ensures warehouses { result.warehouses.items ≡ [] }
        ensures districts { result.districts.items ≡ [] }
        ensures customers { result.customers.items ≡ [] }
    {
        Sums {
            warehouses: Vec::new(alloc),
            districts: Vec::new(alloc),
            customers: Vec::new(alloc),
        }
    }

    /// Counts a payment for the warehouse and district into which it went, and for the customer
    /// who paid.
    pub fn pay(&mut self, history: &HistoryRow)
        requires { CanGrow self.old }
        ensures { HasPaid history.now self.old self.new }
    {
        count::pay_warehouse(&mut self.warehouses, history.warehouse, history.amount);
        count::pay_district(
            &mut self.districts,
            history.warehouse,
            history.district,
            history.amount,
        );
        count::pay_customer(
            &mut self.customers,
            history.customer_warehouse,
            history.customer_district,
            history.customer,
            history.amount,
        );
    }

    /// Counts an order for its district and its customer, with the sum of its delivered lines.
    pub fn enter(&mut self, order: &OrderRow, delivered: Cents)
        requires room { CanGrow self.old }
        requires lines { order.now.line_count ≤ 15 }
        requires amount { is_order_amount delivered ≡ true }
        ensures { HasEntered order.now delivered self.old self.new }
    {
        count::enter_district(
            &mut self.districts,
            order.warehouse,
            order.district,
            order.line_count,
        );
        count::enter_customer(&mut self.customers, order, delivered);
    }

    /// Counts what more of a customer's orders is delivered.
    pub fn deliver(&mut self, warehouse: u32, district: u32, customer: u32, amount: Cents)
        requires room { CanGrow self.old }
        requires amount { is_order_amount amount ≡ true }
        ensures { HasDelivered warehouse district customer amount self.old self.new }
    {
        count::deliver_customer(&mut self.customers, warehouse, district, customer, amount);
    }
}
