//! What the consistency conditions (3.3.2) add up, count and compare, without a look at the rows.
ghost use Rattle.std.specs.Prelude.{◌≡◌, pos, length, map, sum_by};
ghost use Rattle.tpcc_money.specs.Amounts.{total};
ghost use Rattle.tpcc_rows.specs.Lists.{largest};
ghost use Rattle.tpcc_rows.specs.Tables.{paid_into_warehouse, paid_into_district, paid_by, orders_of, orders_in, order_lines_in, new_orders_in, lines_of};
ghost use Rattle.tpcc_rows.specs.Conditions.{delivered_amount};
ghost use Rattle.tpcc_tables.specs.Internal.Sums.{warehouse_sums, district_sums, customer_sums};

use super::Tables;
use crate::lookups::district_counts::DistrictCounts;
use crate::lookups::districts;
use crate::sums::entry::{CustomerSums, DistrictSums, WarehouseSums};
use crate::sums::found;

impl Tables {
    fn warehouse_sums(&self, warehouse: u32) -> WarehouseSums
        ensures { result ≡ warehouse_sums self.now.rows warehouse }
    {
        found::of_warehouse(self.sums.warehouses.as_slice(), warehouse)
    }

    fn district_sums(&self, warehouse: u32, district: u32) -> DistrictSums
        ensures { result ≡ district_sums self.now.rows warehouse district }
    {
        found::of_district(self.sums.districts.as_slice(), warehouse, district)
    }

    pub(super) fn customer_sums(&self, warehouse: u32, district: u32, customer: u32) -> CustomerSums
        ensures { result ≡ customer_sums self.now.rows warehouse district customer }
    {
        found::of_customer(
            self.sums.customers.as_slice(),
            warehouse,
            district,
            customer,
        )
    }

    /// The sum of H_AMOUNT that was paid into a warehouse (3.3.2.8), in cents.
    pub fn warehouse_paid(&self, warehouse: u32) -> i128
        ensures { result ≡ total (λ h. h.amount) (paid_into_warehouse self.now.rows warehouse) }
    {
        self.warehouse_sums(warehouse).paid.value()
    }

    /// The sum of H_AMOUNT that was paid into a district (3.3.2.9), in cents.
    pub fn district_paid(&self, warehouse: u32, district: u32) -> i128
        ensures { result
            ≡ total (λ h. h.amount) (paid_into_district self.now.rows warehouse district) }
    {
        self.district_sums(warehouse, district).paid.value()
    }

    /// The sum of H_AMOUNT that a customer paid (3.3.2.10), in cents, wherever it went.
    pub fn customer_paid(&self, warehouse: u32, district: u32, customer: u32) -> i128
        ensures { result
            ≡ total (λ h. h.amount) (paid_by self.now.rows warehouse district customer) }
    {
        self.customer_sums(warehouse, district, customer)
            .paid
            .value()
    }

    /// The sum of OL_AMOUNT of the delivered lines of a customer's orders (3.3.2.10, 3.3.2.12), in cents.
    pub fn customer_delivered(&self, warehouse: u32, district: u32, customer: u32) -> i128
        ensures { result ≡ total
            (delivered_amount self.now.rows) (orders_of self.now.rows warehouse district customer) }
    {
        let delivered = self.customer_sums(warehouse, district, customer).delivered;
        i128::from(delivered.value())
    }

    /// The sum of O_OL_CNT of a district's orders (3.3.2.4).
    pub fn counted_lines(&self, warehouse: u32, district: u32) -> i128
        ensures { result
            ≡ pos (sum_by (λ o. o.line_count) (orders_in self.now.rows warehouse district)) }
    {
        i128::from(self.district_sums(warehouse, district).counted_lines)
    }

    /// How many ORDER-LINE rows a district has (3.3.2.4).
    pub fn line_count(&self, warehouse: u32, district: u32) -> usize
        ensures { result ≡ length (order_lines_in self.now.rows warehouse district) }
    {
        districts::lines(&self.order_lines, warehouse, district).len()
    }

    /// How many ORDER-LINE rows an order has (3.3.2.6).
    pub fn order_line_count(&self, warehouse: u32, district: u32, order: u32) -> usize
        ensures { result ≡ length (lines_of self.now.rows warehouse district order) }
    {
        self.order_lines.lines_of(warehouse, district, order).len()
    }

    /// What is counted and compared of a district's orders.
    pub fn district_counts(&self, warehouse: u32, district: u32) -> DistrictCounts
        ensures orders { result.orders ≡ length (orders_in self.now.rows warehouse district) }
        ensures new_orders { result.new_orders
            ≡ length (new_orders_in self.now.rows warehouse district) }
        ensures newest_order { result.newest_order
            ≡ largest (map (λ o. o.id) (orders_in self.now.rows warehouse district)) }
        ensures newest_new { result.newest_new
            ≡ largest (map (λ n. n.order) (new_orders_in self.now.rows warehouse district)) }
    {
        DistrictCounts {
            orders: districts::orders(&self.orders, warehouse, district).len(),
            new_orders: districts::count_new(&self.new_orders, warehouse, district),
            newest_order: districts::newest_order(&self.orders, warehouse, district),
            newest_new: districts::newest_new(&self.new_orders, warehouse, district),
        }
    }
}
