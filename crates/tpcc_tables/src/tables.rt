//! The tables as one value.
ghost use Rattle.std.specs.Prelude.{◌≡◌, ◌<◌, ◌≤◌, ◌+◌, ◌-◌, ◌&&◌, OnOk, OnErr, IsOk, [], ◌∷◌, ◌++◌, nat_le, nat_lt, length, map, filter};
ghost use Rattle.std.specs.Option.{option_copied};
ghost use Rattle.tpcc_rows.specs.Tables.{find_warehouse, find_district, find_customer, find_order, find_new_order, find_item, find_stock, lines_of, order_lines_in};
ghost use Rattle.tpcc_rows.specs.declared.transactions.requests.Who.TheVariants.{Name};
ghost use Rattle.tpcc_rows.specs.ChosenCustomer.{chosen_customer};
ghost use Rattle.tpcc_rows.specs.WellKeyed.{IsWellKeyed};
ghost use Rattle.tpcc_rows.specs.Delivery.{oldest_new_order, order_amount};
ghost use Rattle.tpcc_rows.specs.Lookups.{last_order_number, is_low};
ghost use Rattle.tpcc_rows.specs.Lists.{distinct};
ghost use Rattle.tpcc_tables.specs.Loads.{find_order_line};

mod load;
mod of_lists;
mod positions;
mod totals;
mod writes;

use crate::changes::delivery;
use crate::lookups::copies::copy_lines;
use crate::lookups::{districts, find, levels};
use crate::sums::Sums;
use std::alloc::Global;
use std::marker::Model;
use tpcc_money::Cents;
use tpcc_rows::{
    CustomerRow, DistrictRow, Few, HistoryRow, ItemRow, NewOrderRow, OrderLineRow, OrderRow,
    StockRow, WarehouseRow, recall,
};
use tpcc_storage::{ByDistrict, DistrictVecs, KeyedRows, Names, PendingOrders};

/// The nine tables (1.3), whose rows are always well-keyed: keys ascend, parents exist, and all columns are in their
/// ranges. It is seen as its rows, and the room that was made for one more payment and one more order.
pub struct Tables {
    /// WAREHOUSE.
    warehouses: KeyedRows<WarehouseRow>,
    /// DISTRICT.
    districts: KeyedRows<DistrictRow>,
    /// CUSTOMER.
    customers: KeyedRows<CustomerRow>,
    /// The customers' names in order.
    names: Names,
    /// HISTORY, the oldest first.
    histories: Vec<HistoryRow>,
    /// ORDER, a part for each district.
    orders: DistrictVecs<OrderRow>,
    /// ORDER-LINE, a part for each district.
    order_lines: DistrictVecs<OrderLineRow>,
    /// NEW-ORDER, a part for each district.
    new_orders: PendingOrders,
    /// ITEM.
    items: KeyedRows<ItemRow>,
    /// STOCK.
    stocks: KeyedRows<StockRow>,
    /// What the consistency conditions add up, of each WAREHOUSE, DISTRICT and CUSTOMER row.
    sums: Sums,
    /// Whether each district has a part in the three tables of orders.
    are_open: bool,
    /// One more than the lines of the next order that there is room for; 0 where there is room for no order.
    order_room: u64,
    /// 1 where there is room for one more payment, else 0.
    payment_room: u32,
}

// By hand, so that who lets tables go proves none of its parts anew.
impl Drop for Tables {
    fn drop(self) {
        let Tables {
            warehouses: _,
            districts: _,
            customers: _,
            names: _,
            histories: _,
            orders: _,
            order_lines: _,
            new_orders: _,
            items: _,
            stocks: _,
            sums: _,
            are_open: _,
            order_room: _,
            payment_room: _,
        } = self;
    }
}

impl Model for Tables {
    ghost use Rattle.tpcc_tables.specs.TablesView.{TablesView};

    ghost Value = { TablesView };

    ghost use Rattle.tpcc_tables.specs.Internal.View.{tables_view, AreTables};

    ghost view = { tables_view };

    ghost invariant = { AreTables };
}

impl Tables {
    /// Tables with no rows.
    pub fn empty(alloc: Global) -> Tables
        ensures { result.rows ≡ record {
          warehouses = [];
          districts = [];
          customers = [];
          histories = [];
          orders = [];
          order_lines = [];
          new_orders = [];
          items = [];
          stocks = [];
        } }
    {
        Tables {
            warehouses: KeyedRows::new(alloc),
            districts: KeyedRows::new(alloc),
            customers: KeyedRows::new(alloc),
            names: Names::new(alloc),
            histories: Vec::new(alloc),
            orders: ByDistrict::new(alloc),
            order_lines: ByDistrict::new(alloc),
            new_orders: ByDistrict::new(alloc),
            items: KeyedRows::new(alloc),
            stocks: KeyedRows::new(alloc),
            sums: Sums::empty(alloc),
            are_open: false,
            order_room: 0,
            payment_room: 0,
        }
    }

    /// The rows are well-keyed: keys ascend, parents exist, and all columns are in their ranges.
    pub fn well_keyed(&self)
        ensures { IsWellKeyed self.now.rows }
    {
        // For the proof: the invariant of the tables.
        recall!(&self.warehouses);
    }

    /// The WAREHOUSE row of a key.
    pub fn warehouse(&self, warehouse: u32) -> Option<&WarehouseRow>
        ensures { option_copied result ≡ find_warehouse self.now.rows warehouse }
    {
        find::warehouse(&self.warehouses, warehouse)
    }

    /// The DISTRICT row of a key.
    pub fn district(&self, warehouse: u32, district: u32) -> Option<&DistrictRow>
        ensures { option_copied result ≡ find_district self.now.rows warehouse district }
    {
        find::district(&self.districts, warehouse, district)
    }

    /// The CUSTOMER row of a key.
    pub fn customer(&self, warehouse: u32, district: u32, customer: u32) -> Option<&CustomerRow>
        ensures { option_copied result ≡ find_customer self.now.rows warehouse district customer }
    {
        find::customer(&self.customers, warehouse, district, customer)
    }

    /// The customer who is chosen by a last name (2.5.2.2, 2.6.2.2): of n customers of that name in the district, by
    /// C_FIRST and then C_ID, number n/2 rounded up.
    pub fn customer_by_name(
        &self,
        warehouse: u32,
        district: u32,
        last: &[u8],
    ) -> Option<&CustomerRow>
        ensures { option_copied result
            ≡ chosen_customer self.now.rows warehouse district (Name last.now) }
    {
        match self.names.middle(warehouse, district, last) {
            Some(customer) => self.customer(warehouse, district, customer),
            None => None,
        }
    }

    /// The ORDER row of a key.
    pub fn order(&self, warehouse: u32, district: u32, order: u32) -> Option<&OrderRow>
        ensures { option_copied result ≡ find_order self.now.rows warehouse district order }
    {
        find::order(&self.orders, warehouse, district, order)
    }

    /// The ORDER-LINE row of a key.
    pub fn line(
        &self,
        warehouse: u32,
        district: u32,
        order: u32,
        number: u32,
    ) -> Option<&OrderLineRow>
        ensures { option_copied result
            ≡ find_order_line self.now.rows warehouse district order number }
    {
        find::line(&self.order_lines, warehouse, district, order, number)
    }

    /// The ORDER-LINE rows of an order, in the order of their numbers: at most 15 (1.3.1).
    pub fn order_lines(&self, warehouse: u32, district: u32, order: u32) -> Few<OrderLineRow, 15>
        ensures lines { result ≡ lines_of self.now.rows warehouse district order }
        ensures few { length result ≤ 15 }
    {
        copy_lines(self.order_lines.lines_of(warehouse, district, order))
    }

    /// The sum of OL_AMOUNT of an order's lines (2.7.4.2), 0.00 where it has none.
    pub fn order_amount(&self, warehouse: u32, district: u32, order: u32) -> Cents
        ensures amount { result ≡ order_amount self.now.rows warehouse district order }
    {
        delivery::amount(self.order_lines.lines_of(warehouse, district, order))
    }

    /// How many distinct items of a district's 20 orders before number `next` have less stock in
    /// the warehouse than the threshold (2.8.2.2).
    pub fn low_stock(&self, warehouse: u32, district: u32, threshold: u32, next: u32) -> u32
        ensures count { result ≡ length (filter (is_low self.now.rows warehouse threshold)
            (distinct (map (λ l. l.item) (filter (λ l. nat_le (next - 20) l.order
            && nat_lt l.order next) (order_lines_in self.now.rows warehouse district))))) }
    {
        let first = next.saturating_sub(20);
        let lines = self
            .order_lines
            .lines_between(warehouse, district, first, next);
        levels::count_short(&self.stocks, warehouse, threshold, lines)
    }

    /// The NEW-ORDER row of a key.
    pub fn new_order(&self, warehouse: u32, district: u32, order: u32) -> Option<NewOrderRow>
        ensures { result ≡ find_new_order self.now.rows warehouse district order }
    {
        find::new_order(&self.new_orders, warehouse, district, order)
    }

    /// The largest number of a customer's orders (2.6.2.2), if there is an order.
    pub fn last_order(&self, warehouse: u32, district: u32, customer: u32) -> Option<u32>
        ensures { result ≡ last_order_number self.now.rows warehouse district customer }
    {
        self.customer_sums(warehouse, district, customer).last_order
    }

    /// The smallest number of a district's NEW-ORDER rows (2.7.4.2), if there is a row.
    pub fn oldest_new(&self, warehouse: u32, district: u32) -> Option<u32>
        ensures { result ≡ oldest_new_order self.now.rows warehouse district }
    {
        districts::oldest_new(&self.new_orders, warehouse, district)
    }

    /// The ITEM row of a key.
    pub fn item(&self, item: u32) -> Option<&ItemRow>
        ensures { option_copied result ≡ find_item self.now.rows item }
    {
        find::item(&self.items, item)
    }

    /// The STOCK row of a key: of an item in a warehouse.
    pub fn stock(&self, warehouse: u32, item: u32) -> Option<&StockRow>
        ensures { option_copied result ≡ find_stock self.now.rows warehouse item }
    {
        find::stock(&self.stocks, warehouse, item)
    }
}
