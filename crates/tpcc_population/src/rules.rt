//! What an opening is, row by row.
ghost use Rattle.std.specs.Prelude.{◌≡◌, ◌≤◌, IfOk};
ghost use Rattle.tpcc_rows.specs.Layout.{laid_out};
ghost use Rattle.tpcc_rows.specs.declared.limits.TheConstants.{GREATEST_WAREHOUSE, GREATEST_DISTRICT, GREATEST_CUSTOMER, GREATEST_ITEM};
ghost use Rattle.tpcc_population.specs.Opening.{IsSoundOpening};
ghost use Rattle.tpcc_population.specs.declared.rules.TheConstants.{MOST_ORDER_LINES};

use crate::scale::Scale;
use std::alloc::Global;
use tpcc_rows::{
    CustomerRow, DistrictRow, HistoryRow, ItemRow, NewOrderRow, NoMemory, OrderLineRow, OrderRow,
    StockRow, WarehouseRow,
};

/// The lines of an order at most.
pub(crate) const MOST_ORDER_LINES: u32 = 15;

/// What the row of each table is, by its numbers: warehouse, district and the row's own.
pub(crate) trait RowRules: Copy {
    ghost use Rattle.std.specs.Prelude.{ℕ, List};
    ghost use Rattle.tpcc_rows.specs.Layout.{Scale as Sizes, RowRules as Rules};

    /// How many rows there are.
    ghost sizes: { Self → Sizes };

    /// The rows.
    ghost rules: { Self → Rules };

    /// What `order` has to know of a district's customers.
    ghost are_customers: { Self → ℕ → ℕ → List ℕ → Type 0 };

    /// How many rows there are.
    fn scale(&self) -> Scale
        ensures { result ≡ sizes self.now };

    /// The opening is sound.
    fn is_sound(&self)
        ensures { IsSoundOpening (sizes self.now).customers
            (laid_out (sizes self.now) (rules self.now)) };

    /// A row of WAREHOUSE.
    fn warehouse(&self, number: u32) -> WarehouseRow
        requires most { number ≤ GREATEST_WAREHOUSE }
        ensures { result ≡ (rules self.now).warehouse number };

    /// A row of DISTRICT.
    fn district(&self, warehouse: u32, number: u32) -> DistrictRow
        requires warehouse_least { 1 ≤ warehouse }
        requires warehouse_most { warehouse ≤ GREATEST_WAREHOUSE }
        requires most { number ≤ GREATEST_DISTRICT }
        ensures { result ≡ (rules self.now).district warehouse number };

    /// A row of CUSTOMER.
    fn customer(&self, warehouse: u32, district: u32, number: u32) -> CustomerRow
        requires warehouse_least { 1 ≤ warehouse }
        requires warehouse_most { warehouse ≤ GREATEST_WAREHOUSE }
        requires district_least { 1 ≤ district }
        requires district_most { district ≤ GREATEST_DISTRICT }
        requires least { 1 ≤ number }
        requires most { number ≤ GREATEST_CUSTOMER }
        ensures { result ≡ (rules self.now).customer warehouse district number };

    /// The row of HISTORY that a customer has.
    fn history(&self, warehouse: u32, district: u32, customer: u32) -> HistoryRow
        requires warehouse_least { 1 ≤ warehouse }
        requires warehouse_most { warehouse ≤ GREATEST_WAREHOUSE }
        requires district_least { 1 ≤ district }
        requires district_most { district ≤ GREATEST_DISTRICT }
        requires least { 1 ≤ customer }
        requires most { customer ≤ GREATEST_CUSTOMER }
        ensures { result ≡ (rules self.now).history warehouse district customer };

    /// The customers of a district in the order of their orders, if that is drawn; else none.
    fn customers(&self, alloc: Global, warehouse: u32, district: u32) -> Result<Vec<u32>, NoMemory>
        requires warehouse_least { 1 ≤ warehouse }
        requires warehouse_most { warehouse ≤ GREATEST_WAREHOUSE }
        requires district_most { district ≤ GREATEST_DISTRICT }
        ensures { IfOk result (λ v. are_customers self.now warehouse district v.items) };

    /// A row of ORDER of a district with these customers.
    fn order(&self, customers: &[u32], warehouse: u32, district: u32, number: u32) -> OrderRow
        requires warehouse_least { 1 ≤ warehouse }
        requires warehouse_most { warehouse ≤ GREATEST_WAREHOUSE }
        requires district_least { 1 ≤ district }
        requires district_most { district ≤ GREATEST_DISTRICT }
        requires least { 1 ≤ number }
        requires most { number ≤ GREATEST_CUSTOMER }
        requires inside { number ≤ (sizes self.now).customers }
        requires customers { are_customers self.now warehouse district customers.now }
        ensures { result ≡ (rules self.now).order warehouse district number };

    /// O_OL_CNT of an order.
    fn line_count(&self, warehouse: u32, district: u32, order: u32) -> u32
        requires warehouse_least { 1 ≤ warehouse }
        requires warehouse_most { warehouse ≤ GREATEST_WAREHOUSE }
        requires district_least { 1 ≤ district }
        requires district_most { district ≤ GREATEST_DISTRICT }
        requires least { 1 ≤ order }
        requires most { order ≤ GREATEST_CUSTOMER }
        ensures count { result ≡ ((rules self.now).order warehouse district order).line_count }
        ensures few { result ≤ MOST_ORDER_LINES };

    /// A row of ORDER-LINE.
    fn order_line(&self, warehouse: u32, district: u32, order: u32, number: u32) -> OrderLineRow
        requires warehouse_least { 1 ≤ warehouse }
        requires warehouse_most { warehouse ≤ GREATEST_WAREHOUSE }
        requires district_least { 1 ≤ district }
        requires district_most { district ≤ GREATEST_DISTRICT }
        requires order_least { 1 ≤ order }
        requires order_most { order ≤ GREATEST_CUSTOMER }
        requires least { 1 ≤ number }
        requires most { number ≤ MOST_ORDER_LINES }
        ensures { result ≡ (rules self.now).order_line warehouse district order number };

    /// A row of NEW-ORDER.
    fn new_order(&self, warehouse: u32, district: u32, order: u32) -> NewOrderRow
        ensures { result ≡ (rules self.now).new_order warehouse district order };

    /// A row of ITEM.
    fn item(&self, number: u32) -> ItemRow
        requires least { 1 ≤ number }
        requires most { number ≤ GREATEST_ITEM }
        ensures { result ≡ (rules self.now).item number };

    /// A row of STOCK.
    fn stock(&self, warehouse: u32, item: u32) -> StockRow
        requires warehouse_least { 1 ≤ warehouse }
        requires warehouse_most { warehouse ≤ GREATEST_WAREHOUSE }
        requires most { item ≤ GREATEST_ITEM }
        ensures { result ≡ (rules self.now).stock warehouse item };
}
