//! One number more in the sums of a key.
ghost use Rattle.std.specs.Prelude.{◌≡◌, ◌≤◌, true, [], ◌∷◌, find, Some, refl};
ghost use Rattle.std.specs.List.{list_all};
ghost use Rattle.tpcc_rows.specs.Lists.{updated, is_ascending, larger};
ghost use Rattle.tpcc_storage.specs.Searches.{is_same_key};
ghost use Rattle.tpcc_tables.specs.Internal.Sums as sums;

use super::entry::{CustomerSums, DistrictSums, WarehouseSums};
use tpcc_money::Cents;
use tpcc_rows::{CustomerKey, DistrictKey, OrderRow, WarehouseKey};
use tpcc_storage::{RowChange, SortedRow, search};

/// Changes the sums of a key, where there are any.
fn change<T: SortedRow, C: RowChange<T>>(entries: &mut Vec<T>, key: &T::Key, change: &C)
    requires keyed { is_ascending T.key entries.old.items ≡ true }
    requires fits { (entry : T)
        → find (λ e. is_same_key (T.key e) (T.numbers key.now)) entries.old.items ≡ Some entry
        → C.fits change.now entry }
    ensures { entries.new.items ≡ updated (λ e. is_same_key (T.key e) (T.numbers key.now))
        (C.changed change.now) entries.old.items }
{
    if let Some(place) = search::place_of(entries.as_slice(), key) {
        change.apply(&mut entries[place]);
    }
}

/// What one payment adds.
#[derive(Drop)]
struct PaymentAmount {
    amount: Cents,
}

impl RowChange<WarehouseSums> for PaymentAmount {
    ghost changed = { λ payment. sums.warehouse_with_payment payment.amount };

    ghost fits = { λ payment s. sums.is_payments_sum s.paid ≡ true };

    ghost keeps_key = { λ payment s. refl };

    fn apply(&self, entry: &mut WarehouseSums) {
        entry.paid = entry.paid.plus(self.amount);
    }
}

impl RowChange<DistrictSums> for PaymentAmount {
    ghost changed = { λ payment. sums.district_with_payment payment.amount };

    ghost fits = { λ payment s. sums.is_payments_sum s.paid ≡ true };

    ghost keeps_key = { λ payment s. refl };

    fn apply(&self, entry: &mut DistrictSums) {
        entry.paid = entry.paid.plus(self.amount);
    }
}

impl RowChange<CustomerSums> for PaymentAmount {
    ghost changed = { λ payment. sums.customer_with_payment payment.amount };

    ghost fits = { λ payment s. sums.is_payments_sum s.paid ≡ true };

    ghost keeps_key = { λ payment s. refl };

    fn apply(&self, entry: &mut CustomerSums) {
        entry.paid = entry.paid.plus(self.amount);
    }
}

/// What one order adds to its district.
#[derive(Drop)]
struct LineCount {
    count: u32,
}

impl RowChange<DistrictSums> for LineCount {
    ghost changed = { λ lines. sums.district_with_order lines.count };

    ghost fits = { λ lines s. (sums.is_lines_sum s.counted_lines ≡ true) × (lines.count ≤ 15) };

    ghost keeps_key = { λ lines s. refl };

    fn apply(&self, entry: &mut DistrictSums) {
        entry.counted_lines += self.count;
    }
}

/// What one order adds to its customer.
#[derive(Drop)]
struct OrderAmount {
    order: u32,
    delivered: Cents,
}

impl RowChange<CustomerSums> for OrderAmount {
    ghost changed = { λ order. sums.customer_with_order order.order order.delivered };

    ghost fits = { λ order s. (sums.is_delivered_sum s.delivered ≡ true)
        × (sums.is_order_amount order.delivered ≡ true) };

    ghost keeps_key = { λ order s. refl };

    fn apply(&self, entry: &mut CustomerSums) {
        entry.last_order = Some(larger(self.order, entry.last_order));
        entry.delivered = entry.delivered.plus(self.delivered);
    }
}

/// What the delivery of one order adds.
#[derive(Drop)]
struct DeliveryAmount {
    amount: Cents,
}

impl RowChange<CustomerSums> for DeliveryAmount {
    ghost changed = { λ delivery. sums.customer_with_delivery delivery.amount };

    ghost fits = { λ delivery s. (sums.is_delivered_sum s.delivered ≡ true)
        × (sums.is_order_amount delivery.amount ≡ true) };

    ghost keeps_key = { λ delivery s. refl };

    fn apply(&self, entry: &mut CustomerSums) {
        entry.delivered = entry.delivered.plus(self.amount);
    }
}

/// What was paid into a warehouse rises by an amount.
pub fn pay_warehouse(entries: &mut Vec<WarehouseSums>, warehouse: u32, amount: Cents)
    requires keyed { is_ascending sums.warehouse_sums_key entries.old.items ≡ true }
    requires room { list_all (λ s. sums.is_payments_sum s.paid) entries.old.items ≡ true }
    ensures { entries.new.items
        ≡ updated (sums.has_key sums.warehouse_sums_key (warehouse ∷ []))
        (sums.warehouse_with_payment amount) entries.old.items }
{
    change(
        entries,
        &WarehouseKey { warehouse },
        &PaymentAmount { amount },
    );
}

/// What was paid into a district rises by an amount.
pub fn pay_district(entries: &mut Vec<DistrictSums>, warehouse: u32, district: u32, amount: Cents)
    requires keyed { is_ascending sums.district_sums_key entries.old.items ≡ true }
    requires room { list_all (λ s. sums.is_payments_sum s.paid) entries.old.items ≡ true }
    ensures { entries.new.items
        ≡ updated (sums.has_key sums.district_sums_key (warehouse ∷ district ∷ []))
        (sums.district_with_payment amount) entries.old.items }
{
    let key = DistrictKey {
        warehouse,
        district,
    };
    change(entries, &key, &PaymentAmount { amount });
}

/// What a customer paid rises by an amount.
pub fn pay_customer(
    entries: &mut Vec<CustomerSums>,
    warehouse: u32,
    district: u32,
    customer: u32,
    amount: Cents,
)
    requires keyed { is_ascending sums.customer_sums_key entries.old.items ≡ true }
    requires room { list_all (λ s. sums.is_payments_sum s.paid) entries.old.items ≡ true }
    ensures { entries.new.items
        ≡ updated (sums.has_key sums.customer_sums_key (warehouse ∷ district ∷ customer ∷ []))
        (sums.customer_with_payment amount) entries.old.items }
{
    let key = CustomerKey {
        warehouse,
        district,
        customer,
    };
    change(entries, &key, &PaymentAmount { amount });
}

/// The lines that a district's orders count rise by those of one order.
pub fn enter_district(
    entries: &mut Vec<DistrictSums>,
    warehouse: u32,
    district: u32,
    line_count: u32,
)
    requires keyed { is_ascending sums.district_sums_key entries.old.items ≡ true }
    requires room { list_all (λ s. sums.is_lines_sum s.counted_lines) entries.old.items ≡ true }
    requires lines { line_count ≤ 15 }
    ensures { entries.new.items
        ≡ updated (sums.has_key sums.district_sums_key (warehouse ∷ district ∷ []))
        (sums.district_with_order line_count) entries.old.items }
{
    let key = DistrictKey {
        warehouse,
        district,
    };
    change(entries, &key, &LineCount { count: line_count });
}

/// The larger one of two numbers, of which the second may be missing.
fn larger(number: u32, other: Option<u32>) -> u32
    ensures { result ≡ larger number other }
{
    match other {
        Some(other) => number.max(other),
        None => number,
    }
}

/// One order more of its customer, with the sum of its delivered lines.
pub fn enter_customer(entries: &mut Vec<CustomerSums>, order: &OrderRow, delivered: Cents)
    requires keyed { is_ascending sums.customer_sums_key entries.old.items ≡ true }
    requires room { list_all (λ s. sums.is_delivered_sum s.delivered) entries.old.items ≡ true }
    requires amount { sums.is_order_amount delivered ≡ true }
    ensures { entries.new.items ≡ updated (sums.has_key sums.customer_sums_key
        (order.now.warehouse ∷ order.now.district ∷ order.now.customer ∷ []))
        (sums.customer_with_order order.now.id delivered) entries.old.items }
{
    let key = CustomerKey {
        warehouse: order.warehouse,
        district: order.district,
        customer: order.customer,
    };
    let amount = OrderAmount {
        order: order.id,
        delivered,
    };
    change(entries, &key, &amount);
}

/// What was delivered to a customer rises by an amount.
pub fn deliver_customer(
    entries: &mut Vec<CustomerSums>,
    warehouse: u32,
    district: u32,
    customer: u32,
    amount: Cents,
)
    requires keyed { is_ascending sums.customer_sums_key entries.old.items ≡ true }
    requires room { list_all (λ s. sums.is_delivered_sum s.delivered) entries.old.items ≡ true }
    requires amount { sums.is_order_amount amount ≡ true }
    ensures { entries.new.items
        ≡ updated (sums.has_key sums.customer_sums_key (warehouse ∷ district ∷ customer ∷ []))
        (sums.customer_with_delivery amount) entries.old.items }
{
    let key = CustomerKey {
        warehouse,
        district,
        customer,
    };
    change(entries, &key, &DeliveryAmount { amount });
}
