//! What the delivery of one order changes (2.7.4.2).
ghost use Rattle.std.specs.Prelude.{unwrap_or, ◌≡◌, ◌+◌, ◌<◌, ◌≤◌, ◌^◌, ◌+ℤ◌, ℕ, ℤ, pos, FitsSigned, find, filter, is_some, if◌then◌else◌, length, not, take, true, Some, refl};
ghost use Rattle.std.specs.Bool.{beq};
ghost use Rattle.std.specs.List.{list_all};
ghost use Rattle.std.specs.Int.{w64};
ghost use Rattle.tpcc_money.specs.Amounts.{total};
ghost use Rattle.tpcc_rows.specs.declared.tables.rows.CustomerRow.{CustomerRow};
ghost use Rattle.tpcc_rows.specs.Lists.{updated, is_ascending};
ghost use Rattle.tpcc_rows.specs.Tables.{is_customer, is_new_order, is_order, no_order, customer_key, new_order_key, order_key};
ghost use Rattle.tpcc_rows.specs.Ranges.{is_order_line_row};
ghost use Rattle.tpcc_rows.specs.Delivery.{delivered_customer};
ghost use Rattle.tpcc_tables.specs.Internal.Sums.{is_order_amount};
ghost use Rattle.tpcc_tables.specs.Internal.Writes.{IsCreditable};

use crate::lookups::find;
use tpcc_money::Cents;
use tpcc_rows::{
    CustomerKey, CustomerRow, NewOrderKey, NewOrderRow, OrderKey, OrderLineRow, OrderRow,
};
use tpcc_storage::{DistrictVecs, KeyedRows, PendingOrders, RowChange};

/// The customer of an order, or 0, which no customer has, where there is no such order.
pub fn customer_of(rows: &DistrictVecs<OrderRow>, warehouse: u32, district: u32, order: u32) -> u32
    requires keyed { is_ascending order_key rows.now.rows ≡ true }
    ensures { result
        ≡ (unwrap_or (find (is_order warehouse district order) rows.now.rows) no_order).customer }
{
    match find::order(rows, warehouse, district, order) {
        Some(row) => row.customer,
        None => 0,
    }
}

/// The sum of OL_AMOUNT of an order's lines.
pub fn amount(lines: &[OrderLineRow]) -> Cents
    requires fits { (k : ℕ) → FitsSigned w64 (total (λ l. l.amount) (take k lines.now)) }
    ensures { result ≡ total (λ l. l.amount) lines.now }
{
    let mut sum = Cents::new(0);
    for line in lines {
        sum = sum.plus(line.amount);
    }
    sum
}

/// OL_AMOUNT of a line that is delivered or not, as is asked; else 0.00.
pub fn amount_if(line: &OrderLineRow, delivered: bool) -> Cents
    ensures { result ≡ (if beq (is_some line.now.delivered) delivered
        then line.now.amount else pos 0) }
{
    if line.delivered.is_some() == delivered {
        line.amount
    } else {
        Cents::new(0)
    }
}

/// The sum of OL_AMOUNT of those of an order's lines that are delivered, or of those that are not.
pub fn amount_where(lines: &[OrderLineRow], delivered: bool) -> Cents
    requires few { length lines.now ≤ 15 }
    requires range { list_all is_order_line_row lines.now ≡ true }
    ensures sum { result ≡ total (λ l. l.amount)
        (filter (λ l. beq (is_some l.delivered) delivered) lines.now) }
    ensures range { is_order_amount result ≡ true }
{
    let mut sum = Cents::new(0);
    for line in lines {
        sum = sum.plus(amount_if(line, delivered));
    }
    sum
}

/// The NEW-ORDER row of an order, removed.
pub fn remove_new_order(rows: &mut PendingOrders, warehouse: u32, district: u32, order: u32)
    requires keyed { is_ascending new_order_key rows.old.rows ≡ true }
    ensures removed { rows.new.rows
        ≡ filter (λ n. not (is_new_order warehouse district order n)) rows.old.rows }
    ensures owners { rows.new.owners ≡ rows.old.owners }
    ensures room { rows.new.room ≡ rows.old.room }
{
    rows.remove(&NewOrderKey {
        warehouse,
        district,
        order,
    });
}

/// The carrier of an order, set.
pub fn carry(
    rows: &mut DistrictVecs<OrderRow>,
    warehouse: u32,
    district: u32,
    order: u32,
    carrier: u32,
)
    requires keyed { is_ascending order_key rows.old.rows ≡ true }
    ensures rows { rows.new.rows ≡ updated (is_order warehouse district order)
        (λ o. record o { carrier = Some carrier }) rows.old.rows }
    ensures owners { rows.new.owners ≡ rows.old.owners }
    ensures room { rows.new.room ≡ rows.old.room }
{
    let key = OrderKey {
        warehouse,
        district,
        order,
    };
    if let Some(mut row) = rows.find(&key).copied() {
        row.carrier = Some(carrier);
        rows.replace(&key, row);
    }
}

/// What a delivered order adds to its customer's balance.
#[derive(Drop)]
struct DeliveredAmount {
    amount: Cents,
}

impl RowChange<CustomerRow> for DeliveredAmount {
    ghost changed = { λ credit. delivered_customer credit.amount };

    ghost fits = { λ credit. IsCreditable credit.amount };

    ghost keeps_key = { λ credit c. refl };

    fn apply(&self, row: &mut CustomerRow) {
        let balance = row.balance.plus(self.amount);
        row.balance = balance;
        row.delivery_count += 1;
    }
}

/// The balance of an order's customer raised by its amount, and C_DELIVERY_CNT by 1.
pub fn charge(
    rows: &mut KeyedRows<CustomerRow>,
    warehouse: u32,
    district: u32,
    customer: u32,
    amount: Cents,
)
    requires keyed { is_ascending customer_key rows.old.items ≡ true }
    requires fits { (c : CustomerRow) → find (is_customer warehouse district customer)
        rows.old.items ≡ Some c → IsCreditable amount c }
    ensures { rows.new.items ≡ updated
        (is_customer warehouse district customer) (delivered_customer amount) rows.old.items }
{
    let key = CustomerKey {
        warehouse,
        district,
        customer,
    };
    rows.change(&key, &DeliveredAmount { amount });
}
