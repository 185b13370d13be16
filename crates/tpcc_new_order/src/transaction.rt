//! An order in two halves: what may fail, and what can't.
ghost use Rattle.std.specs.Prelude.{◌≡◌, ◌≤◌, IfOk, IfErr, OnOk, OnErr, Some, None, length};
ghost use Rattle.std.specs.Option.{option_or};
ghost use Rattle.tpcc_rows.specs.WellKeyed.{IsStocked};
ghost use Rattle.tpcc_rows.specs.NewOrder.{order_refusal, order_reply, rows_after_order};
ghost use Rattle.tpcc_new_order.specs.Prepares.{IsPrepared, HasRoom};

use crate::reading::lookups::has_unused_item;
use crate::reading::order_rows::rows_of_order;
use crate::reading::ranges::range_refusal;
use crate::reply::replies::show_rollback;
use crate::writing::rows::write_order;
use tpcc_rows::{Entered, NoMemory, Order, Refusal};
use tpcc_tables::Tables;

/// What is left to do for an order that nothing refuses.
#[derive(Clone, Copy)]
pub enum PreparedOrder {
    /// Its rows are written (2.4.2.2).
    Enter,
    /// It has an unused item, so no row changes (2.4.2.3).
    RollBack,
}

/// The first refusal of an order, or what is left to do for it.
fn judge(tables: &Tables, order: &Order) -> Result<PreparedOrder, Refusal>
    requires stocked { IsStocked tables.now.rows }
    ensures ok { IfOk result (IsPrepared tables.now.rows order.now) }
    ensures accepted { OnOk result (order_refusal tables.now.rows order.now ≡ None) }
    ensures err { IfErr result (λ refusal.
        order_refusal tables.now.rows order.now ≡ Some refusal) }
{
    let named = rows_of_order(tables, order)?;
    if has_unused_item(tables, order.lines.as_slice()) {
        return Ok(PreparedOrder::RollBack);
    }
    match range_refusal(tables, order, named.district.next_order) {
        Some(refusal) => Err(refusal),
        None => Ok(PreparedOrder::Enter),
    }
}

/// Room for the rows of an order that is entered.
fn make_room(tables: &mut Tables, order: &Order, prepared: PreparedOrder) -> Result<(), NoMemory>
    requires few { length order.now.lines ≤ 15 }
    ensures same { tables.new.rows ≡ tables.old.rows }
    ensures room { OnOk result (HasRoom tables.new.order_room order.now prepared) }
{
    match prepared {
        PreparedOrder::Enter => tables.reserve_order(order.lines.as_slice().len() as u32),
        PreparedOrder::RollBack => Ok(()),
    }
}

/// Tells every refusal and makes every growth of an order (2.4.2); no row changes.
///
/// The refusals, in the order of the tests: `NoWarehouse`, `NoDistrict`, `NoCustomer`, `LineCount` unless there are
/// 5 to 15 lines, `Quantity` unless each is 1 to 10, `NoSupply`. An order that none of them refuses and that has an
/// unused item is rolled back (2.4.2.3). Any other is tested for its number and for its STOCK rows as they would be
/// after it: `OrderNumbers`, `Count(StockOrders)`, `Count(RemoteOrders)`, `Total(StockYtd)`. Last comes `NoMemory`,
/// where a growth is refused.
pub fn prepare(tables: &mut Tables, order: &Order) -> Result<PreparedOrder, Refusal>
    requires stocked { IsStocked tables.old.rows }
    ensures ok { IfOk result (IsPrepared tables.old.rows order.now) }
    ensures accepted { OnOk result (order_refusal tables.old.rows order.now ≡ None) }
    ensures room { IfOk result (HasRoom tables.new.order_room order.now) }
    ensures same { tables.new.rows ≡ tables.old.rows }
    ensures err { IfErr result (λ refusal.
        option_or (order_refusal tables.old.rows order.now) (Some Refusal.NoMemory)
        ≡ Some refusal) }
{
    let prepared = judge(tables, order)?;
    make_room(tables, order, prepared)?;
    Ok(prepared)
}

/// Writes an order that was prepared on the same rows (2.4.2.2), or nothing where it is rolled back, and gives its
/// reply; takes no memory.
pub fn finish(tables: &mut Tables, order: &Order, prepared: PreparedOrder) -> Entered
    requires stocked { IsStocked tables.old.rows }
    requires accepted { order_refusal tables.old.rows order.now ≡ None }
    requires prepared { IsPrepared tables.old.rows order.now prepared }
    requires room { HasRoom tables.old.order_room order.now prepared }
    ensures rows { tables.new.rows ≡ rows_after_order tables.old.rows order.now }
    ensures reply { result ≡ order_reply tables.old.rows order.now }
{
    match prepared {
        PreparedOrder::Enter => Entered::Accepted(write_order(tables, order)),
        PreparedOrder::RollBack => Entered::RolledBack(show_rollback(tables, order)),
    }
}

/// One order: the refusals of [`prepare`], which leave all rows as they were, or the reply of [`finish`].
pub fn enter(tables: &mut Tables, order: &Order) -> Result<Entered, Refusal>
    requires stocked { IsStocked tables.old.rows }
    ensures rows { OnOk result (tables.new.rows ≡ rows_after_order tables.old.rows order.now) }
    ensures accepted { OnOk result (order_refusal tables.old.rows order.now ≡ None) }
    ensures reply { IfOk result (λ entered. entered ≡ order_reply tables.old.rows order.now) }
    ensures refused { IfErr result (λ refusal.
        option_or (order_refusal tables.old.rows order.now) (Some Refusal.NoMemory)
        ≡ Some refusal) }
    ensures same { OnErr result (tables.new.rows ≡ tables.old.rows) }
{
    match prepare(tables, order) {
        Ok(prepared) => Ok(finish(tables, order, prepared)),
        Err(refusal) => Err(refusal),
    }
}
