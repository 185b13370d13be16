//! One more row of a table.
ghost use Rattle.std.specs.Prelude.{◌≡◌, OnOk, OnErr, IfErr, None, Some};
ghost use Rattle.std.specs.Option.{option_or};
ghost use Rattle.tpcc_tables.specs.Loads as loads;

use super::Tables;
use crate::changes::delivery;
use crate::faults::{self, LoadFault};
use crate::sums::entry::{CustomerSums, DistrictSums, WarehouseSums};
use tpcc_money::Cents;
use tpcc_rows::{
    CustomerRow, DistrictRow, HistoryRow, ItemRow, NewOrderRow, NoMemory, OrderLineRow, OrderRow,
    Row, StockRow, WarehouseRow,
};
use tpcc_storage::insertion;

impl Tables {
    /// Loads one row at the place of its key, a HISTORY row at the end. A refused row comes back,
    /// and the tables stay as they were.
    pub fn load(&mut self, row: Row) -> Result<(), (Row, LoadFault)>
        ensures loaded { OnOk result (self.new.rows ≡ loads.with_row self.old.rows row) }
        ensures accepted { OnOk result (loads.load_fault self.old.rows row ≡ None) }
        ensures refused { IfErr result (λ e.
            option_or (loads.load_fault self.old.rows row) (Some LoadFault.NoMemory) ≡ Some e.1) }
        ensures given_back { IfErr result (λ e. e.0 ≡ row) }
        ensures same { OnErr result (self.new ≡ self.old) }
    {
        let given = row;
        match self.load_row(row) {
            Ok(()) => Ok(()),
            Err(fault) => Err((given, fault)),
        }
    }

    #[tactic(auto, unfolding(crate::specs::Loads::with_row, crate::specs::Loads::load_fault))]
    fn load_row(&mut self, row: Row) -> Result<(), LoadFault>
        ensures loaded { OnOk result (self.new.rows ≡ loads.with_row self.old.rows row) }
        ensures accepted { OnOk result (loads.load_fault self.old.rows row ≡ None) }
        ensures refused { IfErr result (λ fault.
            option_or (loads.load_fault self.old.rows row) (Some LoadFault.NoMemory) ≡ Some fault) }
        ensures same { OnErr result (self.new ≡ self.old) }
    {
        match row {
            Row::Warehouse(row) => self.load_warehouse(row),
            Row::District(row) => self.load_district(row),
            Row::Customer(row) => self.load_customer(row),
            Row::History(row) => self.load_history(row),
            Row::Order(row) => self.load_order(row),
            Row::OrderLine(row) => self.load_order_line(row),
            Row::NewOrder(row) => self.load_new_order(row),
            Row::Item(row) => self.load_item(row),
            Row::Stock(row) => self.load_stock(row),
        }
    }

    fn load_warehouse(&mut self, row: WarehouseRow) -> Result<(), LoadFault>
        ensures loaded { OnOk result (self.new.rows ≡ loads.with_warehouse self.old.rows row) }
        ensures accepted { OnOk result (loads.warehouse_fault self.old.rows row ≡ None) }
        ensures refused { IfErr result (λ fault. option_or
            (loads.warehouse_fault self.old.rows row) (Some LoadFault.NoMemory) ≡ Some fault) }
        ensures same { OnErr result (self.new ≡ self.old) }
    {
        if let Some(fault) = faults::of_warehouse(self, &row) {
            return Err(fault);
        }
        if self.sums.warehouses.reserve(1).is_err() {
            return Err(LoadFault::NoMemory);
        }
        if let Err(NoMemory) = self.warehouses.insert(row) {
            return Err(LoadFault::NoMemory);
        }
        let entry = WarehouseSums::none(row.id);
        insertion::insert_one(&mut self.sums.warehouses, entry);
        Ok(())
    }

    fn load_district(&mut self, row: DistrictRow) -> Result<(), LoadFault>
        ensures loaded { OnOk result (self.new.rows ≡ loads.with_district self.old.rows row) }
        ensures accepted { OnOk result (loads.district_fault self.old.rows row ≡ None) }
        ensures refused { IfErr result (λ fault. option_or
            (loads.district_fault self.old.rows row) (Some LoadFault.NoMemory) ≡ Some fault) }
        ensures same { OnErr result (self.new ≡ self.old) }
    {
        if let Some(fault) = faults::of_district(self, &row) {
            return Err(fault);
        }
        if self.sums.districts.reserve(1).is_err() {
            return Err(LoadFault::NoMemory);
        }
        if let Err(NoMemory) = self.districts.insert(row) {
            return Err(LoadFault::NoMemory);
        }
        let entry = DistrictSums::none(row.warehouse, row.id);
        insertion::insert_one(&mut self.sums.districts, entry);
        self.are_open = false;
        self.order_room = 0;
        Ok(())
    }

    fn load_customer(&mut self, row: CustomerRow) -> Result<(), LoadFault>
        ensures loaded { OnOk result (self.new.rows ≡ loads.with_customer self.old.rows row) }
        ensures accepted { OnOk result (loads.customer_fault self.old.rows row ≡ None) }
        ensures refused { IfErr result (λ fault. option_or
            (loads.customer_fault self.old.rows row) (Some LoadFault.NoMemory) ≡ Some fault) }
        ensures same { OnErr result (self.new ≡ self.old) }
    {
        if let Some(fault) = faults::of_customer(self, &row) {
            return Err(fault);
        }
        if self.customers.reserve_one().is_err() {
            return Err(LoadFault::NoMemory);
        }
        if self.sums.customers.reserve(1).is_err() {
            return Err(LoadFault::NoMemory);
        }
        if let Err(NoMemory) = self.names.load(&row) {
            return Err(LoadFault::NoMemory);
        }
        self.customers.insert_in_room(row);
        let entry = CustomerSums::none(row.warehouse, row.district, row.id);
        insertion::insert_one(&mut self.sums.customers, entry);
        Ok(())
    }

    fn load_history(&mut self, row: HistoryRow) -> Result<(), LoadFault>
        ensures loaded { OnOk result (self.new.rows ≡ loads.with_history self.old.rows row) }
        ensures accepted { OnOk result (loads.history_fault self.old.rows row ≡ None) }
        ensures refused { IfErr result (λ fault. option_or
            (loads.history_fault self.old.rows row) (Some LoadFault.NoMemory) ≡ Some fault) }
        ensures same { OnErr result (self.new ≡ self.old) }
    {
        if let Some(fault) = faults::of_history(self, &row) {
            return Err(fault);
        }
        if let Err(NoMemory) = insertion::push(&mut self.histories, row) {
            return Err(LoadFault::NoMemory);
        }
        self.sums.pay(&row);
        self.payment_room = 0;
        Ok(())
    }

    fn load_order(&mut self, row: OrderRow) -> Result<(), LoadFault>
        ensures loaded { OnOk result (self.new.rows ≡ loads.with_order self.old.rows row) }
        ensures accepted { OnOk result (loads.order_fault self.old.rows row ≡ None) }
        ensures refused { IfErr result (λ fault. option_or
            (loads.order_fault self.old.rows row) (Some LoadFault.NoMemory) ≡ Some fault) }
        ensures same { OnErr result (self.new ≡ self.old) }
    {
        if let Some(fault) = faults::of_order(self, &row) {
            return Err(fault);
        }
        if let Err(NoMemory) = self.orders.load(row) {
            return Err(LoadFault::NoMemory);
        }
        self.sums.enter(&row, Cents::new(0));
        self.order_room = 0;
        Ok(())
    }

    fn load_order_line(&mut self, row: OrderLineRow) -> Result<(), LoadFault>
        ensures loaded { OnOk result (self.new.rows ≡ loads.with_order_line self.old.rows row) }
        ensures accepted { OnOk result (loads.order_line_fault self.old.rows row ≡ None) }
        ensures refused { IfErr result (λ fault. option_or
            (loads.order_line_fault self.old.rows row) (Some LoadFault.NoMemory) ≡ Some fault) }
        ensures same { OnErr result (self.new ≡ self.old) }
    {
        if let Some(fault) = faults::of_order_line(self, &row) {
            return Err(fault);
        }
        if let Err(NoMemory) = self.order_lines.load(row) {
            return Err(LoadFault::NoMemory);
        }
        let customer = delivery::customer_of(&self.orders, row.warehouse, row.district, row.order);
        let delivered = delivery::amount_if(&row, true);
        self.sums
            .deliver(row.warehouse, row.district, customer, delivered);
        self.order_room = 0;
        Ok(())
    }

    fn load_new_order(&mut self, row: NewOrderRow) -> Result<(), LoadFault>
        ensures loaded { OnOk result (self.new.rows ≡ loads.with_new_order self.old.rows row) }
        ensures accepted { OnOk result (loads.new_order_fault self.old.rows row ≡ None) }
        ensures refused { IfErr result (λ fault. option_or
            (loads.new_order_fault self.old.rows row) (Some LoadFault.NoMemory) ≡ Some fault) }
        ensures same { OnErr result (self.new ≡ self.old) }
    {
        if let Some(fault) = faults::of_new_order(self, &row) {
            return Err(fault);
        }
        if let Err(NoMemory) = self.new_orders.load(row) {
            return Err(LoadFault::NoMemory);
        }
        self.order_room = 0;
        Ok(())
    }

    fn load_item(&mut self, row: ItemRow) -> Result<(), LoadFault>
        ensures loaded { OnOk result (self.new.rows ≡ loads.with_item self.old.rows row) }
        ensures accepted { OnOk result (loads.item_fault self.old.rows row ≡ None) }
        ensures refused { IfErr result (λ fault.
            option_or (loads.item_fault self.old.rows row) (Some LoadFault.NoMemory) ≡ Some fault) }
        ensures same { OnErr result (self.new ≡ self.old) }
    {
        if let Some(fault) = faults::of_item(self, &row) {
            return Err(fault);
        }
        if let Err(NoMemory) = self.items.insert(row) {
            return Err(LoadFault::NoMemory);
        }
        Ok(())
    }

    fn load_stock(&mut self, row: StockRow) -> Result<(), LoadFault>
        ensures loaded { OnOk result (self.new.rows ≡ loads.with_stock self.old.rows row) }
        ensures accepted { OnOk result (loads.stock_fault self.old.rows row ≡ None) }
        ensures refused { IfErr result (λ fault. option_or
            (loads.stock_fault self.old.rows row) (Some LoadFault.NoMemory) ≡ Some fault) }
        ensures same { OnErr result (self.new ≡ self.old) }
    {
        if let Some(fault) = faults::of_stock(self, &row) {
            return Err(fault);
        }
        if let Err(NoMemory) = self.stocks.insert(row) {
            return Err(LoadFault::NoMemory);
        }
        Ok(())
    }
}
