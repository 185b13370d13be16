//! The writes of a payment (2.5.2.2).
ghost use Rattle.std.specs.Prelude.{◌≡◌, ◌+◌, ◌<◌, ◌^◌, ◌+ℤ◌, ◌-ℤ◌, FitsSigned, find, true, Some, vec_len, vec_capacity, [], ◌∷◌, ◌++◌, refl};
ghost use Rattle.std.specs.Int.{w64};
ghost use Rattle.tpcc_rows.specs.declared.tables.rows.WarehouseRow.{WarehouseRow};
ghost use Rattle.tpcc_rows.specs.declared.tables.rows.DistrictRow.{DistrictRow};
ghost use Rattle.tpcc_rows.specs.declared.tables.rows.CustomerRow.{CustomerRow};
ghost use Rattle.tpcc_rows.specs.Lists.{updated, is_ascending};
ghost use Rattle.tpcc_rows.specs.Tables.{is_warehouse, is_district, is_customer, warehouse_key, district_key, customer_key};
ghost use Rattle.tpcc_tables.specs.Writes.{richer_warehouse, richer_district, customer_after_payment};
ghost use Rattle.tpcc_tables.specs.Internal.Writes.{IsPayable};

use tpcc_money::Cents;
use tpcc_rows::{
    CustomerKey, CustomerRow, DistrictKey, DistrictRow, HistoryRow, Text, WarehouseKey,
    WarehouseRow,
};
use tpcc_storage::{KeyedRows, RowChange};

/// What is paid into a warehouse and a district.
#[derive(Drop)]
struct PaidAmount {
    amount: Cents,
}

impl RowChange<WarehouseRow> for PaidAmount {
    ghost changed = { λ receipt. richer_warehouse receipt.amount };

    ghost fits = { λ receipt w. FitsSigned w64 (w.ytd +ℤ receipt.amount) };

    ghost keeps_key = { λ receipt w. refl };

    fn apply(&self, row: &mut WarehouseRow) {
        row.ytd = row.ytd.plus(self.amount);
    }
}

impl RowChange<DistrictRow> for PaidAmount {
    ghost changed = { λ receipt. richer_district receipt.amount };

    ghost fits = { λ receipt d. FitsSigned w64 (d.ytd +ℤ receipt.amount) };

    ghost keeps_key = { λ receipt d. refl };

    fn apply(&self, row: &mut DistrictRow) {
        row.ytd = row.ytd.plus(self.amount);
    }
}

/// W_YTD rises by an amount.
pub fn pay_warehouse(rows: &mut KeyedRows<WarehouseRow>, warehouse: u32, amount: Cents)
    requires keyed { is_ascending warehouse_key rows.old.items ≡ true }
    requires fits { (w : WarehouseRow)
        → find (is_warehouse warehouse) rows.old.items ≡ Some w → FitsSigned w64 (w.ytd +ℤ amount) }
    ensures { rows.new.items
        ≡ updated (is_warehouse warehouse) (richer_warehouse amount) rows.old.items }
{
    rows.change(&WarehouseKey { warehouse }, &PaidAmount { amount });
}

/// D_YTD rises by an amount.
pub fn pay_district(rows: &mut KeyedRows<DistrictRow>, warehouse: u32, district: u32, amount: Cents)
    requires keyed { is_ascending district_key rows.old.items ≡ true }
    requires fits { (d : DistrictRow) → find (is_district warehouse district) rows.old.items
        ≡ Some d → FitsSigned w64 (d.ytd +ℤ amount) }
    ensures { rows.new.items
        ≡ updated (is_district warehouse district) (richer_district amount) rows.old.items }
{
    let key = DistrictKey {
        warehouse,
        district,
    };
    rows.change(&key, &PaidAmount { amount });
}

/// What a customer pays, with C_DATA where it changes.
#[derive(Drop)]
struct CustomerPayment {
    amount: Cents,
    information: Option<Text<500>>,
}

impl RowChange<CustomerRow> for CustomerPayment {
    ghost changed = { λ charge. customer_after_payment charge.amount charge.information };

    ghost fits = { λ charge. IsPayable charge.amount };

    ghost keeps_key = { λ charge c. refl };

    fn apply(&self, row: &mut CustomerRow) {
        let balance = row.balance.minus(self.amount);
        let ytd_payment = row.ytd_payment.plus(self.amount);
        let payment_count = row.payment_count + 1;
        row.balance = balance;
        row.ytd_payment = ytd_payment;
        row.payment_count = payment_count;
        if let Some(information) = self.information {
            row.information = information;
        }
    }
}

/// C_BALANCE falls by an amount, C_YTD_PAYMENT rises by it, and the payment is counted; C_DATA changes where it is given.
pub fn pay_customer(
    rows: &mut KeyedRows<CustomerRow>,
    warehouse: u32,
    district: u32,
    customer: u32,
    amount: Cents,
    information: Option<Text<500>>,
)
    requires keyed { is_ascending customer_key rows.old.items ≡ true }
    requires fits { (c : CustomerRow) → find (is_customer warehouse district customer)
        rows.old.items ≡ Some c → IsPayable amount c }
    ensures { rows.new.items ≡ updated (is_customer warehouse district customer)
        (customer_after_payment amount information) rows.old.items }
{
    let key = CustomerKey {
        warehouse,
        district,
        customer,
    };
    let charge = CustomerPayment {
        amount,
        information,
    };
    rows.change(&key, &charge);
}

/// One more row, for which there is room.
pub fn append_history(rows: &mut Vec<HistoryRow>, row: HistoryRow)
    requires { vec_len rows.old < vec_capacity rows.old }
    ensures { rows.new.items ≡ rows.old.items ++ row ∷ [] }
{
    rows.push(row).unwrap();
}
