//! What the replies hold: the values that the terminals' screens show. A reply is a plain
//! value, whose copy takes no memory. Its fields stand so that no bytes are lost between them.
use crate::tables::rows::Address;
use crate::transactions::requests::Ticket;
use crate::values::few::{Few, Filler};
use crate::values::text::Text;
use tpcc_money::{Cents, Moment, Rate};

/// The brand of a line (2.4.2.2): B where I_DATA and S_DATA both contain ORIGINAL, else G.
#[derive(Clone, Copy)]
pub enum Brand {
    /// B.
    Original,
    /// G.
    Generic,
}

/// A line of an accepted order (2.4.3.3).
#[derive(Clone, Copy)]
pub struct EnteredLine {
    /// OL_NUMBER: the line's place in the request, from 1.
    pub number: u32,
    /// OL_SUPPLY_W_ID.
    pub supply: u32,
    /// OL_I_ID.
    pub item: u32,
    /// OL_QUANTITY.
    pub quantity: u32,
    /// I_PRICE.
    pub price: Cents,
    /// OL_AMOUNT.
    pub amount: Cents,
    /// S_QUANTITY as it stands after this line.
    pub stock: u32,
    /// I_NAME.
    pub name: Text<24>,
    /// The brand of the line's item and stock.
    pub brand: Brand,
}

impl Filler for EnteredLine {
    ghost use Rattle.std.specs.Prelude.{[], pos};
    ghost use Rattle.tpcc_rows.specs.declared.transactions.replies.Brand.{Brand};

    ghost filler = { record {
      number = 0;
      supply = 0;
      item = 0;
      quantity = 0;
      price = pos 0;
      amount = pos 0;
      stock = 0;
      name = [];
      brand = Brand.Generic;
    } };

    fn filler() -> Self {
        EnteredLine {
            number: 0,
            supply: 0,
            item: 0,
            quantity: 0,
            price: Cents::new(0),
            amount: Cents::new(0),
            stock: 0,
            name: Text::empty(),
            brand: Brand::Generic,
        }
    }
}

/// The lines of an accepted order, at most 15.
pub type EnteredLines = Few<EnteredLine, 15>;

/// An order that was entered (2.4.3.3).
#[derive(Clone, Copy)]
pub struct AcceptedOrder {
    /// W_ID.
    pub warehouse: u32,
    /// D_ID.
    pub district: u32,
    /// C_ID.
    pub customer: u32,
    /// C_LAST.
    pub last: Text<16>,
    /// C_CREDIT.
    pub credit: Text<2>,
    /// C_DISCOUNT.
    pub discount: Rate,
    /// O_ID.
    pub order: u32,
    /// O_OL_CNT.
    pub line_count: u32,
    /// W_TAX.
    pub warehouse_tax: Rate,
    /// D_TAX.
    pub district_tax: Rate,
    /// O_ENTRY_D.
    pub entry_date: Moment,
    /// The order's total after discount and taxes, rounded half up to a cent.
    pub total: Cents,
    /// The lines, in the order of the request.
    pub lines: EnteredLines,
}

/// An order with an unused item, which was rolled back (2.4.3.4).
#[derive(Clone, Copy)]
pub struct RolledBackOrder {
    /// W_ID.
    pub warehouse: u32,
    /// D_ID.
    pub district: u32,
    /// C_ID.
    pub customer: u32,
    /// C_LAST.
    pub last: Text<16>,
    /// C_CREDIT.
    pub credit: Text<2>,
    /// The O_ID that the order would have had.
    pub order: u32,
}

/// What became of a New-Order request.
#[derive(Clone, Copy)]
pub enum Entered {
    /// All its items are there, and the order was entered.
    Accepted(AcceptedOrder),
    /// Some line's item is unused: no row was changed (2.4.2.3).
    RolledBack(RolledBackOrder),
}

/// A payment that was made (2.5.3.3); all values are those after it.
#[derive(Clone, Copy)]
pub struct Paid {
    /// W_ID: the warehouse that was paid.
    pub warehouse: u32,
    /// D_ID: the district that was paid.
    pub district: u32,
    /// C_W_ID.
    pub customer_warehouse: u32,
    /// C_D_ID.
    pub customer_district: u32,
    /// C_ID of the customer whom the request names.
    pub customer: u32,
    /// H_DATE.
    pub date: Moment,
    /// H_AMOUNT.
    pub amount: Cents,
    /// W_STREET_1 to W_ZIP.
    pub warehouse_address: Address,
    /// D_STREET_1 to D_ZIP.
    pub district_address: Address,
    /// C_FIRST.
    pub first: Text<16>,
    /// C_MIDDLE.
    pub middle: Text<2>,
    /// C_LAST.
    pub last: Text<16>,
    /// C_STREET_1 to C_ZIP.
    pub customer_address: Address,
    /// C_PHONE.
    pub phone: Text<16>,
    /// C_SINCE.
    pub since: Moment,
    /// C_CREDIT.
    pub credit: Text<2>,
    /// C_CREDIT_LIM.
    pub credit_limit: Cents,
    /// C_BALANCE, after the payment.
    pub balance: Cents,
    /// C_DISCOUNT.
    pub discount: Rate,
    /// The first 200 bytes of C_DATA, where the credit is bad.
    pub information: Option<Text<200>>,
}

/// A line of a customer's last order (2.6.3.3).
#[derive(Clone, Copy)]
pub struct StatusLine {
    /// OL_SUPPLY_W_ID.
    pub supply: u32,
    /// OL_I_ID.
    pub item: u32,
    /// OL_QUANTITY.
    pub quantity: u32,
    /// OL_AMOUNT.
    pub amount: Cents,
    /// OL_DELIVERY_D: None until the order is delivered.
    pub delivered: Option<Moment>,
}

impl Filler for StatusLine {
    ghost use Rattle.std.specs.Prelude.{None, pos};

    ghost filler = { record { supply = 0; item = 0; quantity = 0; amount = pos 0; delivered = None } };

    fn filler() -> Self {
        StatusLine {
            supply: 0,
            item: 0,
            quantity: 0,
            amount: Cents::new(0),
            delivered: None,
        }
    }
}

/// The lines of a customer's last order, at most 15.
pub type StatusLines = Few<StatusLine, 15>;

/// A customer's last order (2.6.3.3).
#[derive(Clone, Copy)]
pub struct LastOrder {
    /// O_ID.
    pub order: u32,
    /// O_ENTRY_D.
    pub entry_date: Moment,
    /// O_CARRIER_ID: None until the order is delivered.
    pub carrier: Option<u32>,
    /// The lines, in ascending order of OL_NUMBER.
    pub lines: StatusLines,
}

/// What Order-Status answers (2.6.3.3).
#[derive(Clone, Copy)]
pub struct Status {
    /// W_ID.
    pub warehouse: u32,
    /// D_ID.
    pub district: u32,
    /// C_ID of the customer whom the request names.
    pub customer: u32,
    /// C_FIRST.
    pub first: Text<16>,
    /// C_MIDDLE.
    pub middle: Text<2>,
    /// C_LAST.
    pub last: Text<16>,
    /// C_BALANCE.
    pub balance: Cents,
    /// None where the customer has no order.
    pub order: Option<LastOrder>,
}

/// What Stock-Level answers (2.8.3.3).
#[derive(Clone, Copy)]
pub struct Level {
    /// W_ID.
    pub warehouse: u32,
    /// D_ID.
    pub district: u32,
    /// The threshold of the request.
    pub threshold: u32,
    /// How many distinct items of the last 20 orders are below the threshold.
    pub low_stock: u32,
}

/// One district of a ticket, run (2.7.4.2).
#[derive(Clone, Copy)]
pub struct DistrictDelivery {
    /// The ticket whose district was run.
    pub ticket: Ticket,
    /// The moment of the run.
    pub at: Moment,
    /// D_ID, 1 to 10.
    pub district: u32,
    /// The order that was delivered; None where the district had no NEW-ORDER row and was skipped.
    pub order: Option<u32>,
}

/// What a Deliver request answers.
#[derive(Clone, Copy)]
pub enum Delivery {
    /// A district of the first ticket was run.
    District(DistrictDelivery),
    /// No ticket was queued, and no row was changed.
    NoneQueued,
}

/// The ten runs of one ticket, as the delivery result log has them (2.7.2.2).
#[derive(Clone, Copy)]
pub struct Delivered {
    /// The ticket of the tenth run.
    pub ticket: Ticket,
    /// The moment of the tenth run.
    pub at: Moment,
    /// The orders of districts 1 to 10; None where a district was skipped.
    pub orders: [Option<u32>; 10],
}

/// What an accepted request is answered.
#[derive(Clone, Copy)]
pub enum Reply {
    /// Of a New-Order.
    Entered(Entered),
    /// Of a Payment.
    Paid(Paid),
    /// Of an Order-Status.
    Status(Status),
    /// Of a Stock-Level.
    Level(Level),
    /// Of a Delivery: the ticket that was queued.
    Queued(Ticket),
    /// Of a Deliver: what its run did.
    Delivery(Delivery),
}
