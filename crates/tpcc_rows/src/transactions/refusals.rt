//! Why a request may be refused.
ghost use Rattle.std.specs.Prelude.{◌≡◌};
ghost use Rattle.tpcc_rows.specs.RefusalOrder.{refusal_number};

use crate::memory::NoMemory;
use thiserror::Error;

/// A column that would leave its range: first the counts, each at most 999,999,999, then the totals.
#[derive(Clone, Copy, Debug, PartialEq, Eq, Error)]
pub enum Field {
    /// C_PAYMENT_CNT.
    #[error("PaymentCount")]
    PaymentCount,
    /// C_DELIVERY_CNT.
    #[error("DeliveryCount")]
    DeliveryCount,
    /// S_ORDER_CNT.
    #[error("StockOrders")]
    StockOrders,
    /// S_REMOTE_CNT.
    #[error("RemoteOrders")]
    RemoteOrders,
    /// W_YTD, at most 9,999,999,999.99.
    #[error("WarehouseYtd")]
    WarehouseYtd,
    /// D_YTD, at most 9,999,999,999.99.
    #[error("DistrictYtd")]
    DistrictYtd,
    /// C_BALANCE, of either sign, at most 9,999,999,999.99 in size.
    #[error("Balance")]
    Balance,
    /// C_YTD_PAYMENT, at most 9,999,999,999.99.
    #[error("YtdPayment")]
    YtdPayment,
    /// S_YTD, at most 99,999,999.
    #[error("StockYtd")]
    StockYtd,
}

/// Why a request was refused, in the order of the tests. A refused request changes nothing and is not journaled.
#[derive(Clone, Copy, Debug, PartialEq, Eq, Error)]
pub enum Refusal {
    /// A warehouse of the request is in no WAREHOUSE row.
    #[error("NoWarehouse")]
    NoWarehouse,
    /// A district of the request is in no DISTRICT row.
    #[error("NoDistrict")]
    NoDistrict,
    /// No customer of that number, or none of that last name.
    #[error("NoCustomer")]
    NoCustomer,
    /// A New-Order has not 5 to 15 lines.
    #[error("LineCount")]
    LineCount,
    /// Some line's quantity is not 1 to 10.
    #[error("Quantity")]
    Quantity,
    /// Some line's supplying warehouse does not exist.
    #[error("NoSupply")]
    NoSupply,
    /// A Payment is not 1.00 to 5,000.00.
    #[error("Amount")]
    Amount,
    /// A carrier is not 1 to 10.
    #[error("Carrier")]
    Carrier,
    /// A threshold is not 10 to 20.
    #[error("Threshold")]
    Threshold,
    /// The journal holds so many entries of the purse's terminal, and the purse has made another number.
    #[error("Stranger {0}")]
    Stranger(u64),
    /// The journal holds 1,000,000,000 entries.
    #[error("JournalFull")]
    JournalFull,
    /// 1,000 tickets are queued.
    #[error("QueueFull")]
    QueueFull,
    /// D_NEXT_O_ID is 9,999,999.
    #[error("OrderNumbers")]
    OrderNumbers,
    /// A count would leave its range.
    #[error("Count {0}")]
    Count(Field),
    /// A total would leave its range.
    #[error("Total {0}")]
    Total(Field),
    /// A growth was refused.
    #[error("NoMemory")]
    NoMemory,
}

impl From<NoMemory> for Refusal {
    ghost use Rattle.tpcc_rows.specs.declared.transactions.refusals.Refusal.TheVariants as refusals;

    ghost from_gives = { λ _ refusal. refusal ≡ refusals.NoMemory };

    fn from(_refused: NoMemory) -> Self {
        Refusal::NoMemory
    }
}

impl Refusal {
    /// The refusal's number, 1 to 16: a smaller one is tested, and so named, first.
    pub fn number(self) -> u32
        ensures number { result ≡ refusal_number self }
    {
        match self {
            Refusal::NoWarehouse => 1,
            Refusal::NoDistrict => 2,
            Refusal::NoCustomer => 3,
            Refusal::LineCount => 4,
            Refusal::Quantity => 5,
            Refusal::NoSupply => 6,
            Refusal::Amount => 7,
            Refusal::Carrier => 8,
            Refusal::Threshold => 9,
            Refusal::Stranger(_) => 10,
            Refusal::JournalFull => 11,
            Refusal::QueueFull => 12,
            Refusal::OrderNumbers => 13,
            Refusal::Count(_) => 14,
            Refusal::Total(_) => 15,
            Refusal::NoMemory => 16,
        }
    }
}
