//! The limits of the columns (1.3, 4.2.2), each once; the clauses and `specs/Ranges.antt` cite them.

/// W_ID.
pub const GREATEST_WAREHOUSE: u32 = 100;

/// D_ID: each warehouse has ten districts (1.2.1).
pub const GREATEST_DISTRICT: u32 = 10;

/// C_ID.
pub const GREATEST_CUSTOMER: u32 = 3_000;

/// I_ID.
pub const GREATEST_ITEM: u32 = 100_000;

/// O_ID, and D_NEXT_O_ID, which no order takes once it is there.
pub const GREATEST_ORDER: u32 = 9_999_999;

/// O_CARRIER_ID.
pub const GREATEST_CARRIER: u32 = 10;

/// C_PAYMENT_CNT, C_DELIVERY_CNT, S_ORDER_CNT and S_REMOTE_CNT.
pub const GREATEST_COUNT: u32 = 999_999_999;

/// S_YTD.
pub const GREATEST_STOCK_YTD: u32 = 99_999_999;

/// W_YTD, D_YTD, C_BALANCE, C_YTD_PAYMENT and C_CREDIT_LIM, in cents: 9,999,999,999.99. A balance may be as far below zero.
pub const GREATEST_TOTAL: i64 = 999_999_999_999;

/// H_AMOUNT, in cents: 1.00 to 5,000.00 (2.5.1.3).
pub const LEAST_PAYMENT: i64 = 100;

/// See [`LEAST_PAYMENT`].
pub const GREATEST_PAYMENT: i64 = 500_000;

/// OL_AMOUNT and a row's H_AMOUNT, in cents: 9,999.99.
pub const GREATEST_LINE_AMOUNT: i64 = 999_999;

/// I_IM_ID.
pub const GREATEST_IMAGE: u32 = 10_000;

/// The tickets of Delivery requests that wait at most (2.7.2).
pub const MOST_TICKETS: usize = 1_000;

/// The greatest N of a `Text<N>` and of a `Few<T, N>`, whose lengths take 16 bits.
pub const MOST_PLACES: usize = 65_535;
