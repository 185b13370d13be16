//! How large the tables start.
ghost use Rattle.std.specs.Prelude.{◌≡◌, ◌≤◌, ◌↔◌, IfOk, IsErrOf, true, false};
ghost use Rattle.tpcc_population.specs.Regular.{IsScale, are_customers};
ghost use Rattle.tpcc_rows.specs.Layout.{delivered_orders, is_delivered};
ghost use Rattle.tpcc_rows.specs.Ranges.{is_within};
ghost use Rattle.tpcc_rows.specs.declared.limits.TheConstants.{GREATEST_ITEM, GREATEST_WAREHOUSE};
ghost use Rattle.tpcc_population.specs.declared.scale.TheConstants.{LEAST_ITEMS};

use std::marker::Model;
use thiserror::Error;
use tpcc_rows::limits::{GREATEST_CUSTOMER, GREATEST_ITEM, GREATEST_WAREHOUSE};

/// The fewest customers of a district; their number is a multiple of 10.
pub const LEAST_CUSTOMERS: u32 = 10;

/// The fewest items.
pub const LEAST_ITEMS: u32 = 100;

/// Why there is no such scale. The text is the program's line on standard error.
#[derive(Clone, Copy, Debug, PartialEq, Eq, Error)]
pub enum ScaleFault {
    /// Not 1 to 100 warehouses.
    #[error("fault 1 Warehouses")]
    Warehouses,
    /// Not 10 to 3,000 customers of each district, or no multiple of 10.
    #[error("fault 2 Customers")]
    Customers,
    /// Not 100 to 100,000 items.
    #[error("fault 3 Items")]
    Items,
}

/// Warehouses, customers of each district and items.
#[derive(Clone, Copy, Debug)]
pub struct Scale {
    /// 1 to 100.
    warehouses: u32,
    /// Of each district: 10 to 3,000, by tens.
    customers: u32,
    /// 100 to 100,000.
    items: u32,
}

impl Model for Scale {
    ghost use Rattle.tpcc_rows.specs.Layout.{Scale as Sizes};
    ghost use Rattle.tpcc_population.specs.Regular.{IsScale};

    ghost Value = { Sizes };

    ghost view = { λ s. record { warehouses = s.warehouses; customers = s.customers; items = s.items } };

    ghost inverse = { λ v. record { warehouses = v.warehouses; customers = v.customers; items = v.items } };

    ghost invariant = { λ s.
        IsScale (record {
          warehouses = s.warehouses;
          customers = s.customers;
          items = s.items;
        }) };
}

impl Scale {
    /// A scale of 1 to 100 warehouses, 10 to 3,000 customers by tens, 100 to 100,000 items.
    pub fn new(warehouses: u32, customers: u32, items: u32) -> Result<Scale, ScaleFault>
        ensures ok { IfOk result (λ s. s
            ≡ record { warehouses = warehouses; customers = customers; items = items }) }
        ensures warehouses { IsErrOf result ScaleFault.Warehouses
            ↔ (is_within 1 GREATEST_WAREHOUSE warehouses ≡ false) }
        ensures customers { IsErrOf result ScaleFault.Customers
            ↔ ((is_within 1 GREATEST_WAREHOUSE warehouses ≡ true)
            × (are_customers customers ≡ false)) }
        ensures items { IsErrOf result ScaleFault.Items
            ↔ ((is_within 1 GREATEST_WAREHOUSE warehouses ≡ true)
            × (are_customers customers ≡ true)
            × (is_within LEAST_ITEMS GREATEST_ITEM items ≡ false)) }
    {
        if warehouses < 1 || warehouses > GREATEST_WAREHOUSE {
            return Err(ScaleFault::Warehouses);
        }
        if customers < LEAST_CUSTOMERS || customers > GREATEST_CUSTOMER || customers % 10 != 0 {
            return Err(ScaleFault::Customers);
        }
        if items < LEAST_ITEMS || items > GREATEST_ITEM {
            return Err(ScaleFault::Items);
        }
        Ok(Scale {
            warehouses,
            customers,
            items,
        })
    }

    /// W: the warehouses, each of ten districts.
    pub fn warehouses(&self) -> u32
        ensures value { result ≡ self.now.warehouses }
        ensures scale { IsScale self.now }
    {
        self.warehouses
    }

    /// The customers of each district, and its orders.
    pub fn customers(&self) -> u32
        ensures value { result ≡ self.now.customers }
        ensures scale { IsScale self.now }
    {
        self.customers
    }

    /// The items, each with a stock row in every warehouse.
    pub fn items(&self) -> u32
        ensures value { result ≡ self.now.items }
        ensures scale { IsScale self.now }
    {
        self.items
    }

    /// How many orders of a district are delivered: the first seven of each ten.
    pub fn delivered_orders(&self) -> u32
        ensures value { result ≡ delivered_orders self.now }
        ensures within { result ≤ self.now.customers }
    {
        7 * self.customers() / 10
    }

    /// Whether the order of this number is delivered.
    pub fn is_delivered(&self, order: u32) -> bool
        ensures delivered { result ≡ is_delivered self.now order }
    {
        order <= self.delivered_orders()
    }
}
