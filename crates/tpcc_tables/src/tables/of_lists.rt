//! Tables of rows that are well-keyed already, such as those of an initial population.
ghost use Rattle.std.specs.Prelude.{◌≡◌, IfOk};
ghost use Rattle.tpcc_rows.specs.WellKeyed.{IsWellKeyed};
ghost use Rattle.tpcc_tables.specs.DistrictVecs.{listed};

use super::Tables;
use crate::lists::Lists;
use crate::sums::Sums;
use std::alloc::Global;
use tpcc_rows::NoMemory;
use tpcc_storage::Names;

impl Tables {
    /// The tables of well-keyed rows. Refused only for want of memory.
    pub fn of(lists: Lists, alloc: Global) -> Result<Tables, NoMemory>
        requires keyed { IsWellKeyed (listed lists) }
        ensures rows { IfOk result (λ tables. tables.rows ≡ listed lists) }
    {
        let sums = Sums::of(&lists, alloc)?;
        let Lists {
            warehouses,
            districts,
            customers,
            histories,
            orders,
            order_lines,
            new_orders,
            items,
            stocks,
        } = lists;
        let names = Names::of(customers.as_slice(), alloc)?;
        Ok(Tables {
            warehouses,
            districts,
            customers,
            names,
            histories,
            orders,
            order_lines,
            new_orders,
            items,
            stocks,
            sums,
            are_open: false,
            order_room: 0,
            payment_room: 0,
        })
    }
}
