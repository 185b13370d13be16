//! The tables of an opening (4.3.3).
ghost use Rattle.std.specs.Prelude.{◌≡◌, IfOk};
ghost use Rattle.tpcc_rows.specs.Layout.{laid_out};
ghost use Rattle.tpcc_tables.specs.DistrictVecs.{listed};
ghost use Rattle.tpcc_population.specs.Opening.{opening_rows};

use crate::lists::{GoodsLists, HomeLists, OrderLists, join};
use crate::opening::Opening;
use crate::plain::PlainRules;
use crate::rules::RowRules;
use crate::seeded::SeededRules;
use crate::tables;
use std::alloc::Global;
use tpcc_rows::{NoMemory, recall};
use tpcc_storage::ByDistrict;
use tpcc_tables::{Lists, Tables};

/// The tables as they start: each row of the opening at its place. Refuses for want of memory alone.
pub fn fill(alloc: Global, opening: &Opening) -> Result<Tables, NoMemory>
    ensures rows { IfOk result (λ tables. tables.rows ≡ opening_rows opening.now) }
{
    match *opening {
        Opening::Plain { scale } => fill_by(alloc, PlainRules { scale }),
        Opening::Seeded {
            scale,
            seed,
            moment,
        } => fill_by(
            alloc,
            SeededRules {
                scale,
                seed,
                moment,
            },
        ),
    }
}

fn fill_by<R: RowRules>(alloc: Global, rules: R) -> Result<Tables, NoMemory>
    ensures rows { IfOk result
        (λ tables. tables.rows ≡ laid_out (R.sizes rules) (R.rules rules)) }
{
    let lists = all_lists(alloc, rules)?;
    // For the proof: the conditions hold of the opening.
    recall!(rules.is_sound());
    Tables::of(lists, alloc)
}

// ORDER-LINE comes first: while its rows stand twice, no others take memory yet.
fn all_lists<R: RowRules>(alloc: Global, rules: R) -> Result<Lists, NoMemory>
    ensures rows { IfOk result
        (λ lists. listed lists ≡ laid_out (R.sizes rules) (R.rules rules)) }
{
    let orders = order_lists(alloc, rules)?;
    let goods = goods_lists(alloc, rules)?;
    let homes = home_lists(alloc, rules)?;
    Ok(join(homes, orders, goods))
}

fn order_lists<R: RowRules>(alloc: Global, rules: R) -> Result<OrderLists, NoMemory>
    ensures orders { IfOk result
        (λ lists. lists.orders.rows ≡ (laid_out (R.sizes rules) (R.rules rules)).orders) }
    ensures lines { IfOk result
        (λ lists. lists.order_lines.rows
        ≡ (laid_out (R.sizes rules) (R.rules rules)).order_lines) }
    ensures new { IfOk result
        (λ lists. lists.new_orders.rows ≡ (laid_out (R.sizes rules) (R.rules rules)).new_orders) }
{
    // For the proof: the keys ascend.
    recall!(tables::is_keyed(rules));
    let order_lines = ByDistrict::from_sorted(tables::order_lines(alloc, rules)?, alloc)?;
    let orders = ByDistrict::from_sorted(tables::orders(alloc, rules)?, alloc)?;
    let new_orders = ByDistrict::from_sorted(tables::new_orders(alloc, rules)?, alloc)?;
    Ok(OrderLists {
        orders,
        order_lines,
        new_orders,
    })
}

fn home_lists<R: RowRules>(alloc: Global, rules: R) -> Result<HomeLists, NoMemory>
    ensures warehouses { IfOk result
        (λ lists. lists.warehouses.items ≡ (laid_out (R.sizes rules) (R.rules rules)).warehouses) }
    ensures districts { IfOk result
        (λ lists. lists.districts.items ≡ (laid_out (R.sizes rules) (R.rules rules)).districts) }
    ensures customers { IfOk result
        (λ lists. lists.customers.items ≡ (laid_out (R.sizes rules) (R.rules rules)).customers) }
    ensures histories { IfOk result
        (λ lists. lists.histories.items ≡ (laid_out (R.sizes rules) (R.rules rules)).histories) }
{
    Ok(HomeLists {
        warehouses: tables::warehouses(alloc, rules)?,
        districts: tables::districts(alloc, rules)?,
        customers: tables::customers(alloc, rules)?,
        histories: tables::histories(alloc, rules)?,
    })
}

fn goods_lists<R: RowRules>(alloc: Global, rules: R) -> Result<GoodsLists, NoMemory>
    ensures items { IfOk result
        (λ lists. lists.items.items ≡ (laid_out (R.sizes rules) (R.rules rules)).items) }
    ensures stocks { IfOk result
        (λ lists. lists.stocks.items ≡ (laid_out (R.sizes rules) (R.rules rules)).stocks) }
{
    Ok(GoodsLists {
        stocks: tables::stocks(alloc, rules)?,
        items: tables::items(alloc, rules)?,
    })
}
