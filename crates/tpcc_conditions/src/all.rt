//! All conditions.
ghost use Rattle.std.specs.Prelude.{◌≡◌, ◌↔◌, ℕ, IfErr, OnOk, Some, None};
ghost use Rattle.tpcc_rows.specs.Conditions.{first_broken};
ghost use Rattle.tpcc_rows.specs.Tables.{Rows};
ghost use Rattle.tpcc_conditions.specs.Broken.{as_model};
ghost use Rattle.tpcc_conditions.specs.First.{IsConsistentOpening, first_broken_opening};

use crate::broken::Broken;
use crate::condition::{Condition, test};
use tpcc_population::Scale;
use tpcc_tables::Tables;

#[tactic(auto, unfolding(tpcc_rows::specs::Conditions::first_broken))]
fn test_all(tables: &Tables) -> Result<(), Broken>
    ensures held { OnOk result (first_broken tables.now.rows ≡ None) }
    ensures broken { IfErr result (λ b. first_broken tables.now.rows ≡ Some (as_model b)) }
{
    test(tables, Condition::One)?;
    test(tables, Condition::Two)?;
    test(tables, Condition::Three)?;
    test(tables, Condition::Four)?;
    test(tables, Condition::Five)?;
    test(tables, Condition::Six)?;
    test(tables, Condition::Seven)?;
    test(tables, Condition::Eight)?;
    test(tables, Condition::Nine)?;
    test(tables, Condition::Ten)?;
    test(tables, Condition::Twelve)
}

/// Tests the conditions 3.3.2.1 to 3.3.2.10 and 3.3.2.12 over all rows. `Err` names the first one
/// that does not hold, in the order of their numbers, at its first key. Takes no memory, and looks
/// at each row a few times: the tables keep the sums of each key.
pub fn check(tables: &Tables) -> Result<(), Broken>
    ensures held { OnOk result (first_broken tables.now.rows ≡ None) }
    ensures broken { IfErr result (λ b. first_broken tables.now.rows ≡ Some (as_model b)) }
{
    test_all(tables)
}

/// What `check` tests of an opening at a scale, and 3.3.2.11 last: in each district 7/10 as many
/// orders as customers are delivered. The transactions do not keep that one.
pub fn check_opening(tables: &Tables, scale: Scale) -> Result<(), Broken>
    ensures held { OnOk result (first_broken_opening scale.customers tables.now.rows ≡ None) }
    ensures broken { IfErr result
        (λ b. first_broken_opening scale.customers tables.now.rows ≡ Some (as_model b)) }
{
    test_all(tables)?;
    test(tables, Condition::Eleven(scale.customers()))
}

/// No condition of an opening is named as broken exactly where conditions 1 to 12 (3.3.2) hold of it: what
/// [`nothing_broken`](tpcc_laws::laws::nothing_broken) says of `check`, said of `check_opening`.
pub fn nothing_broken_at_opening()
    ensures { (customers : ℕ) (rows : Rows)
        → (first_broken_opening customers rows ≡ None) ↔ IsConsistentOpening customers rows }
{}
