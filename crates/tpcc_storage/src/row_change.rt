//! Changes of a row that leave its key.
ghost use Rattle.std.specs.Prelude.{◌≡◌};

use crate::keyed_row::KeyedRow;

/// A change of one row of a table, which leaves its key as it is.
pub trait RowChange<T: KeyedRow> {
    /// The row after it.
    ghost changed: { Self → T → T };

    /// What it asks of the row.
    ghost fits: { Self → T → Type 0 };

    /// Changes the row.
    fn apply(&self, row: &mut T)
        requires { fits self.now row.old }
        ensures { row.new ≡ changed self.now row.old };

    /// The key stays.
    ghost keeps_key: { (change : Self) (row : T) → T.key (changed change row) ≡ T.key row };
}
