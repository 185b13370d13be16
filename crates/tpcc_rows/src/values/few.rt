//! Short lists, which lie in the value itself.
ghost use Rattle.std.specs.Prelude.{◌≡◌, ◌<◌, ◌≤◌, ◌++◌, ◌∷◌, [], length};
ghost use Rattle.tpcc_rows.specs.declared.limits.TheConstants.{MOST_PLACES};

use std::alloc::AllocError;
use std::marker::Model;

/// A value for places that are not used.
pub trait Filler: Copy {
    /// The value.
    ghost filler: { Self };

    /// That value; nothing shows it.
    fn filler() -> Self
        ensures filler { result ≡ filler };
}

/// At most `N` values, seen as their list; `N` is at most 65,535.
#[derive(Copy)]
pub struct Few<T: Filler, const N: usize> {
    /// The values, and blanks behind them, so that equal lists have equal fields.
    items: [T; N],
    /// How many of them are values.
    len: u16,
}

impl<T: Filler, const N: usize> Model for Few<T, N> {
    ghost use Rattle.std.specs.Prelude.{List};
    ghost use Rattle.tpcc_rows.specs.Internal.FewView.{IsFew, used_values, fields_of, gives_back};

    ghost Value = { List T };

    ghost view = { used_values };

    ghost invariant = { IsFew T.filler N };

    ghost inverse = { fields_of T.filler N };

    ghost inverse_ok = { gives_back T.filler N };
}

impl<T: Filler, const N: usize> Clone for Few<T, N> {
    fn clone(&self) -> Result<Self, AllocError> {
        Ok(*self)
    }
}

impl<T: Filler, const N: usize> Few<T, N> {
    /// None.
    pub fn empty() -> Few<T, N>
        ensures none { result ≡ [] }
    {
        Few {
            items: [T::filler(); N],
            len: 0,
        }
    }

    /// How many there are.
    pub fn len(&self) -> usize
        ensures length { result ≡ length self.now }
        ensures fits { result ≤ N }
    {
        usize::from(self.len)
    }

    /// All of them, in their order.
    pub fn as_slice(&self) -> &[T]
        ensures items { result.now ≡ self.now }
    {
        &self.items[..usize::from(self.len)]
    }

    /// One more at the end.
    pub fn push(&mut self, item: T)
        requires short { N ≤ MOST_PLACES }
        requires room { length self.old < N }
        ensures pushed { self.new ≡ self.old ++ item ∷ [] }
    {
        self.items[usize::from(self.len)] = item;
        self.len += 1;
    }
}
