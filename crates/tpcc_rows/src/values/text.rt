//! Short texts of printable ASCII, which lie in the value itself.
ghost use Rattle.std.specs.Prelude.{◌≡◌, ◌==◌, ◌<◌, ◌≤◌, ◌↔◌, ◌++◌, ◌∷◌, IfOk, IsErrOf, IsTrue, length, take, drop, ◌+◌, [], true, false};
ghost use Rattle.std.specs.List.{list_all};
ghost use Rattle.std.specs.Cmp.Lexicographic.{pointwise};
ghost use Rattle.std.specs.Cmp.Rules.{comparing};
ghost use Rattle.std.proofs.Common.{rules};
ghost use Rattle.tpcc_rows.specs.Printable.{is_printable};
ghost use Rattle.tpcc_rows.specs.declared.limits.TheConstants.{MOST_PLACES};

use std::marker::Model;
use thiserror::Error;

/// Why bytes are no text, in the order of the tests.
#[derive(Clone, Copy, Debug, PartialEq, Eq, Error)]
pub enum TextFault {
    /// More bytes than the bound.
    #[error("TooLong")]
    TooLong,
    /// A byte outside 32 to 126.
    #[error("NotAscii")]
    NotAscii,
}

/// A text of a column: at most `N` bytes of 32 to 126, seen as their list; `N` is at most 65,535.
///
/// It is a plain value: a copy takes no memory and can't be refused.
#[derive(Clone, Copy)]
pub struct Text<const N: usize> {
    /// The text, and zeros behind it, so that equal texts have equal fields.
    bytes: [u8; N],
    /// How many of them are text.
    len: u16,
}

impl<const N: usize> Model for Text<N> {
    ghost use Rattle.std.specs.Prelude.{ℕ, List};
    ghost use Rattle.tpcc_rows.specs.Internal.TextView.{IsText, used_bytes, fields_of, gives_back};

    ghost Value = { List ℕ };

    ghost view = { used_bytes };

    ghost invariant = { IsText N };

    ghost inverse = { fields_of N };

    ghost inverse_ok = { gives_back N };
}

fn is_plain(byte: u8) -> bool
    ensures { result ≡ is_printable byte }
{
    32 <= byte && byte <= 126
}

/// Whether all bytes may stand in a text.
pub fn are_plain(bytes: &[u8]) -> bool
    ensures plain { result ≡ list_all is_printable bytes.now }
{
    bytes.iter().all(|byte| is_plain(*byte))
}

// The bytes at `start`, in place of as many others.
fn write_at(cells: &mut [u8], start: usize, bytes: &[u8])
    requires { start + length bytes.now ≤ length cells.old }
    ensures { cells.new
        ≡ (take start cells.old ++ bytes.now) ++ drop (start + length bytes.now) cells.old }
{
    cells[start..start + bytes.len()].copy_from_slice(bytes);
}

impl<const N: usize> Text<N> {
    /// A copy of the bytes as a text.
    pub fn new(bytes: &[u8]) -> Result<Text<N>, TextFault>
        requires short { N ≤ MOST_PLACES }
        ensures ok { IfOk result (λ t. t ≡ bytes.now) }
        ensures too_long { IsErrOf result TextFault.TooLong ↔ (N < length bytes.now) }
        ensures not_ascii { IsErrOf result TextFault.NotAscii
            ↔ ((length bytes.now ≤ N) × (list_all is_printable bytes.now ≡ false)) }
    {
        if N < bytes.len() {
            return Err(TextFault::TooLong);
        }
        if !are_plain(bytes) {
            return Err(TextFault::NotAscii);
        }
        Ok(Text::of(bytes))
    }

    /// The text of at most `N` bytes that are all 32 to 126.
    pub fn of(bytes: &[u8]) -> Text<N>
        requires short { N ≤ MOST_PLACES }
        requires fits { length bytes.now ≤ N }
        requires printable { list_all is_printable bytes.now ≡ true }
        ensures text { result ≡ bytes.now }
    {
        let mut cells = [0u8; N];
        cells[..bytes.len()].copy_from_slice(bytes);
        Text {
            bytes: cells,
            len: bytes.len() as u16,
        }
    }

    /// The text with no byte.
    pub fn empty() -> Text<N>
        ensures text { result ≡ [] }
    {
        Text {
            bytes: [0u8; N],
            len: 0,
        }
    }

    /// More bytes of 32 to 126 at the end.
    pub fn extend(&mut self, bytes: &[u8])
        requires short { N ≤ MOST_PLACES }
        requires room { length self.old + length bytes.now ≤ N }
        requires printable { list_all is_printable bytes.now ≡ true }
        ensures extended { self.new ≡ self.old ++ bytes.now }
    {
        write_at(&mut self.bytes, usize::from(self.len), bytes);
        self.len += bytes.len() as u16;
    }

    /// One more byte of 32 to 126 at the end.
    pub fn push(&mut self, byte: u8)
        requires short { N ≤ MOST_PLACES }
        requires room { length self.old < N }
        requires printable { is_printable byte ≡ true }
        ensures pushed { self.new ≡ self.old ++ byte ∷ [] }
    {
        self.extend(&[byte]);
    }

    /// More bytes of 32 to 126 at the end, as many of them as there is room for.
    pub fn fill(&mut self, bytes: &[u8])
        requires short { N ≤ MOST_PLACES }
        requires printable { list_all is_printable bytes.now ≡ true }
        ensures filled { self.new ≡ take N (self.old ++ bytes.now) }
    {
        let count = bytes.len().min(N - self.len());
        self.extend(&bytes[..count]);
    }

    /// The bytes of the text.
    pub fn bytes(&self) -> &[u8]
        ensures bytes { result.now ≡ self.now }
        ensures printable { list_all is_printable self.now ≡ true }
        ensures fits { length self.now ≤ N }
    {
        &self.bytes[..usize::from(self.len)]
    }

    /// How many bytes the text has.
    pub fn len(&self) -> usize
        ensures length { result ≡ length self.now }
        ensures fits { result ≤ N }
    {
        usize::from(self.len)
    }

    /// Whether the text has no byte.
    pub fn is_empty(&self) -> bool
        ensures empty { IsTrue result ↔ (self.now ≡ []) }
    {
        self.bytes().is_empty()
    }
}

impl<const N: usize> PartialEq for Text<N> {
    ghost eq = { pointwise ◌==◌ };

    ghost laws = { Prim.search (comparing, rules) };

    fn eq(&self, other: &Self) -> bool {
        self.bytes() == other.bytes()
    }
}

impl<const N: usize> Eq for Text<N> {
    ghost laws = { Prim.search (comparing, rules) };
}
