//! The stream of draws that belongs to one row of one table.
ghost use Rattle.std.specs.Prelude.{◌≡◌, ◌+◌, ◌-◌, ◌<◌, ◌≤◌, ◌*◌, ◌%◌, ◌^◌, IsPermutation, length, IfOk, OnErr, bit_or, true};
ghost use Rattle.std.specs.List.{list_all, range_with_len};
ghost use Rattle.tpcc_rows.specs.Printable.{is_printable};
ghost use Rattle.tpcc_draws.specs.Draws.{answers, generator_of, between, permutation, nurand, a_string, n_string, drawn_text};
ghost use Rattle.tpcc_draws.specs.Cards.{cards, deck};
ghost use Rattle.tpcc_draws.specs.declared.stream.TheConstants.{GREATEST_DRAW};
ghost use Rattle.tpcc_rows.specs.declared.limits.TheConstants.{MOST_PLACES};

use crate::cards::{Card, all_cards};
use rand::RngExt;
use rand::seq::SliceRandom;
use rand_pcg::Lcg128Xsl64;
use std::alloc::{AllocError, Allocator};
use std::marker::Model;
use tpcc_rows::{NoMemory, Text};

/// The greatest number that is drawn, and how many are drawn into an order at most.
pub const GREATEST_DRAW: u32 = 1_000_000;

/// The draws of one row, in the order of its columns. A call that is refused memory has drawn
/// nothing; a permutation alone takes any.
#[derive(Drop)]
pub struct Stream {
    /// As the last draw left it.
    generator: Lcg128Xsl64,
}

impl Model for Stream {
    ghost use Rattle.rand_pcg.specs.Lcg.{Lcg};

    ghost Value = { Lcg };

    ghost view = { λ s. s.generator };
}

impl Stream {
    /// The stream of a row of a table: the same for the same three numbers, and another for any
    /// other table or row.
    pub fn of(seed: u64, table: u32, row: u64) -> Stream
        ensures stream { result ≡ generator_of seed table row }
    {
        let stream = u128::from(table) * (1u128 << 64) + u128::from(row);
        Stream {
            generator: Lcg128Xsl64::new(u128::from(seed), stream),
        }
    }

    /// A number from `low` to `high`, both included, each as likely as the other.
    #[tactic(auto, unfolding(crate::specs::Draws::between))]
    pub fn between(&mut self, low: u32, high: u32) -> u32
        requires order { low ≤ high }
        requires small { high ≤ GREATEST_DRAW }
        ensures least { low ≤ result }
        ensures most { result ≤ high }
        ensures drawn { (result, answers self.new) ≡ between low high (answers self.old) }
    {
        self.generator.random_range(low..=high)
    }

    /// A number from `low` to `high` that some values are drawn for more often than others
    /// (2.1.6): `reach` is the standard's A, `constant` its C.
    pub fn nurand(&mut self, reach: u32, constant: u32, low: u32, high: u32) -> u32
        requires order { low ≤ high }
        requires small { high ≤ GREATEST_DRAW }
        requires reach { reach ≤ GREATEST_DRAW }
        requires constant { constant ≤ GREATEST_DRAW }
        ensures least { low ≤ result }
        ensures most { result ≤ high }
        ensures drawn { (result, answers self.new)
            ≡ nurand reach constant low high (answers self.old) }
    {
        let a = self.between(0, reach);
        let b = self.between(low, high);
        let mixed = u64::from(a | b) + u64::from(constant);
        let width = u64::from(high - low + 1);
        (mixed % width) as u32 + low
    }

    /// A string of letters and digits, `least` to `most` bytes long (4.3.2.2).
    pub fn a_string<const N: usize>(&mut self, least: u32, most: u32) -> Text<N>
        requires order { least ≤ most }
        requires fits { most ≤ N }
        requires short { N ≤ MOST_PLACES }
        ensures drawn { (result, answers self.new) ≡ a_string least most (answers self.old) }
        ensures least { least ≤ length result }
        ensures most { length result ≤ most }
    {
        self.text(
            b"0123456789ABCDEFGHIJKLMNOPQRSTUVWXYZabcdefghijklmnopqrstuvwxyz",
            least,
            most,
        )
    }

    /// A string of digits, `least` to `most` bytes long (4.3.2.2).
    pub fn n_string<const N: usize>(&mut self, least: u32, most: u32) -> Text<N>
        requires order { least ≤ most }
        requires fits { most ≤ N }
        requires short { N ≤ MOST_PLACES }
        ensures drawn { (result, answers self.new) ≡ n_string least most (answers self.old) }
        ensures least { least ≤ length result }
        ensures most { length result ≤ most }
    {
        self.text(b"0123456789", least, most)
    }

    fn text<const N: usize>(&mut self, alphabet: &[u8], least: u32, most: u32) -> Text<N>
        requires order { least ≤ most }
        requires fits { most ≤ N }
        requires short { N ≤ MOST_PLACES }
        requires some { 0 < length alphabet.now }
        requires few { length alphabet.now ≤ GREATEST_DRAW }
        requires printable { list_all is_printable alphabet.now ≡ true }
        ensures drawn { (result, answers self.new)
            ≡ drawn_text alphabet.now least most (answers self.old) }
        ensures least { least ≤ length result }
        ensures most { length result ≤ most }
    {
        let mut text = Text::empty();
        let size = self.between(least, most);
        let last = alphabet.len() as u32 - 1;
        for _ in 0..size {
            let place = self.between(0, last);
            text.push(alphabet[place as usize]);
        }
        text
    }

    /// The numbers 1 to n in a drawn order. Refused only for want of memory.
    #[tactic(auto, unfolding(crate::specs::Draws::permutation))]
    pub fn permutation<A: Allocator>(&mut self, alloc: A, n: u32) -> Result<Vec<u32, A>, NoMemory>
        requires small { n ≤ GREATEST_DRAW }
        ensures drawn { IfOk result
            (λ v. (v.items, answers self.new) ≡ permutation n (answers self.old)) }
        ensures order { IfOk result (λ v. IsPermutation (range_with_len 1 n) v.items) }
        ensures err { OnErr result (self.new ≡ self.old) }
    {
        let mut numbers = numbers_up_to(alloc, n)?;
        numbers.as_mut_slice().shuffle(&mut self.generator);
        Ok(numbers)
    }

    /// The 23 cards of a deck in a drawn order: ten New-Order, ten Payment, and one each of
    /// Order-Status, Delivery and Stock-Level (5.2.4.2).
    #[tactic(auto, unfolding(crate::specs::Cards::deck))]
    pub fn deck(&mut self) -> [Card; 23]
        ensures drawn { (result, answers self.new) ≡ deck (answers self.old) }
        ensures order { IsPermutation cards result }
    {
        let mut all = all_cards();
        all.shuffle(&mut self.generator);
        all
    }
}

fn numbers_up_to<A: Allocator>(alloc: A, n: u32) -> Result<Vec<u32, A>, AllocError>
    requires small { n ≤ GREATEST_DRAW }
    ensures { IfOk result (λ v. v.items ≡ range_with_len 1 n) }
{
    (1..n + 1).collect(alloc)
}
