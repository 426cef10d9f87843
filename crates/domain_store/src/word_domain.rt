//! Sets of words.
ghost use Rattle.std.specs.Prelude.{◌≡◌, ◌≢◌, ◌<◌, ◌≤◌, ◌^◌, ◌==◌, ℕ, nat_le, nat_lt, not};
ghost use Rattle.domain_store.specs.Words.{has_word, IsLeastWord, IsGreatestWord, NarrowsWords};

use crate::change::Change;
use std::marker::Model;

/// A set of words that has one. Words are numbers from 0 to 63. Contracts see the mask, whose bit k
/// says whether the set has word k.
#[derive(Clone, Copy, Debug, PartialEq, Eq)]
pub struct WordDomain {
    mask: u64,
}

impl Model for WordDomain {
    ghost use Rattle.std.specs.Prelude.{ℕ, ◌≢◌};
    ghost use Rattle.std.specs.Coded.{coded_ℕ};

    ghost Value = { ℕ };

    ghost coded = { coded_ℕ };

    ghost view = { λ d. d.mask };

    ghost invariant = { λ d. d.mask ≢ 0 };

    ghost inverse = { λ n. record { mask = n } };
}

impl WordDomain {
    /// The words whose bits are set.
    pub fn from_mask(mask: u64) -> WordDomain
        requires { mask ≢ 0 }
        ensures { result ≡ mask }
    {
        WordDomain { mask }
    }

    /// The least word.
    pub fn low(&self) -> u32
        ensures { IsLeastWord self.now result }
    {
        self.mask.trailing_zeros()
    }

    /// The greatest word.
    pub fn high(&self) -> u32
        ensures { IsGreatestWord self.now result }
    {
        self.mask.ilog2()
    }

    /// Whether the set has word `n`. It has none from 64 on.
    pub fn contains(&self, n: u32) -> bool
        ensures { result ≡ has_word self.now n }
    {
        let mask = self.mask;
        n < 64 && (mask >> n) & 1 == 1
    }

    /// Leaves the words up to `n`.
    pub fn at_most(&mut self, n: u32) -> Change
        ensures { NarrowsWords (λ k. nat_le k n) result self.old self.new }
    {
        self.narrow(words_up_to(n))
    }

    /// Leaves the words from `n` on.
    pub fn at_least(&mut self, n: u32) -> Change
        ensures { NarrowsWords (λ k. nat_le n k) result self.old self.new }
    {
        self.narrow(words_from(n))
    }

    /// Leaves word `n` alone.
    pub fn keep(&mut self, n: u32) -> Change
        ensures { NarrowsWords (λ k. k == n) result self.old self.new }
    {
        self.narrow(one_word(n))
    }

    /// Removes word `n`.
    pub fn remove(&mut self, n: u32) -> Change
        ensures { NarrowsWords (λ k. not (k == n)) result self.old self.new }
    {
        self.narrow(!one_word(n))
    }

    /// Leaves the wanted words, unless there is none.
    fn narrow(&mut self, wanted: u64) -> Change
        ensures narrowed { NarrowsWords (has_word wanted) result self.old self.new }
        ensures fits { self.old < 2 ^ 64 }
    {
        let left = self.mask & wanted;
        if left == 0 {
            return Change::Empty;
        }
        if left == self.mask {
            return Change::Same;
        }
        self.mask = left;
        Change::Smaller
    }
}

/// The mask of the words up to `n`.
fn words_up_to(n: u32) -> u64
    ensures { (k : ℕ) → k < 64 → has_word result k ≡ nat_le k n }
{
    if 63 <= n {
        return u64::MAX;
    }
    (1 << (n + 1)) - 1
}

/// The mask of the words from `n` on.
fn words_from(n: u32) -> u64
    ensures { (k : ℕ) → k < 64 → has_word result k ≡ nat_le n k }
{
    if 64 <= n {
        return 0;
    }
    u64::MAX << n
}

/// The mask of word `n`.
fn one_word(n: u32) -> u64
    ensures { (k : ℕ) → k < 64 → has_word result k ≡ (k == n) }
{
    if 64 <= n {
        return 0;
    }
    1 << n
}
