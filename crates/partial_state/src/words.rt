//! Narrowings of sets of words by any whole number.
ghost use Rattle.std.specs.Prelude.{◌≡◌, ◌≤ℤ◌, ℕ, pos, not, int_le};
ghost use Rattle.std.specs.Ordering.{int_eq};
ghost use Rattle.domain_store.specs.Gaps.{IsNextGap};
ghost use Rattle.domain_store.specs.Words.{NarrowsWords};
ghost use Rattle.state_space.specs.Values.{Words, has_value};
ghost use Rattle.partial_state.specs.Masks.{words_of, IsWordMask};
ghost use Rattle.partial_state.specs.steps.Clamped.{IsClamped};

use domain_store::{Change, WordDomain};

/// Whether `n` is one of the words.
pub(crate) fn contains(words: &WordDomain, n: i64) -> bool
    requires { IsWordMask words.now }
    ensures { result ≡ has_value (Words (words_of words.now)) n }
{
    if n < 0 {
        return false;
    }
    words.contains(clamped(n))
}

/// The first number from `from` on that is none of the words although a greater one is.
pub(crate) fn gap_from(words: &WordDomain, from: i64) -> Option<i64>
    requires { IsWordMask words.now }
    ensures { IsNextGap (has_value (Words (words_of words.now))) from result }
{
    let high = words.high();
    if from < 0 {
        return Some(from);
    }
    for word in clamped(from)..high {
        if !words.contains(word) {
            return Some(i64::from(word));
        }
    }
    None
}

/// Leaves the words up to `n`.
pub(crate) fn at_most(words: &mut WordDomain, n: i64) -> Change
    requires { IsWordMask words.old }
    ensures { NarrowsWords (λ k. int_le (pos k) n) result words.old words.new }
{
    if n < 0 {
        return Change::Empty;
    }
    words.at_most(clamped(n))
}

/// Leaves the words from `n` on.
pub(crate) fn at_least(words: &mut WordDomain, n: i64) -> Change
    requires { IsWordMask words.old }
    ensures { NarrowsWords (λ k. int_le n (pos k)) result words.old words.new }
{
    if n < 0 {
        return Change::Same;
    }
    words.at_least(clamped(n))
}

/// Removes word `n`.
pub(crate) fn remove(words: &mut WordDomain, n: i64) -> Change
    requires { IsWordMask words.old }
    ensures { NarrowsWords (λ k. not (int_eq (pos k) n)) result words.old words.new }
{
    if n < 0 {
        return Change::Same;
    }
    words.remove(clamped(n))
}

/// The number as that of a word, and 64 where it is greater than each.
fn clamped(n: i64) -> u32
    requires { pos 0 ≤ℤ n }
    ensures { IsClamped n result }
{
    if n < 64 { n as u32 } else { 64 }
}
