//! Between which whole numbers a number lies.
ghost use Rattle.std.specs.Prelude.{◌≡◌, pos, neg_ℤ, ◌+◌, ◌*◌, ◌^◌, ◌<◌, ◌+ℤ◌, ◌-ℤ◌, ◌*ℤ◌, ◌≤ℤ◌, ◌<ℤ◌};
ghost use Rattle.std.specs.Int.{int_min, int_max};
ghost use Rattle.state_values.specs.steps.Ends.{AreLimited, clamped_ends, multiple_ends, multiple_bounds as multiple_bounds_of};

use std::cmp::{max, min};

/// The whole numbers from `low` to `high`.
#[derive(Clone, Copy, Debug, PartialEq, Eq)]
pub struct Interval {
    pub low: i64,
    pub high: i64,
}

/// The same in 128 bits, which no product of two numbers of 64 bits and no sum of a few can leave.
#[derive(Clone, Copy, Debug, PartialEq, Eq)]
pub struct Ends {
    pub low: i128,
    pub high: i128,
}

/// Ends that a number has been told to have.
pub(crate) fn between(low: i128, high: i128) -> Ends
    ensures { result ≡ record { low = low; high = high } }
{
    Ends { low, high }
}

/// One number.
pub(crate) fn exactly(n: i64) -> Ends
    ensures { result ≡ record { low = n; high = n } }
{
    between(i128::from(n), i128::from(n))
}

/// Counts between two counts.
pub(crate) fn counts(low: u32, high: u32) -> Ends
    ensures { result ≡ record { low = pos low; high = pos high } }
{
    between(i128::from(low), i128::from(high))
}

impl Interval {
    pub(crate) fn wide(self) -> Ends
        ensures { result ≡ record { low = self.low; high = self.high } }
    {
        between(i128::from(self.low), i128::from(self.high))
    }

    /// The numbers of this interval less those of another.
    pub(crate) fn minus(self, less: Interval) -> Ends
        ensures { result
            ≡ record { low = self.low -ℤ less.high; high = self.high -ℤ less.low } }
    {
        between(
            subtracted(self.low, less.high),
            subtracted(self.high, less.low),
        )
    }

    /// The least and the greatest of the multiples of both ends.
    pub(crate) fn multiple_bounds(self, factor: i64) -> Ends
        ensures { result ≡ multiple_bounds_of factor self }
    {
        let (one, other) = (product(factor, self.low), product(factor, self.high));
        between(lesser(one, other), greater(one, other))
    }

    /// Its multiples. A negative factor turns the ends round.
    #[tactic(auto, using(crate::proofs::EndsLaws::multiple_turns))]
    pub(crate) fn times(self, factor: i64) -> Ends
        ensures { result ≡ multiple_ends factor self }
    {
        let (one, other) = (product(factor, self.low), product(factor, self.high));
        if factor < 0 {
            between(other, one)
        } else {
            between(one, other)
        }
    }
}

impl Ends {
    /// Ends that 64 bits hold.
    pub(crate) fn narrow(self) -> Interval
        requires { AreLimited self }
        ensures { result ≡ record { low = self.low; high = self.high } }
    {
        Interval {
            low: narrowed(self.low),
            high: narrowed(self.high),
        }
    }

    /// Each end brought to the nearest number within bounds.
    pub(crate) fn clamped(self, own: Interval) -> Interval
        ensures { result ≡ clamped_ends own self }
    {
        Interval {
            low: nearest_low(own, self.low),
            high: nearest_high(own, self.high),
        }
    }
}

pub(crate) fn lesser(a: i128, b: i128) -> i128
    ensures { result ≡ int_min a b }
{
    min(a, b)
}

pub(crate) fn greater(a: i128, b: i128) -> i128
    ensures { result ≡ int_max a b }
{
    max(a, b)
}

fn product(a: i64, b: i64) -> i128
    ensures { result ≡ a *ℤ b }
{
    i128::from(a) * i128::from(b)
}

fn subtracted(a: i64, b: i64) -> i128
    ensures { result ≡ a -ℤ b }
{
    i128::from(a) - i128::from(b)
}

#[tactic(auto, using(std::proofs::lemmas::Int::clamps))]
fn nearest_low(own: Interval, low: i128) -> i64
    ensures { result ≡ int_max own.low (int_min own.high low) }
{
    let near = greater(i128::from(own.low), lesser(i128::from(own.high), low));
    narrowed(near)
}

#[tactic(auto, using(std::proofs::lemmas::Int::clamps))]
fn nearest_high(own: Interval, high: i128) -> i64
    ensures { result ≡ int_min own.high (int_max own.low high) }
{
    let near = lesser(i128::from(own.high), greater(i128::from(own.low), high));
    narrowed(near)
}

fn narrowed(n: i128) -> i64
    requires low { neg_ℤ (pos (2 ^ 63)) ≤ℤ n }
    requires high { n <ℤ pos (2 ^ 63) }
    ensures { result ≡ n }
{
    n as i64
}
