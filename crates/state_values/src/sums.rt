//! Sums of numbers that lie between two each.
ghost use Rattle.std.specs.Prelude.{◌≡◌, ℕ, ◌-◌, pos, neg_ℤ, ◌+◌, ◌*◌, ◌^◌, ◌<◌, ◌+ℤ◌, ◌*ℤ◌, ◌≤ℤ◌, ◌≤◌};
ghost use Rattle.std.specs.Int.{int_min, int_max};
ghost use Rattle.state_space.specs.State.{IsState, number_made};
ghost use Rattle.state_values.specs.Sights.{made_numbers};
ghost use Rattle.state_values.specs.steps.Forms.{multiples as multiples_of};
ghost use Rattle.state_values.specs.steps.Added.{HasValues, shares_sum as shares_sum_of, tally_ends};

use crate::interval::{Ends, Interval, between, greater, lesser};
use crate::shares::{Added, share_at};
use partial_state::Partial;
use prod_model::Problem;

/// A sum of fewer than 2^32 numbers. It is kept in 128 bits, which it can't leave.
#[derive(Clone, Copy)]
pub(crate) struct Sum {
    pub(crate) low: i128,
    pub(crate) high: i128,
    pub(crate) count: u32,
    ghost low_above: { neg_ℤ (pos (2 ^ 63 * count)) ≤ℤ low },
    ghost low_below: { low ≤ℤ pos (2 ^ 63 * count) },
    ghost high_above: { neg_ℤ (pos (2 ^ 63 * count)) ≤ℤ high },
    ghost high_below: { high ≤ℤ pos (2 ^ 63 * count) },
}

/// What instances add that aren't made yet: from `fewest` to `most` of them add a number from `low`
/// to `high` each.
#[derive(Clone, Copy)]
pub struct Unmade {
    pub fewest: u32,
    pub most: u32,
    pub low: i64,
    pub high: i64,
}

impl Sum {
    pub(crate) fn new() -> Sum
        ensures { (result.low ≡ pos 0) × (result.high ≡ pos 0) × (result.count ≡ 0) }
    {
        Sum {
            low: 0,
            high: 0,
            count: 0,
        }
    }

    /// With one more number.
    pub(crate) fn plus(self, more: Interval) -> Sum
        requires { self.count < 2 ^ 32 - 1 }
        ensures low { result.low ≡ self.low +ℤ more.low }
        ensures high { result.high ≡ self.high +ℤ more.high }
        ensures count { result.count ≡ self.count + 1 }
    {
        Sum {
            low: self.low + i128::from(more.low),
            high: self.high + i128::from(more.high),
            count: self.count + 1,
        }
    }

    pub(crate) fn ends(self) -> Ends
        ensures { result ≡ record { low = self.low; high = self.high } }
    {
        between(self.low, self.high)
    }

    /// With what instances add that aren't made yet.
    pub(crate) fn with_unmade(self, rest: Unmade) -> Ends
        ensures { result ≡ record {
          low = self.low +ℤ int_min (pos rest.fewest *ℤ rest.low) (pos rest.most *ℤ rest.low);
          high = self.high +ℤ int_max (pos rest.fewest *ℤ rest.high) (pos rest.most *ℤ rest.high);
        } }
    {
        between(low_with(self.low, rest), high_with(self.high, rest))
    }
}

/// What all made instances add, and those that aren't made yet. One pass over the made ones.
pub(crate) fn tally(problem: &Problem, p: &Partial, added: &Added, rest: Unmade) -> Ends
    requires state { IsState problem.now p.now }
    requires values { (j : ℕ) → j < number_made p.now → HasValues problem.now p.now added.now j }
    ensures { result ≡ tally_ends problem.now p.now added.now rest }
{
    shares_sum(problem, p, added).with_unmade(rest)
}

fn shares_sum(problem: &Problem, p: &Partial, added: &Added) -> Sum
    requires state { IsState problem.now p.now }
    requires values { (j : ℕ) → j < number_made p.now → HasValues problem.now p.now added.now j }
    ensures low { result.low
        ≡ (shares_sum_of problem.now p.now added.now (made_numbers p.now)).low }
    ensures high { result.high
        ≡ (shares_sum_of problem.now p.now added.now (made_numbers p.now)).high }
{
    let mut sum = Sum::new();
    for j in 0..p.made() {
        sum = sum.plus(share_at(problem, p, added, j));
    }
    sum
}

#[tactic(auto, using(std::proofs::lemmas::Int::clamps))]
fn low_with(sum: i128, rest: Unmade) -> i128
    requires low { neg_ℤ (pos (2 ^ 95)) ≤ℤ sum }
    requires high { sum ≤ℤ pos (2 ^ 95) }
    ensures { result
        ≡ sum +ℤ int_min (pos rest.fewest *ℤ rest.low) (pos rest.most *ℤ rest.low) }
{
    lesser(
        plus_times(sum, rest.fewest, rest.low),
        plus_times(sum, rest.most, rest.low),
    )
}

#[tactic(auto, using(std::proofs::lemmas::Int::clamps))]
fn high_with(sum: i128, rest: Unmade) -> i128
    requires low { neg_ℤ (pos (2 ^ 95)) ≤ℤ sum }
    requires high { sum ≤ℤ pos (2 ^ 95) }
    ensures { result
        ≡ sum +ℤ int_max (pos rest.fewest *ℤ rest.high) (pos rest.most *ℤ rest.high) }
{
    greater(
        plus_times(sum, rest.fewest, rest.high),
        plus_times(sum, rest.most, rest.high),
    )
}

/// What they add alone.
pub(crate) fn multiples(rest: Unmade) -> Ends
    ensures { result ≡ multiples_of rest }
{
    between(least_multiple(rest), greatest_multiple(rest))
}

fn least_multiple(rest: Unmade) -> i128
    ensures { result ≡ int_min (pos rest.fewest *ℤ rest.low) (pos rest.most *ℤ rest.low) }
{
    lesser(times(rest.fewest, rest.low), times(rest.most, rest.low))
}

fn greatest_multiple(rest: Unmade) -> i128
    ensures { result ≡ int_max (pos rest.fewest *ℤ rest.high) (pos rest.most *ℤ rest.high) }
{
    greater(times(rest.fewest, rest.high), times(rest.most, rest.high))
}

fn times(count: u32, n: i64) -> i128
    ensures { result ≡ pos count *ℤ n }
{
    i128::from(count) * i128::from(n)
}

/// With so many equal numbers.
fn plus_times(sum: i128, count: u32, n: i64) -> i128
    requires low { neg_ℤ (pos (2 ^ 95)) ≤ℤ sum }
    requires high { sum ≤ℤ pos (2 ^ 95) }
    ensures { result ≡ sum +ℤ (pos count *ℤ n) }
{
    sum + i128::from(count) * i128::from(n)
}
