//! Sums, differences and multiples of numbers that are known by two bounds each.
ghost use Rattle.std.specs.Prelude.{◌≡◌, ◌∷◌, [], pos, neg_ℤ, ◌+◌, ◌*◌, ◌^◌, ◌<◌, ◌*ℤ◌, ◌-ℤ◌, ◌+ℤ◌, ◌≤ℤ◌, IfSome};
ghost use Rattle.std.specs.Int.{int_min, int_max};
ghost use Rattle.prod_model.specs.ExprBounds.{bounded as bounded_of, sum_of_some as sum_of, of_range, difference as difference_of, multiple as multiple_of, comparison, truth_of};
ghost use Rattle.std.specs.Option.{option_map};
ghost use Rattle.prod_model.specs.Limits.{most_arguments};
ghost use Rattle.expr_bounds.specs.steps.PlusArgument.{sum_with};

use prod_model::limits::FARTHEST_BOUND;
use prod_model::{AttrAt, Bounds, Domain};
use std::cmp::{max, min};

/// How far a bound may be from 0.
const FARTHEST: i128 = FARTHEST_BOUND as i128;

/// A number between two bounds, unless one of them leaves the limits.
pub(crate) fn bounded(low: i128, high: i128) -> Option<Bounds>
    ensures { result ≡ bounded_of low high }
{
    if low < -FARTHEST || low > FARTHEST || high < -FARTHEST || high > FARTHEST {
        return None;
    }
    Some(Bounds::Number {
        low: low as i64,
        high: high as i64,
    })
}

/// One number.
pub(crate) fn exactly(n: i64) -> Option<Bounds>
    ensures { result ≡ bounded_of n n }
{
    bounded(i128::from(n), i128::from(n))
}

/// A count between two counts.
pub(crate) fn between(low: u32, high: u32) -> Bounds
    ensures { result ≡ Bounds.Number (pos low) (pos high) }
{
    Bounds::Number {
        low: i64::from(low),
        high: i64::from(high),
    }
}

/// The number that an attribute is, unless it has words.
pub(crate) fn range_of(attribute: &AttrAt) -> Option<Bounds>
    ensures { result ≡ of_range bounded_of attribute.now }
{
    match &attribute.domain {
        Domain::Range { low, high } => bounded(i128::from(*low), i128::from(*high)),
        Domain::Words(_) => None,
    }
}

/// The sum of from `least` to `most` values of an attribute, unless it has words.
pub(crate) fn sum_of_some(least: u32, most: u32, attribute: &AttrAt) -> Option<Bounds>
    ensures { result ≡ of_range (sum_of least most) attribute.now }
{
    match &attribute.domain {
        Domain::Range { low, high } => sum_between(least, most, *low, *high),
        Domain::Words(_) => None,
    }
}

/// The sum of from `least` to `most` numbers between `low` and `high`.
fn sum_between(least: u32, most: u32, low: i64, high: i64) -> Option<Bounds>
    ensures { result ≡ sum_of least most low high }
{
    bounded(least_sum(least, most, low), greatest_sum(least, most, high))
}

/// The least sum of numbers from `low` on. That of negative ones has the most of them.
fn least_sum(least: u32, most: u32, low: i64) -> i128
    ensures { result ≡ int_min (pos least *ℤ low) (pos most *ℤ low) }
{
    lesser(multiplied(least, low), multiplied(most, low))
}

/// The greatest sum of numbers up to `high`. That of negative ones has the least of them.
fn greatest_sum(least: u32, most: u32, high: i64) -> i128
    ensures { result ≡ int_max (pos least *ℤ high) (pos most *ℤ high) }
{
    greater(multiplied(least, high), multiplied(most, high))
}

fn lesser(a: i128, b: i128) -> i128
    ensures { result ≡ int_min a b }
{
    min(a, b)
}

fn greater(a: i128, b: i128) -> i128
    ensures { result ≡ int_max a b }
{
    max(a, b)
}

fn multiplied(count: u32, n: i64) -> i128
    ensures { result ≡ pos count *ℤ n }
{
    i128::from(count) * i128::from(n)
}

fn product(a: i64, b: i64) -> i128
    ensures { result ≡ a *ℤ b }
{
    i128::from(a) * i128::from(b)
}

fn subtracted(a: i64, b: i64) -> i128
    ensures { result ≡ a -ℤ b }
{
    i128::from(a) - i128::from(b)
}

/// A sum of at most 64 numbers, each within -2^63 to 2^63.
#[derive(Clone, Copy)]
pub(crate) struct Sum {
    low: i128,
    high: i128,
    count: u32,
    ghost low_above: { neg_ℤ (pos (2 ^ 63 * count)) ≤ℤ low },
    ghost low_below: { low ≤ℤ pos (2 ^ 63 * count) },
    ghost high_above: { neg_ℤ (pos (2 ^ 63 * count)) ≤ℤ high },
    ghost high_below: { high ≤ℤ pos (2 ^ 63 * count) },
}

impl Sum {
    pub(crate) fn new() -> Sum
        ensures { (result.low ≡ pos 0) × (result.high ≡ pos 0) × (result.count ≡ 0) }
    {
        Sum {
            low: 0,
            high: 0,
            count: 0,
        }
    }

    /// With one more argument, if it is a number.
    pub(crate) fn plus(self, more: Option<Bounds>) -> Option<Sum>
        requires { self.count < most_arguments }
        ensures sum { option_map (λ s. (s.low, s.high)) result ≡ sum_with self.low self.high more }
        ensures count { IfSome result (λ s. s.count ≡ self.count + 1) }
    {
        let Some(Bounds::Number { low, high }) = more else {
            return None;
        };
        Some(self.plus_number(low, high))
    }

    fn plus_number(self, low: i64, high: i64) -> Sum
        requires { self.count < most_arguments }
        ensures low { result.low ≡ self.low +ℤ low }
        ensures high { result.high ≡ self.high +ℤ high }
        ensures count { result.count ≡ self.count + 1 }
    {
        Sum {
            low: self.low + i128::from(low),
            high: self.high + i128::from(high),
            count: self.count + 1,
        }
    }

    pub(crate) fn bounds(self) -> Option<Bounds>
        ensures { result ≡ bounded_of self.low self.high }
    {
        bounded(self.low, self.high)
    }
}

/// One number less another one.
pub(crate) fn difference(from: Option<Bounds>, less: Option<Bounds>) -> Option<Bounds>
    ensures { result ≡ difference_of from less }
{
    let Some(Bounds::Number { low, high }) = from else {
        return None;
    };
    let Some(
        Bounds::Number {
            low: least,
            high: most,
        },
    ) = less
    else {
        return None;
    };
    bounded(subtracted(low, most), subtracted(high, least))
}

/// A number times a factor. A negative one swaps the ends.
pub(crate) fn multiple(factor: i64, of: Option<Bounds>) -> Option<Bounds>
    ensures { result ≡ multiple_of factor of }
{
    let Some(Bounds::Number { low, high }) = of else {
        return None;
    };
    let (one, other) = (product(factor, low), product(factor, high));
    bounded(lesser(one, other), greater(one, other))
}

/// A truth, if both are numbers.
pub(crate) fn compared(a: Option<Bounds>, b: Option<Bounds>) -> Option<Bounds>
    ensures { result ≡ comparison a b }
{
    match (a, b) {
        (Some(Bounds::Number { .. }), Some(Bounds::Number { .. })) => Some(Bounds::Truth),
        _ => None,
    }
}

/// A truth, if it is one.
pub(crate) fn truth(a: Option<Bounds>) -> Option<Bounds>
    ensures { result ≡ truth_of (a ∷ []) }
{
    match a {
        Some(Bounds::Truth) => a,
        _ => None,
    }
}

/// A truth, if both are truths.
pub(crate) fn both_truths(a: Option<Bounds>, b: Option<Bounds>) -> Option<Bounds>
    ensures { result ≡ truth_of (a ∷ b ∷ []) }
{
    match a {
        Some(Bounds::Truth) => truth(b),
        _ => None,
    }
}
