//! Three-valued truths.
ghost use Rattle.std.specs.Prelude.{◌≡◌, pos};
ghost use Rattle.std.specs.Int.{int_min, int_max};
ghost use Rattle.state_values.specs.steps.Added.{share as share_of};
ghost use Rattle.state_values.specs.steps.Truths.{opposite, conjunction, precedes as precedes_of, not_after as not_after_of, related as related_of};

use crate::interval::Interval;
use prod_model::Relation;
use std::cmp::{max, min};

/// What a truth can be in a state.
#[derive(Clone, Copy, Debug, PartialEq, Eq)]
pub enum Kleene {
    /// It is true in each configuration that the state leaves.
    True,
    /// It is false in each.
    False,
    /// The state doesn't tell.
    Open,
}

impl Kleene {
    /// Whether it is false.
    pub(crate) fn negated(self) -> Kleene
        ensures { result ≡ opposite self }
    {
        match self {
            Kleene::True => Kleene::False,
            Kleene::False => Kleene::True,
            Kleene::Open => Kleene::Open,
        }
    }

    /// Whether both are true.
    fn both(self, other: Kleene) -> Kleene
        ensures { result ≡ conjunction self other }
    {
        match (self, other) {
            (Kleene::False, _) | (_, Kleene::False) => Kleene::False,
            (Kleene::True, Kleene::True) => Kleene::True,
            _ => Kleene::Open,
        }
    }

    /// What an instance adds to a sum in which it is counted where this is true: a number from `low`
    /// to `high`, and 0 where it isn't counted.
    pub(crate) fn share(self, low: i64, high: i64) -> Interval
        ensures { result ≡ share_of self low high }
    {
        match self {
            Kleene::True => interval(low, high),
            Kleene::False => interval(0, 0),
            Kleene::Open => interval(min(0, low), max(0, high)),
        }
    }
}

fn interval(low: i64, high: i64) -> Interval
    ensures { result ≡ record { low = low; high = high } }
{
    Interval { low, high }
}

/// How the numbers of one interval stand to those of another: true where each two are so related,
/// and false where no two are.
pub(crate) fn related(r: Relation, a: Interval, b: Interval) -> Kleene
    ensures { result ≡ related_of r a b }
{
    match r {
        Relation::Less => precedes(a, b),
        Relation::AtMost => not_after(a, b),
        Relation::Equal => not_after(a, b).both(not_after(b, a)),
        Relation::Differs => not_after(a, b).both(not_after(b, a)).negated(),
        Relation::AtLeast => not_after(b, a),
        Relation::Greater => precedes(b, a),
    }
}

fn precedes(a: Interval, b: Interval) -> Kleene
    ensures { result ≡ precedes_of a b }
{
    if a.high < b.low {
        Kleene::True
    } else if b.high <= a.low {
        Kleene::False
    } else {
        Kleene::Open
    }
}

fn not_after(a: Interval, b: Interval) -> Kleene
    ensures { result ≡ not_after_of a b }
{
    precedes(b, a).negated()
}
