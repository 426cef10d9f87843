//! A number's bounds at its type, and between which numbers it lies in a state.
ghost use Rattle.std.specs.Prelude.{◌≡◌, ◌-ℤ◌};
ghost use Rattle.state_values.specs.steps.Ends.{AreLimited, clamped_ends, multiple_bounds, multiple_ends};

use crate::interval::{Ends, Interval};

/// A number's bounds at its type, and between which numbers it lies in a state.
#[derive(Clone, Copy)]
pub(crate) struct Number {
    pub(crate) own: Interval,
    pub(crate) seen: Interval,
}

/// The same before it is brought into its bounds.
#[derive(Clone, Copy)]
pub(crate) struct Ranged {
    pub(crate) own: Ends,
    pub(crate) seen: Ends,
}

pub(crate) fn make_ranged(own: Ends, seen: Ends) -> Ranged
    ensures own { result.own ≡ own }
    ensures seen { result.seen ≡ seen }
{
    Ranged { own, seen }
}

impl Ranged {
    /// What is seen, brought into the bounds.
    pub(crate) fn bounded(self) -> Number
        requires { AreLimited self.own }
        ensures own { result.own ≡ record { low = self.own.low; high = self.own.high } }
        ensures seen { result.seen ≡ clamped_ends result.own self.seen }
    {
        let own = self.own.narrow();
        Number {
            own,
            seen: self.seen.clamped(own),
        }
    }
}

impl Number {
    /// The difference of two numbers.
    pub(crate) fn minus(self, less: Number) -> Ranged
        ensures own { result.own ≡ record {
          low = self.own.low -ℤ less.own.high;
          high = self.own.high -ℤ less.own.low;
        } }
        ensures seen { result.seen ≡ record {
          low = self.seen.low -ℤ less.seen.high;
          high = self.seen.high -ℤ less.seen.low;
        } }
    {
        make_ranged(self.own.minus(less.own), self.seen.minus(less.seen))
    }

    /// A multiple of the number.
    pub(crate) fn times(self, factor: i64) -> Ranged
        ensures own { result.own ≡ multiple_bounds factor self.own }
        ensures seen { result.seen ≡ multiple_ends factor self.seen }
    {
        make_ranged(self.own.multiple_bounds(factor), self.seen.times(factor))
    }
}
