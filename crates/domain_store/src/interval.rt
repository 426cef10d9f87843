//! Intervals of whole numbers.
ghost use Rattle.std.specs.Prelude.{◌≡◌, List, if◌then◌else◌, int_le};
ghost use Rattle.std.specs.List.{list_any, list_all};
ghost use Rattle.domain_store.specs.Intervals.{is_inside, is_in_one};
ghost use Rattle.domain_store.specs.steps.Cut.{is_some, is_part, common};

/// The whole numbers from `low` to `high`.
#[derive(Clone, Copy, Debug, Default, PartialEq, Eq)]
pub struct Interval {
    pub low: i64,
    pub high: i64,
}

impl Interval {
    pub(crate) fn contains(&self, n: i64) -> bool
        ensures { result ≡ is_inside self.now n }
    {
        self.low <= n && n <= self.high
    }

    /// Whether a number lies in it.
    pub(crate) fn is_some(self) -> bool
        ensures { result ≡ is_some self }
    {
        self.low <= self.high
    }

    /// Whether its ends lie in the range.
    pub(crate) fn is_part(self, range: Interval) -> bool
        ensures { result ≡ is_part range self }
    {
        range.low <= self.low && self.high <= range.high
    }

    /// What it has in common with the range.
    pub(crate) fn common(self, range: Interval) -> Interval
        ensures { result ≡ common range self }
    {
        let low = if self.low <= range.low {
            range.low
        } else {
            self.low
        };
        let high = if self.high <= range.high {
            self.high
        } else {
            range.high
        };
        Interval { low, high }
    }
}
