//! Sets of whole numbers.
ghost use Rattle.std.specs.Prelude.{◌<◌, OnOk, OnErr, ◌≡◌, ◌≤ℤ◌, ◌∷◌, [], IfOk, IsTrue, int_le, take, length, ◌≤◌};
ghost use Rattle.std.specs.List.{list_any, list_all, position};
ghost use Rattle.std.specs.Ordering.{int_eq};
ghost use Rattle.domain_store.specs.Gaps.{IsNextGap};
ghost use Rattle.domain_store.specs.Intervals.{are_intervals, ascend_apart, is_other, is_inside, is_in_one, IsLeastNumber, IsGreatestNumber, NarrowsNumbers};
ghost use Rattle.domain_store.specs.steps.Cut.{is_some, is_part, common, cut};
ghost use Rattle.domain_store.specs.steps.Without.{without, replaced};
ghost use Rattle.domain_store.specs.steps.Ends.{low_of, high_of};

use crate::change::Change;
use crate::interval::Interval;
use smallvec::SmallVec;
use std::alloc::{AllocError, Global};
use std::marker::Model;

/// A set of whole numbers that has one. Contracts see its ascending list of intervals, with a gap
/// between each two. Up to two intervals stand in the value itself, and take no memory.
#[derive(Drop)]
pub struct IntDomain {
    intervals: SmallVec<Interval, 2>,
}

impl Model for IntDomain {
    ghost use Rattle.std.specs.Prelude.{List, IsTrue};
    ghost use Rattle.domain_store.specs.declared.interval.Interval.{Interval};
    ghost use Rattle.domain_store.specs.Intervals.{are_intervals};

    ghost Value = { List Interval };

    ghost view = { λ d. d.intervals.items };

    ghost invariant = { λ d. IsTrue (are_intervals d.intervals.items) };
}

impl IntDomain {
    /// The numbers from one to another.
    pub fn from_range(alloc: Global, low: i64, high: i64) -> Result<IntDomain, AllocError>
        requires { low ≤ℤ high }
        ensures { IfOk result (λ d. d ≡ record { low = low; high = high } ∷ []) }
    {
        Ok(IntDomain {
            intervals: SmallVec::from_slice(alloc, &[Interval { low, high }])?,
        })
    }

    /// The least number, in constant time.
    pub fn low(&self) -> i64
        ensures least { IsLeastNumber self.now result }
        ensures formed { IsTrue (are_intervals self.now) }
    {
        first_low(self.intervals.as_slice())
    }

    /// The greatest number, in constant time.
    pub fn high(&self) -> i64
        ensures { IsGreatestNumber self.now result }
    {
        last_high(self.intervals.as_slice())
    }

    /// Whether the set has the number.
    pub fn contains(&self, n: i64) -> bool
        ensures { result ≡ is_in_one self.now n }
    {
        self.intervals.as_slice().iter().any(|r| r.contains(n))
    }

    /// The first number from `from` on that is missing although the set has a greater one. One pass
    /// over the intervals, and no memory.
    pub fn gap_from(&self, from: i64) -> Option<i64>
        ensures { IsNextGap (is_in_one self.now) from result }
    {
        gap_between(self.intervals.as_slice(), from)
    }

    /// The same set. `AllocError` where memory runs out.
    pub fn copy(&self, alloc: Global) -> Result<IntDomain, AllocError>
        ensures { IfOk result (λ d. d ≡ self.now) }
    {
        Ok(IntDomain {
            intervals: SmallVec::from_slice(alloc, self.intervals.as_slice())?,
        })
    }

    /// Leaves the numbers up to `n`.
    pub fn at_most(&mut self, n: i64) -> Change
        ensures narrowed { NarrowsNumbers (λ v. int_le v n) result self.old self.new }
        ensures formed { IsTrue (are_intervals self.new) }
    {
        let low = self.low();
        self.narrow(Interval { low, high: n })
    }

    /// Leaves the numbers from `n` on.
    pub fn at_least(&mut self, n: i64) -> Change
        ensures narrowed { NarrowsNumbers (λ v. int_le n v) result self.old self.new }
        ensures formed { IsTrue (are_intervals self.new) }
    {
        let high = self.high();
        self.narrow(Interval { low: n, high })
    }

    /// Leaves `n` alone.
    pub fn keep(&mut self, n: i64) -> Change
        ensures narrowed { NarrowsNumbers (λ v. int_eq v n) result self.old self.new }
        ensures formed { IsTrue (are_intervals self.new) }
    {
        self.narrow(Interval { low: n, high: n })
    }

    /// Removes `n`. `AllocError` where memory runs out, and then nothing changes.
    pub fn remove(&mut self, n: i64) -> Result<Change, AllocError>
        ensures narrowed { IfOk result (λ c. NarrowsNumbers (is_other n) c self.old self.new) }
        ensures unchanged { OnErr result (self.new ≡ self.old) }
        ensures formed { IsTrue (are_intervals self.new) }
    {
        let Some(at) = place_of(self.intervals.as_slice(), n) else {
            return Ok(Change::Same);
        };
        if self.low() == self.high() {
            return Ok(Change::Empty);
        }
        let found = self.intervals.as_slice()[at];
        take_out(&mut self.intervals, at, found, n)?;
        Ok(Change::Smaller)
    }

    /// Leaves the numbers of a range, unless there is none.
    fn narrow(&mut self, range: Interval) -> Change
        ensures narrowed { NarrowsNumbers (is_inside range) result self.old self.new }
        ensures formed { IsTrue (are_intervals self.new) }
    {
        if !any_meets(self.intervals.as_slice(), range) {
            return Change::Empty;
        }
        if all_are_part(self.intervals.as_slice(), range) {
            return Change::Same;
        }
        let count = cut_to(self.intervals.as_mut_slice(), range);
        self.intervals.truncate(count);
        Change::Smaller
    }
}

/// The lower end of the first interval.
fn first_low(intervals: &[Interval]) -> i64
    ensures { result ≡ low_of intervals.now }
{
    match intervals.first() {
        Some(first) => first.low,
        None => 0,
    }
}

/// The upper end of the last interval.
fn last_high(intervals: &[Interval]) -> i64
    ensures { result ≡ high_of intervals.now }
{
    match intervals.last() {
        Some(last) => last.high,
        None => 0,
    }
}

/// The first number from `from` on that lies in none of the intervals, although one is above it.
fn gap_between(intervals: &[Interval], from: i64) -> Option<i64>
    requires { IsTrue (ascend_apart intervals.now) }
    ensures { IsNextGap (is_in_one intervals.now) from result }
{
    let (first, rest) = intervals.split_first()?;
    if first.high < from {
        return gap_between(rest, from);
    }
    if from < first.low {
        return Some(from);
    }
    let next = rest.first()?;
    prove!(first.high < next.low);
    Some(first.high + 1)
}

/// Whether one of the intervals has a number of the range.
fn any_meets(intervals: &[Interval], range: Interval) -> bool
    ensures { result ≡ list_any (λ r. is_some (common range r)) intervals.now }
{
    intervals.iter().any(|r| r.common(range).is_some())
}

/// Whether the intervals lie in the range.
fn all_are_part(intervals: &[Interval], range: Interval) -> bool
    ensures { result ≡ list_all (is_part range) intervals.now }
{
    intervals.iter().all(|r| r.is_part(range))
}

/// Cuts the intervals to a range, with those that are left in front, and counts these.
fn cut_to(intervals: &mut [Interval], range: Interval) -> usize
    ensures length { length intervals.new ≡ length intervals.old }
    ensures cut { take result intervals.new ≡ cut range intervals.old }
{
    let mut count = 0;
    for i in 0..intervals.len() {
        let part = intervals[i].common(range);
        if part.is_some() {
            intervals[count] = part;
            count += 1;
        }
    }
    count
}

/// The place of the interval that has the number.
fn place_of(intervals: &[Interval], n: i64) -> Option<usize>
    ensures { result ≡ position (λ r. is_inside r n) intervals.now }
{
    intervals.iter().position(|r| r.contains(n))
}

/// Takes a number out of the interval at a place. A number in its middle leaves two.
fn take_out(
    list: &mut SmallVec<Interval, 2>,
    at: usize,
    found: Interval,
    n: i64,
) -> Result<(), AllocError>
    requires { at < length list.old.items }
    ensures ok { OnOk result (list.new.items ≡ replaced list.old.items at (without n found)) }
    ensures err { OnErr result (list.new.items ≡ list.old.items) }
{
    if found.low < n {
        let below = Interval {
            low: found.low,
            high: n - 1,
        };
        if n < found.high {
            let above = Interval {
                low: n + 1,
                high: found.high,
            };
            return split(list, at, below, above);
        }
        put(list, at, below);
    } else if n < found.high {
        put(
            list,
            at,
            Interval {
                low: n + 1,
                high: found.high,
            },
        );
    } else {
        list.remove(at);
    }
    Ok(())
}

/// Puts two intervals in place of one.
fn split(
    list: &mut SmallVec<Interval, 2>,
    at: usize,
    below: Interval,
    above: Interval,
) -> Result<(), AllocError>
    requires { at < length list.old.items }
    ensures ok { OnOk result (list.new.items ≡ replaced list.old.items at (below ∷ above ∷ [])) }
    ensures err { OnErr result (list.new.items ≡ list.old.items) }
{
    list.insert(at, below)?;
    let all = list.as_mut_slice();
    all[at + 1] = above;
    Ok(())
}

/// Puts an interval in place of another.
fn put(list: &mut SmallVec<Interval, 2>, at: usize, interval: Interval)
    requires { at < length list.old.items }
    ensures { list.new.items ≡ replaced list.old.items at (interval ∷ []) }
{
    list.as_mut_slice()[at] = interval;
}
