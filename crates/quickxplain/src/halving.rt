//! The inner call of QuickXplain (Junker, "QuickXplain: Preferred Explanations and Relaxations for
//! Over-Constrained Problems", AAAI 2004): which requests of a range are needed for a conflict.
//!
//! There it has a background and a list of candidates. Here both are one list of truths: the
//! candidates are a range of places, and the background is what is kept at all others. So a half is
//! added to the background by leaving it as it is, and the answer stands in the list itself.
ghost use Rattle.std.specs.Prelude.{◌≡◌, ◌+◌, ◌-◌, ◌<◌, ◌≤◌, true, false, length, IfOk, IsTrue, IsFalse, if◌then◌else◌};
ghost use Rattle.quickxplain.specs.Testers.{IsSameTest};
ghost use Rattle.quickxplain.specs.steps.Ranges.{fill, without, kept_count, KeepsAll, IsLeastWithin};
ghost use Rattle.quickxplain.specs.steps.Questions.{AsksWithin};

use crate::tester::Tester;
use std::alloc::AllocError;

/// Keeps all requests at the places `from` to `to`, or none of them.
#[tactic(auto, using(crate::proofs::Filled::fillings))]
fn fill(keep: &mut [bool], from: usize, to: usize, kept: bool)
    requires low { from ≤ to }
    requires high { to ≤ length keep.old }
    ensures { keep.new ≡ fill from to kept keep.old }
{
    for i in from..to {
        keep[i] = kept;
    }
}

/// Whether the requests outside the range clash without it. If so, none of the range is kept.
#[tactic(auto, using(crate::proofs::Filled::fillings))]
fn clashes_without<T: Tester>(
    tester: &mut T,
    keep: &mut [bool],
    from: usize,
    to: usize,
) -> Result<bool, AllocError>
    requires each_request { length keep.old ≡ T.requests tester.old }
    requires low { from ≤ to }
    requires high { to ≤ length keep.old }
    requires all { KeepsAll from to keep.old }

    ensures clash { IfOk result
        (λ b. IsTrue b → ¬ T.consistent tester.old (without from to keep.old)) }
    ensures others { IfOk result
        (λ b. IsFalse b → T.consistent tester.old (without from to keep.old)) }
    ensures kept { IfOk result
        (λ b. keep.new ≡ (if b then without from to keep.old else keep.old)) }
    ensures counted { T.asked tester.new ≤ T.asked tester.old + 1 }
    ensures test { IsSameTest (T.consistent tester.new) (T.consistent tester.old) }
    ensures same_requests { T.requests tester.new ≡ T.requests tester.old }
{
    fill(keep, from, to, false);
    let clash = !tester.consistent(keep)?;
    if !clash {
        fill(keep, from, to, true);
    }
    Ok(clash)
}

/// The same, and asked only where something was added to the others since they were last asked.
/// Else they are known to be consistent.
fn others_clash<T: Tester>(
    tester: &mut T,
    keep: &mut [bool],
    from: usize,
    to: usize,
    added: bool,
) -> Result<bool, AllocError>
    requires each_request { length keep.old ≡ T.requests tester.old }
    requires low { from ≤ to }
    requires high { to ≤ length keep.old }
    requires all { KeepsAll from to keep.old }
    requires known { IsFalse added → T.consistent tester.old (without from to keep.old) }

    ensures clash { IfOk result
        (λ b. IsTrue b → ¬ T.consistent tester.old (without from to keep.old)) }
    ensures others { IfOk result
        (λ b. IsFalse b → T.consistent tester.old (without from to keep.old)) }
    ensures kept { IfOk result
        (λ b. keep.new ≡ (if b then without from to keep.old else keep.old)) }
    ensures counted { T.asked tester.new ≤ T.asked tester.old + (if added then 1 else 0) }
    ensures test { IsSameTest (T.consistent tester.new) (T.consistent tester.old) }
    ensures same_requests { T.requests tester.new ≡ T.requests tester.old }
{
    if !added {
        return Ok(false);
    }
    clashes_without(tester, keep, from, to)
}

/// Narrows a conflict to the least one that differs from it only at the places `from` to `to`, all
/// of which are kept, and answers how many of them stay. `added` tells that something was added to
/// the others since they were last asked; where nothing was, they are known to be consistent.
///
/// The less important half is narrowed first, while all of the other is kept: so what can be left
/// out there is left out, whatever that takes in the more important half.
pub(crate) fn narrow<T: Tester>(
    tester: &mut T,
    keep: &mut [bool],
    from: usize,
    to: usize,
    added: bool,
) -> Result<usize, AllocError>
    requires each_request { length keep.old ≡ T.requests tester.old }
    requires some { from < to }
    requires high { to ≤ length keep.old }
    requires all { KeepsAll from to keep.old }
    requires clash { ¬ T.consistent tester.old keep.old }
    requires others { IsFalse added → T.consistent tester.old (without from to keep.old) }

    ensures least { IfOk result
        (λ k. IsLeastWithin (T.consistent tester.old) from to keep.old keep.new) }
    ensures count { IfOk result (λ k. kept_count keep.new + (to - from) ≡ kept_count keep.old + k) }
    ensures none { IfOk result (λ k. k ≡ 0 → keep.new ≡ without from to keep.old) }

    ensures asked { IfOk result (λ k. AsksWithin (T.asked tester.old) (T.asked tester.new)
        (if added then 1 else 0) (to - from) k) }
    ensures test { IsSameTest (T.consistent tester.new) (T.consistent tester.old) }
    ensures same_requests { T.requests tester.new ≡ T.requests tester.old }
{
    if others_clash(tester, keep, from, to, added)? {
        return Ok(0);
    }
    if to - from == 1 {
        return Ok(1);
    }
    let middle = from + (to - from) / 2;
    let later = narrow(tester, keep, middle, to, true)?;
    let earlier = narrow(tester, keep, from, middle, later > 0)?;
    Ok(earlier + later)
}
