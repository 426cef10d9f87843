//! The preferred conflict of a test.
ghost use Rattle.std.specs.Prelude.{◌≡◌, ◌≤◌, true, length, IfOk};
ghost use Rattle.quickxplain.specs.Testers.{IsSameTest, places_kept};
ghost use Rattle.quickxplain.specs.Explains.{ArePlacesOfPreferred, Explains, AsksAtMost};
ghost use Rattle.quickxplain.specs.steps.Ranges.{kept_count, KeepsAll, IsLeastWithin};
ghost use Rattle.quickxplain.specs.steps.Questions.{AsksWithin};

use crate::halving::narrow;
use crate::tester::Tester;
use std::alloc::{AllocError, Global};

/// Whether all requests are consistent, and else which of them clash.
#[derive(Drop)]
pub enum Explained {
    /// All of them are consistent.
    NoConflict,
    /// The places of the preferred conflict's requests, ascending. There are none where the empty
    /// set is no more consistent than the others.
    Conflict(Vec<u32>),
}

/// The preferred conflict of `n` requests, the first being the most important: the conflict than
/// which none is antilex-smaller (Junker, "QuickXplain", AAAI 2004). With k requests in it, it asks
/// at most 2 k l + 3 times, where 2 to the power l is at least `n`. It works on a list of a truth for
/// each request. `AllocError` where memory runs out, also the tester's.
pub fn explain<T: Tester>(alloc: Global, tester: &mut T, n: u32) -> Result<Explained, AllocError>
    requires number { n ≡ T.requests tester.old }
    requires few { n ≤ 64 }

    ensures explains { IfOk result (Explains (T.consistent tester.old) n) }
    ensures asked { IfOk result (AsksAtMost (T.asked tester.old) (T.asked tester.new) n) }
    ensures test { IsSameTest (T.consistent tester.new) (T.consistent tester.old) }
    ensures same_requests { T.requests tester.new ≡ T.requests tester.old }
{
    let mut keep = vec![in alloc; true; n as usize]?;
    if tester.consistent(&keep)? {
        return Ok(Explained::NoConflict);
    }
    Ok(Explained::Conflict(conflict_of(alloc, tester, &mut keep)?))
}

/// The places of the preferred conflict, where all requests clash.
fn conflict_of<T: Tester>(
    alloc: Global,
    tester: &mut T,
    keep: &mut [bool],
) -> Result<Vec<u32>, AllocError>
    requires each_request { length keep.old ≡ T.requests tester.old }
    requires few { length keep.old ≤ 64 }
    requires all { KeepsAll 0 (length keep.old) keep.old }
    requires clash { ¬ T.consistent tester.old keep.old }

    ensures preferred { IfOk result
        (λ v. ArePlacesOfPreferred (T.consistent tester.old) (length keep.old) v.items) }
    ensures asked { IfOk result (λ v. AsksWithin (T.asked tester.old) (T.asked tester.new)
        1 (length keep.old) (length v.items)) }
    ensures test { IsSameTest (T.consistent tester.new) (T.consistent tester.old) }
    ensures same_requests { T.requests tester.new ≡ T.requests tester.old }
{
    narrow_all(tester, keep)?;
    let members = places(alloc, keep)?;
    Ok(members)
}

/// Narrows the conflict of all requests to the preferred one.
fn narrow_all<T: Tester>(tester: &mut T, keep: &mut [bool]) -> Result<(), AllocError>
    requires each_request { length keep.old ≡ T.requests tester.old }
    requires all { KeepsAll 0 (length keep.old) keep.old }
    requires clash { ¬ T.consistent tester.old keep.old }

    ensures least { IfOk result (λ u. IsLeastWithin (T.consistent tester.old) 0 (length keep.old)
        keep.old keep.new) }
    ensures asked { IfOk result (λ u. AsksWithin (T.asked tester.old) (T.asked tester.new)
        1 (length keep.old) (kept_count keep.new)) }
    ensures test { IsSameTest (T.consistent tester.new) (T.consistent tester.old) }
    ensures same_requests { T.requests tester.new ≡ T.requests tester.old }
{
    let n = keep.len();
    if n == 0 {
        return Ok(());
    }
    narrow(tester, keep, 0, n, true)?;
    Ok(())
}

/// The places of the requests that a set keeps.
fn places(alloc: Global, keep: &[bool]) -> Result<Vec<u32>, AllocError>
    requires { length keep.now ≤ 64 }
    ensures { IfOk result (λ v. v.items ≡ places_kept 0 keep.now) }
{
    let mut places = Vec::new(alloc);
    for (i, kept) in keep.iter().enumerate() {
        if *kept {
            places.push(i as u32)?;
        }
    }
    Ok(places)
}
