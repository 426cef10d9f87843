//! Nogoods from failures.
ghost use Rattle.std.specs.Prelude.{◌≡◌, ◌≤◌, ◌⊎◌, length, IsFalse, None, IfOk};
ghost use Rattle.literal_book.specs.Nogoods.{IsSound};
ghost use Rattle.state_space.specs.Described.{entails_all};
ghost use Rattle.reason_trail.specs.Reasons.{SupportsFailure};
ghost use Rattle.reason_trail.specs.Trails.{IsTrail};
ghost use Rattle.conflict_learn.specs.Learning.{IsLearned};
ghost use Rattle.conflict_learn.specs.steps.Choosing.{IsToldBy, IsToldByAssumed, IsChosen, IsParted};

use crate::assumptions::usable_assumptions;
use crate::shortening::{not_always, without_implied};
use literal_book::{Literal, Literals, Nogood};
use prod_model::Problem;
use reason_trail::{Job, Reason, Trail};
use std::alloc::{AllocError, Global};

/// A list of more literals is not searched for those that others imply.
const MOST_COMPARED: usize = 64;

/// What a failure teaches.
#[derive(Drop)]
pub enum Learned {
    /// A sound nogood.
    Nogood(Nogood),
    /// The failure rests on the cut, and no nogood follows.
    RestsOnCut,
}

/// What the failure of a trail teaches, for this reason: it supports the failure, and the state
/// entails its literals. The nogood has the requests and the literals of the reason, or, where that
/// is shorter, no reason on the trail names the cut and the state entails them all, the literals
/// that were assumed, with all requests that the reasons ask for. Literals that every configuration
/// has are left out, and those that others imply. It goes at most three times over the trail and
/// over each list of literals, and compares at most 64 literals with each other. `AllocError` where
/// memory runs out.
pub fn learn(alloc: Global, job: &Job, trail: &Trail, why: &Reason) -> Result<Learned, AllocError>
    requires job { trail.now.job ≡ job.now }
    requires supported { IsFalse why.now.cut → SupportsFailure job.now None why.now }
    requires entailed { entails_all job.now.model trail.now.state why.now.literals }
    ensures learned { IfOk result (IsLearned trail.now why.now) }
{
    if why.cut {
        return Ok(Learned::RestsOnCut);
    }
    let problem = trail.job().problem();
    let nogood = chosen(alloc, trail, why)?;
    Ok(Learned::Nogood(parted(alloc, problem, nogood)?))
}

/// The nogood of the reason, or, where that is shorter, of what was assumed.
fn chosen(alloc: Global, trail: &Trail, why: &Reason) -> Result<Nogood, AllocError>
    requires trail { IsTrail trail.now }
    requires uncut { IsFalse why.now.cut }
    requires supported { SupportsFailure trail.now.job None why.now }
    requires entailed { entails_all trail.now.job.model trail.now.state why.now.literals }
    ensures { IfOk result (IsChosen trail.now why.now) }
{
    let own = told_by(alloc, trail, why.requests, why.literals.as_slice())?;
    match told_by_assumed(alloc, trail, why)? {
        Some(other) => Ok(shorter(own, other)),
        None => Ok(own),
    }
}

/// The one that has fewer literals.
fn shorter(one: Nogood, other: Nogood) -> Nogood
    ensures either { (result ≡ one) ⊎ (result ≡ other) }
    ensures one { length result.literals ≤ length one.literals }
    ensures other { length result.literals ≤ length other.literals }
{
    if other.literals.len() < one.literals.len() {
        other
    } else {
        one
    }
}

/// The nogood of what was assumed, with all requests that the reasons ask for. Nothing where a
/// reason on the trail names the cut, or the state no longer entails all that was assumed.
fn told_by_assumed(alloc: Global, trail: &Trail, why: &Reason) -> Result<Option<Nogood>, AllocError>
    requires trail { IsTrail trail.now }
    requires uncut { IsFalse why.now.cut }
    requires supported { SupportsFailure trail.now.job None why.now }
    requires entailed { entails_all trail.now.job.model trail.now.state why.now.literals }
    ensures { IfOk result (IsToldByAssumed trail.now) }
{
    match usable_assumptions(alloc, trail, why)? {
        Some(found) => Ok(Some(told_by(alloc, trail, found.requests, &found.literals)?)),
        None => Ok(None),
    }
}

/// The nogood of the requests and the literals, without those that every configuration has.
fn told_by(
    alloc: Global,
    trail: &Trail,
    requests: u64,
    literals: &[Literal],
) -> Result<Nogood, AllocError>
    requires trail { IsTrail trail.now }
    requires sound { IsSound trail.now.job.model trail.now.job.order
        (record { requests = requests; literals = literals.now }) }
    requires entailed { entails_all trail.now.job.model trail.now.state literals.now }
    ensures { IfOk result (IsToldBy trail.now literals.now) }
{
    let telling = not_always(alloc, trail, literals)?;
    Ok(Nogood {
        requests,
        literals: Literals::from_slice(alloc, &telling)?,
    })
}

/// The nogood without literals that others of it imply, where there are not too many.
fn parted(alloc: Global, problem: &Problem, nogood: Nogood) -> Result<Nogood, AllocError>
    ensures { IfOk result (IsParted problem.now nogood) }
{
    if nogood.literals.len() > MOST_COMPARED {
        return Ok(nogood);
    }
    let left = without_implied(alloc, problem, nogood.literals.as_slice())?;
    Ok(Nogood {
        requests: nogood.requests,
        literals: Literals::from_slice(alloc, &left)?,
    })
}
