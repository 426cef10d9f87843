//! What was assumed on a trail.
ghost use Rattle.std.specs.Prelude.{◌≡◌, IfOk};
ghost use Rattle.std.specs.List.{list_all};
ghost use Rattle.state_space.specs.Entails.{entails};
ghost use Rattle.reason_trail.specs.Assumptions.{asked_by as asked_by_of, assumed as assumed_of, assumed_by as assumed_by_of, names_cut as names_cut_of, some_names_cut as some_names_cut_of};
ghost use Rattle.reason_trail.specs.Trails.{length_of};
ghost use Rattle.conflict_learn.specs.steps.Assuming.{AskForAll, AreUsable};

use literal_book::Literal;
use reason_trail::{Entry, Reason, Trail, Why};
use std::alloc::{AllocError, Global};

/// The literals that were assumed, in order, with all requests that a reason asks for.
#[derive(Drop)]
pub(crate) struct Assumptions {
    pub(crate) requests: u64,
    pub(crate) literals: Vec<Literal>,
}

/// What was assumed on the way to a failure for a reason. Nothing where a reason on the trail
/// names the cut, or the state no longer entails all that was assumed. `AllocError` where memory
/// runs out.
pub(crate) fn usable_assumptions(
    alloc: Global,
    trail: &Trail,
    why: &Reason,
) -> Result<Option<Assumptions>, AllocError>
    ensures { IfOk result (AreUsable trail.now why.now) }
{
    if some_names_cut(trail) {
        return Ok(None);
    }
    let literals = assumed(alloc, trail)?;
    if !are_entailed(trail, &literals) {
        return Ok(None);
    }
    Ok(Some(Assumptions {
        requests: all_requests(trail, why),
        literals,
    }))
}

/// Whether a reason on the trail names the cut.
fn some_names_cut(trail: &Trail) -> bool
    ensures { result ≡ some_names_cut_of trail.now }
{
    for n in 0..trail.len() {
        if names_cut(&trail.entry(n).why) {
            return true;
        }
    }
    false
}

/// Whether why a literal holds names the cut.
fn names_cut(why: &Why) -> bool
    ensures { result ≡ names_cut_of why.now }
{
    match why {
        Why::Assumed => false,
        Why::Written(reason) => reason.cut,
        Why::Here { cut, .. } => *cut,
    }
}

/// The literals that were assumed, in order.
fn assumed(alloc: Global, trail: &Trail) -> Result<Vec<Literal>, AllocError>
    ensures { IfOk result (λ literals. literals.items ≡ assumed_of trail.now) }
{
    let mut literals = Vec::new(alloc);
    for n in 0..trail.len() {
        if let Some(literal) = assumed_by(trail.entry(n)) {
            literals.push(literal)?;
        }
    }
    Ok(literals)
}

/// The literal of an entry, where it was assumed.
fn assumed_by(entry: &Entry) -> Option<Literal>
    ensures { result ≡ assumed_by_of entry.now }
{
    match entry.why {
        Why::Assumed => Some(entry.literal),
        _ => None,
    }
}

/// Whether the state of the trail entails all of the literals.
fn are_entailed(trail: &Trail, literals: &[Literal]) -> bool
    ensures { result ≡ list_all (entails trail.now.job.model trail.now.state) literals.now }
{
    literals.iter().all(|l| trail.entails(l))
}

/// All requests that the reason asks for, or a reason on the trail.
fn all_requests(trail: &Trail, why: &Reason) -> u64
    ensures { AskForAll trail.now why.now (length_of trail.now) result }
{
    let mut requests = why.requests;
    for n in 0..trail.len() {
        requests |= asked_by(&trail.entry(n).why);
    }
    requests
}

/// The requests that why a literal holds asks for.
fn asked_by(why: &Why) -> u64
    ensures { result ≡ asked_by_of why.now }
{
    match why {
        Why::Assumed => 0,
        Why::Written(reason) => reason.requests,
        Why::Here { requests, .. } => *requests,
    }
}
