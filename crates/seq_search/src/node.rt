//! One node of a search: what is below an open branch. All that may run out of memory stands here,
//! and what the search keeps is changed afterwards; so want of memory leaves it as it was.
ghost use Rattle.std.specs.Prelude.{◌≡◌, ◌≤◌, ◌<◌, ℕ, IsTrue, IsFalse, IfOk, IfSome, Option, Some, List, length};
ghost use Rattle.config_value.specs.declared.configuration.Instance.{Instance};
ghost use Rattle.config_value.specs.Satisfies.{satisfies};
ghost use Rattle.literal_book.specs.declared.nogood.Nogood.{Nogood};
ghost use Rattle.literal_book.specs.declared.nogood.Piece.{Piece};
ghost use Rattle.state_space.specs.Covers.{Covers};
ghost use Rattle.state_space.specs.Size.{size_of};
ghost use Rattle.state_space.specs.Whole.{is_whole, whole_configuration};
ghost use Rattle.reason_trail.specs.Jobs.{IsWanted, beats_best as beats_best_of};
ghost use Rattle.reason_trail.specs.Propagators.{IsFailure};
ghost use Rattle.reason_trail.specs.Trails.{IsTrail, Extends, cut_to, length_of};
ghost use Rattle.nogood_store.specs.Stores.{AppliesAt, IsSearched};
ghost use Rattle.branch_cut.specs.Cuts.{IsCutDemanded};
ghost use Rattle.seq_search.specs.OpenBranches.{CoversOpen, open_size};
ghost use Rattle.seq_search.specs.steps.Opens.{open_at, MayBeTaken};
ghost use Rattle.seq_search.specs.steps.Nodes.{IsEntered, IsFound, IsEnd, IfSplit, IsTested, is_left as is_left_of};

use crate::found::Found;
use crate::open_branch::OpenBranch;
use crate::seeking::{beats_best, is_sought};
use branch_cut::{choose, cut_dead, is_stuck};
use config_value::{Configuration, Literal};
use conflict_learn::{Learned, learn};
use literal_book::Piece;
use nogood_store::Store;
use reason_trail::{Change, Job, Propagate, Reason, Step, Trail};
use std::alloc::{AllocError, Global};

/// What is below the branch that was left at a length of the trail. The trail is left as far as it
/// came, also after `AllocError`; at the lengths up to that of the branch it has the states that it
/// had.
pub(crate) fn explore<P: Propagate>(
    alloc: Global,
    trail: &mut Trail,
    props: &mut P,
    store: &mut Store,
    job: &Job,
    piece: &Piece,
    best: &Option<Configuration>,
    taken: OpenBranch,
) -> Result<Found, AllocError>
    requires job { trail.old.job ≡ job.now }
    requires right { IsTrail trail.old }
    requires props { P.job props.old ≡ job.now }
    requires model { store.old.model ≡ job.now.model }
    requires order { store.old.order ≡ job.now.order }
    requires wanted { IfSome best.now (IsWanted job.now) }
    requires within { taken.len ≤ length_of trail.old }
    requires taken { MayBeTaken job.now.model (open_at trail.old taken) }

    ensures found { IfOk result (IsFound job.now piece.now store.old.nogoods best.now
        (CoversOpen job.now.model (open_at trail.old taken)) trail.new.state) }
    ensures lesser { IfOk result (IfSplit
        (size_of job.now.model trail.new.state ≤ open_size job.now.model (open_at trail.old taken))) }
    ensures settled { IfOk result (IfSplit (P.settled job.now trail.new.state)) }
    ensures extends { Extends (cut_to trail.old taken.len) trail.new }

    ensures same_job { P.job props.new ≡ job.now }
    ensures searched { IsSearched store.old store.new }
{
    if !enter(trail, taken)? {
        return Ok(Found::Ended);
    }
    match props.run(trail)? {
        Step::Failed(why) => taught(alloc, trail, job, &why),
        Step::Stable => look(trail, store, job, piece, best),
    }
}

/// Goes back to where the branch was left, and narrows by its literal. Whether anything may be left.
fn enter(trail: &mut Trail, taken: OpenBranch) -> Result<bool, AllocError>
    requires right { IsTrail trail.old }
    requires within { taken.len ≤ length_of trail.old }
    requires taken { MayBeTaken trail.old.job.model (open_at trail.old taken) }
    ensures entered { IfOk result
        (IsEntered trail.old.job.model (open_at trail.old taken) trail.new.state) }
    ensures extends { Extends (cut_to trail.old taken.len) trail.new }
{
    trail.back_to(taken.len);
    match taken.literal {
        None => Ok(true),
        Some(l) => narrow(trail, l),
    }
}

/// Narrows by a literal that fits and is not entailed. Whether anything may be left.
pub(crate) fn narrow(trail: &mut Trail, l: Literal) -> Result<bool, AllocError>
    requires right { IsTrail trail.old }
    requires taken { MayBeTaken trail.old.job.model
        (record { state = trail.old.state; literal = Some l }) }
    ensures entered { IfOk result (IsEntered trail.old.job.model
        (record { state = trail.old.state; literal = Some l }) trail.new.state) }
    ensures extends { Extends trail.old trail.new }
{
    let change = trail.assume(l)?;
    Ok(is_left(change))
}

/// Whether a change leaves anything.
fn is_left(change: Change) -> bool
    ensures { result ≡ is_left_of change }
{
    match change {
        Change::Same | Change::Smaller => true,
        Change::Empty => false,
    }
}

/// What a failure of filtering teaches: nothing is left, and a nogood says so where the failure does
/// not rest on the cut.
fn taught(alloc: Global, trail: &Trail, job: &Job, why: &Reason) -> Result<Found, AllocError>
    requires job { trail.now.job ≡ job.now }
    requires failure { IsFailure job.now trail.now.state why.now }
    ensures found { (piece : Piece) (nogoods : List Nogood) (best : Option (List Instance))
        → IfOk result (IsFound job.now piece nogoods best (Covers job.now.model trail.now.state)
        trail.now.state) }
    ensures end { IfOk result IsEnd }
{
    let _state = trail.state();
    match learn(alloc, job, trail, why)? {
        Learned::Nogood(nogood) => Ok(Found::Learnt(nogood)),
        Learned::RestsOnCut => Ok(Found::Ended),
    }
}

/// What is below a settled state: nothing, where a nogood applies, an instance has to be made and
/// none can be, or none can beat the best so far; one configuration, where the state is whole; and
/// else two ways on.
fn look(
    trail: &Trail,
    store: &mut Store,
    job: &Job,
    piece: &Piece,
    best: &Option<Configuration>,
) -> Result<Found, AllocError>
    requires job { trail.now.job ≡ job.now }
    requires model { store.old.model ≡ job.now.model }
    requires order { store.old.order ≡ job.now.order }
    requires wanted { IfSome best.now (IsWanted job.now) }
    ensures found { IfOk result (IsFound job.now piece.now store.old.nogoods best.now
        (Covers job.now.model trail.now.state) trail.now.state) }
    ensures right { IsTrail trail.now }
    ensures searched { IsSearched store.old store.new }
{
    let _task = trail.job();
    let _right = store.len();
    if is_excluded(trail, store, job) {
        return Ok(Found::Ended);
    }
    if is_stuck(job.problem(), trail.state()) {
        return Ok(Found::Ended);
    }
    if is_cut(trail, job, best) {
        return Ok(Found::Ended);
    }
    match choose(job.problem(), trail.state()) {
        Some(branch) => Ok(Found::Split(branch)),
        None => test_whole(trail, job, piece, best),
    }
}

/// Whether a nogood applies.
fn is_excluded(trail: &Trail, store: &mut Store, job: &Job) -> bool
    requires job { trail.now.job ≡ job.now }
    requires model { store.old.model ≡ job.now.model }
    ensures some { IsTrue result → (place : ℕ)
        × AppliesAt job.now.model job.now.goal.keep trail.now.state store.old.nogoods place }
    ensures none { IsFalse result → (place : ℕ)
        → ¬ AppliesAt job.now.model job.now.goal.keep trail.now.state store.old.nogoods place }
    ensures searched { IsSearched store.old store.new }
{
    match store.find(trail, job.goal().keep.as_slice()) {
        Some(_) => true,
        None => false,
    }
}

/// Whether the best so far cuts: nothing in the state can beat it.
fn is_cut(trail: &Trail, job: &Job, best: &Option<Configuration>) -> bool
    requires job { trail.now.job ≡ job.now }
    requires wanted { IfSome best.now (IsWanted job.now) }
    ensures dead { IsTrue result → (c : List Instance) → IsTrue (satisfies job.now.model c)
        → Covers job.now.model trail.now.state c → IsFalse (beats_best_of job.now best.now c) }
    ensures demanded { IsFalse result
        → IfSome best.now (λ d. ¬ IsCutDemanded job.now trail.now.state d) }
{
    // The state is one of a trail.
    let _task = trail.job();
    match best {
        Some(d) => cut_dead(job, trail.state(), d),
        None => false,
    }
}

/// Tests the one configuration of a whole state.
fn test_whole(
    trail: &Trail,
    job: &Job,
    piece: &Piece,
    best: &Option<Configuration>,
) -> Result<Found, AllocError>
    requires job { trail.now.job ≡ job.now }
    requires wanted { IfSome best.now (IsWanted job.now) }
    requires whole { IsTrue (is_whole trail.now.state) }
    ensures { IfOk result (IsTested job.now piece.now best.now
        (whole_configuration job.now.model trail.now.state)) }
{
    let c = trail.state().to_configuration(job.problem())?;
    if is_sought(job, piece, &c) && beats_best(job, best, &c) {
        return Ok(Found::Better(c));
    }
    Ok(Found::Ended)
}
