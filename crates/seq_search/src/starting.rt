//! How a search begins: the root state, narrowed by the literals of the piece that fit.
ghost use Rattle.std.specs.Prelude.{◌≡◌, ◌≤◌, ◌<◌, ◌∷◌, [], IfOk, None, length};
ghost use Rattle.base_laws.specs.Places.{IsAt};
ghost use Rattle.reason_trail.specs.Trails.{started};
ghost use Rattle.seq_search.specs.steps.Opens.{IsStanding};
ghost use Rattle.seq_search.specs.steps.Starting.{IsGround, IsNarrowed};

use crate::node::narrow;
use crate::open_branch::OpenBranch;
use config_value::Literal;
use literal_book::Piece;
use nogood_store::Store;
use reason_trail::{Job, Trail};
use std::alloc::{AllocError, Global};

/// What a search stands on at its start.
#[derive(Drop)]
pub(crate) struct Ground {
    pub trail: Trail,
    pub store: Store,
    pub branches: Vec<OpenBranch>,
}

/// The trail of a job, narrowed by the literals of a piece that fit, with the branches that are open
/// at first, and an empty store. What is made is given back at once where memory runs out.
pub(crate) fn lay_ground(alloc: Global, job: &Job, piece: &Piece) -> Result<Ground, AllocError>
    ensures { IfOk result (IsGround job.now piece.now) }
{
    let mut trail = Trail::start(alloc, job)?;
    match first_branches(alloc, &mut trail, piece) {
        Ok(branches) => lay_ground_with(alloc, job, piece, trail, branches),
        Err(e) => {
            drop(trail);
            Err(e)
        }
    }
}

/// The same, with the trail and the branches.
fn lay_ground_with(
    alloc: Global,
    job: &Job,
    piece: &Piece,
    trail: Trail,
    branches: Vec<OpenBranch>,
) -> Result<Ground, AllocError>
    requires job { trail.job ≡ job.now }
    requires standing { IsStanding job.now trail piece.now branches.items None }
    requires one { length branches.items ≤ 1 }
    ensures { IfOk result (IsGround job.now piece.now) }
{
    match Store::new(alloc, job.problem(), job.order()) {
        Ok(store) => Ok(Ground {
            trail,
            store,
            branches,
        }),
        Err(e) => {
            drop(trail);
            drop(branches);
            Err(e)
        }
    }
}

/// The branches that are open at first, for a trail without entries: one, or none where nothing is
/// in the piece.
pub(crate) fn first_branches(
    alloc: Global,
    trail: &mut Trail,
    piece: &Piece,
) -> Result<Vec<OpenBranch>, AllocError>
    requires { trail.old ≡ started trail.old.job }
    ensures standing { IfOk result (λ branches.
        IsStanding trail.old.job trail.new piece.now branches.items None) }
    ensures one { IfOk result (λ branches. length branches.items ≤ 1) }
    ensures same_job { trail.new.job ≡ trail.old.job }
{
    let _task = trail.job();
    let mut branches = Vec::new(alloc);
    if !narrow_each(trail, piece.literals.as_slice())? {
        return Ok(branches);
    }
    branches.push(OpenBranch {
        len: trail.len(),
        literal: None,
    })?;
    Ok(branches)
}

/// Narrows by each of some literals that fits. Whether anything that has them all may be left.
fn narrow_each(trail: &mut Trail, literals: &[Literal]) -> Result<bool, AllocError>
    ensures narrowed { IfOk result (IsNarrowed trail.old.job.model literals.now trail.old.state
        trail.new.state) }
    ensures same_job { trail.new.job ≡ trail.old.job }
{
    for k in 0..literals.len() {
        if !narrow_if(trail, literal_at(literals, k))? {
            return Ok(false);
        }
    }
    Ok(true)
}

/// The literal at a place.
fn literal_at(literals: &[Literal], k: usize) -> Literal
    requires { k < length literals.now }
    ensures { IsAt literals.now k result }
{
    literals[k]
}

/// Narrows by a literal, if it fits and is not entailed. Whether anything that has it may be left.
fn narrow_if(trail: &mut Trail, l: Literal) -> Result<bool, AllocError>
    ensures narrowed { IfOk result (IsNarrowed trail.old.job.model (l ∷ []) trail.old.state
        trail.new.state) }
    ensures same_job { trail.new.job ≡ trail.old.job }
{
    let _right = trail.job();
    if !trail.fits(&l) {
        return Ok(true);
    }
    if trail.entails(&l) {
        return Ok(true);
    }
    Ok(narrow(trail, l)?)
}
