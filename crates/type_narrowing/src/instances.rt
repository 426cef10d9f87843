//! An instance of one possible type.
ghost use Rattle.std.specs.Prelude.{◌≡◌, ◌≢◌, ◌<◌, ◌^◌, ◌∷◌, [], IfOk, IfSome};
ghost use Rattle.state_space.specs.State.{number_made, kinds_at};
ghost use Rattle.type_narrowing.specs.steps.Narrowing.{Narrows, IsOutcome};

use crate::ports::narrow_port;
use crate::values::narrow_attribute;
use prod_model::Problem;
use reason_trail::{Reason, Trail};
use std::alloc::{AllocError, Global};

/// Narrows an instance, where it has one possible type. A reason where nothing is left.
pub(crate) fn narrow_instance(
    alloc: Global,
    trail: &mut Trail,
    problem: &Problem,
    i: u32,
) -> Result<Option<Reason>, AllocError>
    requires problem { problem.now ≡ trail.old.job.model }
    requires made { i < number_made trail.old.state }
    ensures narrows { Narrows trail.old trail.new }
    ensures outcome { IfOk result (IsOutcome trail.new) }
{
    let _task = trail.job();
    match sole(trail.state().kinds(i)) {
        None => Ok(None),
        Some(kind) => {
            let failed = narrow_attributes(alloc, trail, problem, i, kind)?;
            if failed.is_some() {
                return Ok(failed);
            }
            narrow_ports(alloc, trail, problem, i, kind)
        }
    }
}

/// The only type of a mask, where there is one alone.
fn sole(kinds: u128) -> Option<u32>
    requires { kinds ≢ 0 }
    ensures { IfSome result (λ t. kinds ≡ 2 ^ t) }
{
    let first = kinds.trailing_zeros();
    if kinds == 1u128 << first {
        Some(first)
    } else {
        None
    }
}

/// Narrows each attribute of an instance of one type. A reason where no value is left.
fn narrow_attributes(
    alloc: Global,
    trail: &mut Trail,
    problem: &Problem,
    i: u32,
    kind: u32,
) -> Result<Option<Reason>, AllocError>
    requires problem { problem.now ≡ trail.old.job.model }
    requires sole { kinds_at trail.old.state i ≡ kind ∷ [] }
    ensures narrows { Narrows trail.old trail.new }
    ensures outcome { IfOk result (IsOutcome trail.new) }
{
    let _state = trail.state();
    for attribute in problem.attrs_of(kind) {
        let failed = narrow_attribute(alloc, trail, i, kind, attribute)?;
        if failed.is_some() {
            return Ok(failed);
        }
    }
    Ok(None)
}

/// Narrows each port of an instance of one type. A reason where no links are left.
fn narrow_ports(
    alloc: Global,
    trail: &mut Trail,
    problem: &Problem,
    i: u32,
    kind: u32,
) -> Result<Option<Reason>, AllocError>
    requires problem { problem.now ≡ trail.old.job.model }
    requires sole { kinds_at trail.old.state i ≡ kind ∷ [] }
    ensures narrows { Narrows trail.old trail.new }
    ensures outcome { IfOk result (IsOutcome trail.new) }
{
    let _state = trail.state();
    let instances = problem.model().instances;
    for port in problem.ports_of(kind) {
        let failed = narrow_port(alloc, trail, instances, i, kind, port)?;
        if failed.is_some() {
            return Ok(failed);
        }
    }
    Ok(None)
}
