//! Reasons of a few literals, and what is derived for them.
ghost use Rattle.std.specs.Prelude.{◌≡◌, ◌∷◌, [], false, IsTrue, IfOk, None, Some};
ghost use Rattle.config_value.specs.declared.literal.Literal.TheVariants.{Kind};
ghost use Rattle.state_space.specs.State.{kinds_at};
ghost use Rattle.state_space.specs.Entails.{fits};
ghost use Rattle.reason_trail.specs.Reasons.{Supports, SupportsHere};
ghost use Rattle.type_narrowing.specs.steps.Narrowing.{Narrows, resting_on, leaves_types};

use config_value::Literal;
use literal_book::Literals;
use reason_trail::{Reason, Trail};
use std::alloc::{AllocError, Global};

/// The failure for these literals.
pub(crate) fn failed(alloc: Global, literals: &[Literal]) -> Result<Option<Reason>, AllocError>
    ensures { IfOk result (λ failed. failed ≡ Some (resting_on literals.now)) }
{
    Ok(Some(reason_of(alloc, literals)?))
}

/// The reason of these literals.
fn reason_of(alloc: Global, literals: &[Literal]) -> Result<Reason, AllocError>
    ensures { IfOk result (λ r. r ≡ resting_on literals.now) }
{
    Ok(Reason {
        requests: 0,
        literals: Literals::from_slice(alloc, literals)?,
        cut: false,
    })
}

/// Derives a literal of values or links from the type of an instance.
pub(crate) fn derive_of_kind(
    alloc: Global,
    trail: &mut Trail,
    i: u32,
    kind: u32,
    l: Literal,
) -> Result<(), AllocError>
    requires sole { kinds_at trail.old.state i ≡ kind ∷ [] }
    requires fits { IsTrue (fits trail.old.job.model trail.old.state l) }
    requires part { IsTrue (leaves_types l) }
    requires supported { Supports trail.old.job None (resting_on (Kind i kind ∷ [])) l }
    ensures { Narrows trail.old trail.new }
{
    let _task = trail.job();
    let _state = trail.state();
    let kinds = [Literal::Kind { instance: i, kind }];
    let why = reason_of(alloc, &kinds)?;
    trail.derive(l, why)?;
    Ok(())
}

/// Derives a literal of values or links from all that the state says.
pub(crate) fn derive_here(trail: &mut Trail, l: Literal) -> Result<(), AllocError>
    requires fits { IsTrue (fits trail.old.job.model trail.old.state l) }
    requires part { IsTrue (leaves_types l) }
    requires supported { SupportsHere trail.old.job trail.old.state 0 false l }
    ensures { Narrows trail.old trail.new }
{
    let _task = trail.job();
    let _state = trail.state();
    trail.derive_here(l, 0, false)?;
    Ok(())
}
