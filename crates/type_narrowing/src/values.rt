//! The values of an instance of one possible type.
ghost use Rattle.std.specs.Prelude.{◌≡◌, ◌∷◌, [], ℤ, IfOk};
ghost use Rattle.prod_model.specs.Taxonomy.{attributes_at};
ghost use Rattle.prod_model.specs.declared.model.Domain.TheVariants.{Range};
ghost use Rattle.state_space.specs.State.{kinds_at};
ghost use Rattle.type_narrowing.specs.steps.Narrowing.{Narrows, IsOutcome, IsAmong};

use crate::reasons::{derive_of_kind, failed};
use config_value::Literal;
use prod_model::{AttrAt, Domain};
use reason_trail::{Reason, Trail};
use std::alloc::{AllocError, Global};

/// Narrows an attribute to the range that the only type of an instance has of it. A reason where no
/// value is left. Words stay as they are.
pub(crate) fn narrow_attribute(
    alloc: Global,
    trail: &mut Trail,
    i: u32,
    kind: u32,
    attribute: &AttrAt,
) -> Result<Option<Reason>, AllocError>
    requires sole { kinds_at trail.old.state i ≡ kind ∷ [] }
    requires declared { IsAmong (attributes_at trail.old.job.model kind) attribute.now }
    ensures narrows { Narrows trail.old trail.new }
    ensures outcome { IfOk result (IsOutcome trail.new) }
{
    match attribute.domain {
        Domain::Range { low, high } => narrow_range(alloc, trail, i, kind, attribute.id, low, high),
        Domain::Words(_) => Ok(None),
    }
}

/// Narrows an attribute to a range.
fn narrow_range(
    alloc: Global,
    trail: &mut Trail,
    i: u32,
    kind: u32,
    attr: u32,
    low: i64,
    high: i64,
) -> Result<Option<Reason>, AllocError>
    requires sole { kinds_at trail.old.state i ≡ kind ∷ [] }
    requires declared { IsAmong (attributes_at trail.old.job.model kind)
        (record { id = attr; domain = Range low high }) }
    ensures narrows { Narrows trail.old trail.new }
    ensures outcome { IfOk result (IsOutcome trail.new) }
{
    let failure = range_failure(alloc, trail, i, kind, attr, low, high)?;
    if failure.is_some() {
        return Ok(failure);
    }
    raise(alloc, trail, i, kind, attr, low)?;
    lower(alloc, trail, i, kind, attr, high)?;
    Ok(None)
}

/// The reason where all values are below a range, or all above it.
fn range_failure(
    alloc: Global,
    trail: &Trail,
    i: u32,
    kind: u32,
    attr: u32,
    low: i64,
    high: i64,
) -> Result<Option<Reason>, AllocError>
    requires sole { kinds_at trail.now.state i ≡ kind ∷ [] }
    requires declared { IsAmong (attributes_at trail.now.job.model kind)
        (record { id = attr; domain = Range low high }) }
    ensures { IfOk result (IsOutcome trail.now) }
{
    let _task = trail.job();
    let least = trail.state().low(i, attr);
    let greatest = trail.state().high(i, attr);
    if greatest < low {
        let literal = Literal::AtMost {
            instance: i,
            attr,
            value: greatest,
        };
        return failed(alloc, &[Literal::Kind { instance: i, kind }, literal]);
    }
    if high < least {
        let literal = Literal::AtLeast {
            instance: i,
            attr,
            value: least,
        };
        return failed(alloc, &[Literal::Kind { instance: i, kind }, literal]);
    }
    Ok(None)
}

/// A value is no less than the range.
fn raise(
    alloc: Global,
    trail: &mut Trail,
    i: u32,
    kind: u32,
    attr: u32,
    low: i64,
) -> Result<(), AllocError>
    requires sole { kinds_at trail.old.state i ≡ kind ∷ [] }
    requires declared { (high : ℤ) × IsAmong (attributes_at trail.old.job.model kind)
        (record { id = attr; domain = Range low high }) }
    ensures { Narrows trail.old trail.new }
{
    let _task = trail.job();
    if low <= trail.state().low(i, attr) {
        return Ok(());
    }
    let literal = Literal::AtLeast {
        instance: i,
        attr,
        value: low,
    };
    derive_of_kind(alloc, trail, i, kind, literal)
}

/// A value is no more than the range.
fn lower(
    alloc: Global,
    trail: &mut Trail,
    i: u32,
    kind: u32,
    attr: u32,
    high: i64,
) -> Result<(), AllocError>
    requires sole { kinds_at trail.old.state i ≡ kind ∷ [] }
    requires declared { (low : ℤ) × IsAmong (attributes_at trail.old.job.model kind)
        (record { id = attr; domain = Range low high }) }
    ensures { Narrows trail.old trail.new }
{
    let _task = trail.job();
    if trail.state().high(i, attr) <= high {
        return Ok(());
    }
    let literal = Literal::AtMost {
        instance: i,
        attr,
        value: high,
    };
    derive_of_kind(alloc, trail, i, kind, literal)
}
