//! The ports of an instance of one possible type.
ghost use Rattle.std.specs.Prelude.{◌≡◌, ◌∷◌, [], IfOk};
ghost use Rattle.prod_model.specs.Taxonomy.{ports_at};
ghost use Rattle.state_space.specs.State.{kinds_at};
ghost use Rattle.type_narrowing.specs.steps.Narrowing.{Narrows, IsOutcome, IsAmong};

use crate::reasons::{derive_here, derive_of_kind, failed};
use config_value::Literal;
use prod_model::PortAt;
use reason_trail::{Reason, Trail};
use std::alloc::{AllocError, Global};

/// Narrows the later links of a port, which the only type of an instance has, to the instances that
/// are left and to what the required links leave. A reason where that is too few.
pub(crate) fn narrow_port(
    alloc: Global,
    trail: &mut Trail,
    instances: u32,
    i: u32,
    kind: u32,
    port: &PortAt,
) -> Result<Option<Reason>, AllocError>
    requires instances { instances ≡ trail.old.job.model.instances }
    requires sole { kinds_at trail.old.state i ≡ kind ∷ [] }
    requires declared { IsAmong (ports_at trail.old.job.model kind) port.now }
    ensures narrows { Narrows trail.old trail.new }
    ensures outcome { IfOk result (IsOutcome trail.new) }
{
    let failure = port_failure(alloc, trail, instances, i, kind, port)?;
    if failure.is_some() {
        return Ok(failure);
    }
    limit_to_left(alloc, trail, instances, i, kind, port)?;
    limit_beside_required(alloc, trail, i, kind, port)?;
    Ok(None)
}

/// The reason where a port must have more links than its type allows, or more later ones than
/// instances are left.
fn port_failure(
    alloc: Global,
    trail: &Trail,
    instances: u32,
    i: u32,
    kind: u32,
    port: &PortAt,
) -> Result<Option<Reason>, AllocError>
    requires instances { instances ≡ trail.now.job.model.instances }
    requires sole { kinds_at trail.now.state i ≡ kind ∷ [] }
    requires declared { IsAmong (ports_at trail.now.job.model kind) port.now }
    ensures { IfOk result (IsOutcome trail.now) }
{
    let _task = trail.job();
    let made = trail.state().made();
    let links = trail.state().port(i, port.id);
    let count = links.required_count() + links.fresh_low;
    if port.high < count {
        let literal = Literal::LinksAtLeast {
            instance: i,
            port: port.id,
            count,
        };
        return failed(alloc, &[Literal::Kind { instance: i, kind }, literal]);
    }
    if instances - made < links.fresh_low {
        let literal = Literal::FreshAtLeast {
            instance: i,
            port: port.id,
            from: made,
            count: links.fresh_low,
        };
        return failed(alloc, &[literal]);
    }
    Ok(None)
}

/// A port has no more later links than instances are left.
fn limit_to_left(
    alloc: Global,
    trail: &mut Trail,
    instances: u32,
    i: u32,
    kind: u32,
    port: &PortAt,
) -> Result<(), AllocError>
    requires instances { instances ≡ trail.old.job.model.instances }
    requires sole { kinds_at trail.old.state i ≡ kind ∷ [] }
    requires declared { IsAmong (ports_at trail.old.job.model kind) port.now }
    ensures { Narrows trail.old trail.new }
{
    let _task = trail.job();
    let made = trail.state().made();
    let left = instances - made;
    if trail.state().port(i, port.id).fresh_high <= left {
        return Ok(());
    }
    let literal = Literal::FreshAtMost {
        instance: i,
        port: port.id,
        from: made,
        count: left,
    };
    derive_of_kind(alloc, trail, i, kind, literal)
}

/// A port has no more later links than its type allows beside the required ones.
fn limit_beside_required(
    alloc: Global,
    trail: &mut Trail,
    i: u32,
    kind: u32,
    port: &PortAt,
) -> Result<(), AllocError>
    requires sole { kinds_at trail.old.state i ≡ kind ∷ [] }
    requires declared { IsAmong (ports_at trail.old.job.model kind) port.now }
    ensures { Narrows trail.old trail.new }
{
    let _task = trail.job();
    let made = trail.state().made();
    let links = trail.state().port(i, port.id);
    let required = links.required_count();
    if port.high < required || links.fresh_high <= port.high - required {
        return Ok(());
    }
    let literal = Literal::FreshAtMost {
        instance: i,
        port: port.id,
        from: made,
        count: port.high - required,
    };
    if required == 0 {
        return derive_of_kind(alloc, trail, i, kind, literal);
    }
    derive_here(trail, literal)
}
