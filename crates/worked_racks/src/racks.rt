//! Searches on the worked rack.
ghost use Rattle.std.specs.Prelude.{◌≡◌, IfOk, OnErr, IsTrue};
ghost use Rattle.std.specs.List.{list_all};
ghost use Rattle.state_space.specs.Entails.{entails as entails_of};
ghost use Rattle.reason_trail.specs.declared.reason.Why.TheVariants.{Assumed};
ghost use Rattle.reason_trail.specs.Trails.{IsPushed, started};
ghost use Rattle.worked_racks.specs.Unmet.{FirstIsUnmet};

use crate::jobs::job_of;
use crate::reach::is_out_of_reach;
use config_value::Literal;
use literal_book::Literals;
use reason_trail::{Change, Reason, Trail};
use std::alloc::{AllocError, Global};
use std::test::Fail;
use worked_models::models::RACKS;

/// Nothing is asked.
pub const NO_REQUESTS: &str = "{\"format\":\"order 1\"}";

/// The cards' power is to sum up to 81, which four of at most 20 don't reach.
pub const TOO_STRONG: &str = "{\"format\":\"order 1\",\"requests\":[\
    {\"name\":\"strong\",\"holds\":[\">=\",[\"sum\",\"cards\",\"power\"],81]}]}";

/// The same with 80, which they might.
pub const STRONG: &str = "{\"format\":\"order 1\",\"requests\":[\
    {\"name\":\"strong\",\"holds\":[\">=\",[\"sum\",\"cards\",\"power\"],80]}]}";

/// The trail of a search for the racks of an order, at its first state.
pub fn rack_trail(alloc: Global, order: &str) -> Result<Trail, Fail>
    ensures { IfOk result (λ t. t ≡ started t.job) }
{
    let job = job_of(alloc, RACKS, order)?;
    let trail = Trail::start(alloc, &job);
    drop(job);
    Ok(trail?)
}

/// Assumes a literal, if it fits.
pub fn assume(trail: &mut Trail, literal: &Literal) -> Result<Change, Fail>
    ensures job { trail.new.job ≡ trail.old.job }
    ensures pushed { IfOk result (λ c. IsPushed literal.now Assumed c trail.old trail.new) }
    ensures unchanged { OnErr result (trail.new ≡ trail.old) }
{
    if !trail.fits(literal) {
        return Err(Fail::from("it does not fit"));
    }
    Ok(trail.assume(*literal)?)
}

/// Assumes each of the literals, which fit and leave less.
pub fn assume_each(trail: &mut Trail, literals: &[Literal]) -> Result<(), Fail>
    ensures { trail.new.job ≡ trail.old.job }
{
    for literal in literals {
        if assume(trail, literal)? != Change::Smaller {
            return Err(Fail::from(literal));
        }
    }
    Ok(())
}

/// Whether the state of the trail entails each of the literals.
pub fn entails_each(trail: &Trail, literals: &[Literal]) -> bool
    ensures { result ≡ list_all (entails_of trail.now.job.model trail.now.state) literals.now }
{
    literals.iter().all(|l| trail.entails(l))
}

/// The reason that no configuration meets the first request, with literals beside it, and
/// perhaps the cut.
pub fn unmet(alloc: Global, literals: &[Literal], cut: bool) -> Result<Reason, AllocError>
    ensures { IfOk result (λ r. r ≡ record {
      requests = 1;
      literals = literals.now;
      cut = cut;
    }) }
{
    Ok(Reason {
        requests: 1,
        literals: Literals::from_slice(alloc, literals)?,
        cut,
    })
}

/// Whether no configuration meets the first request of a trail's job.
pub fn is_unmet(alloc: Global, trail: &Trail) -> bool
    ensures { IsTrue result → FirstIsUnmet trail.now.job.model trail.now.job.order }
{
    let job = trail.job();
    is_out_of_reach(alloc, job.problem(), job.order())
}
