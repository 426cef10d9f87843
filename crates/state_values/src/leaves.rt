//! Between which numbers the numbers lie that have no numbers in them: at their type, and in a
//! state.
ghost use Rattle.std.specs.Prelude.{◌≡◌, ◌<◌, ◌&&◌, pos, IsSome, IsTrue, Some};
ghost use Rattle.std.specs.Option.{option_copied};
ghost use Rattle.prod_model.specs.declared.expr.Expr.TheOpen as form;
ghost use Rattle.prod_model.specs.Forest.{is_type, is_leaf, is_a as is_a_of};
ghost use Rattle.prod_model.specs.TypeMasks.{IsMask};
ghost use Rattle.prod_model.specs.Taxonomy.{attribute_of, port_of};
ghost use Rattle.prod_model.specs.Valid.{IsValid};
ghost use Rattle.state_space.specs.State.{IsState};
ghost use Rattle.state_values.specs.Seen.{as_range};
ghost use Rattle.state_values.specs.Sights.{least_at, greatest_at, or_zero, share_leaf};
ghost use Rattle.state_values.specs.steps.Ends.{ends_of};
ghost use Rattle.state_values.specs.steps.Forms.{form_own, form_seen, least_of, greatest_of, multiples as multiples_of};
ghost use Rattle.state_values.specs.steps.Parts.{HasAttribute, HasPort, AtTarget, Stands};

use crate::interval::{Ends, Interval, between, counts};
use crate::ranged::{Ranged, make_ranged};
use crate::shares::{Added, one_if};
use crate::sums::{Unmade, multiples, tally};
use partial_state::Partial;
use port_wildcards::PortDomain;
use prod_model::{AttrAt, Domain, PortAt, Problem};

/// An attribute.
pub(crate) fn value(problem: &Problem, p: &Partial, kind: u32, i: u32, a: u32) -> Ranged
    requires { HasAttribute problem.now p.now kind i a }
    ensures own { result.own ≡ form_own problem.now kind (form.Attr a) }
    ensures seen { result.seen
        ≡ ends_of (as_range (form_seen problem.now p.now kind i (form.Attr a))) }
{
    let seen = between(i128::from(p.low(i, a)), i128::from(p.high(i, a)));
    make_ranged(range_at(problem, kind, a).wide(), seen)
}

/// How many links a port has.
pub(crate) fn links(problem: &Problem, p: &Partial, kind: u32, i: u32, port: u32) -> Ranged
    requires stands { Stands problem.now p.now kind i }
    requires has { HasPort problem.now p.now kind i port }
    ensures own { result.own ≡ form_own problem.now kind (form.Count port) }
    ensures seen { result.seen
        ≡ ends_of (as_range (form_seen problem.now p.now kind i (form.Count port))) }
{
    let declared = port_at(problem, kind, port);
    let q = p.port(i, port);
    let seen = tally(problem, p, &Added::Links(q), fresh(&q, 1, 1));
    make_ranged(counts(declared.low, declared.high), seen)
}

/// How many of them lead to instances under a type.
pub(crate) fn links_under(
    problem: &Problem,
    p: &Partial,
    kind: u32,
    i: u32,
    port: u32,
    of: u32,
) -> Ranged
    requires stands { Stands problem.now p.now kind i }
    requires has { HasPort problem.now p.now kind i port }
    requires known { IsTrue (is_type problem.now of) }
    ensures own { result.own ≡ form_own problem.now kind (form.CountOf port of) }
    ensures seen { result.seen
        ≡ ends_of (as_range (form_seen problem.now p.now kind i (form.CountOf port of))) }
{
    let declared = port_at(problem, kind, port);
    let q = p.port(i, port);
    let low = one_if(is_a(problem, declared.target, of));
    let high = one_if(shares_leaf(problem, of, declared.target));
    let seen = tally(problem, p, &Added::LinksUnder(q, of), fresh(&q, low, high));
    make_ranged(counts(0, declared.high), seen)
}

/// The sum of an attribute over the links of a port.
pub(crate) fn linked_values(
    problem: &Problem,
    p: &Partial,
    kind: u32,
    i: u32,
    port: u32,
    a: u32,
) -> Ranged
    requires stands { Stands problem.now p.now kind i }
    requires has { HasPort problem.now p.now kind i port }
    requires known { AtTarget problem.now kind port (λ u. IsSome (attribute_of problem.now u a)) }
    ensures own { result.own ≡ form_own problem.now kind (form.Sum port a) }
    ensures seen { result.seen
        ≡ ends_of (as_range (form_seen problem.now p.now kind i (form.Sum port a))) }
{
    let _model = problem.model();
    let declared = port_at(problem, kind, port);
    let range = range_at(problem, declared.target, a);
    let q = p.port(i, port);
    let added = Added::LinkedValues(q, declared.target, a);
    let seen = tally(problem, p, &added, fresh(&q, range.low, range.high));
    let own = unmade(declared.low, declared.high, range);
    make_ranged(multiples(own), seen)
}

/// The sum of an attribute over all instances under a type.
pub(crate) fn values_under(
    problem: &Problem,
    p: &Partial,
    kind: u32,
    i: u32,
    of: u32,
    a: u32,
) -> Ranged
    requires state { IsState problem.now p.now }
    requires known { IsSome (attribute_of problem.now of a) }
    ensures own { result.own ≡ form_own problem.now kind (form.Total of a) }
    ensures seen { result.seen
        ≡ ends_of (as_range (form_seen problem.now p.now kind i (form.Total of a))) }
{
    let instances = problem.model().instances;
    let range = range_at(problem, of, a);
    let rest = unmade(0, instances.saturating_sub(p.made()), range);
    let seen = tally(problem, p, &Added::Values(of, a), rest);
    make_ranged(multiples(unmade(0, instances, range)), seen)
}

/// How many instances are under a type.
pub(crate) fn instances_under(problem: &Problem, p: &Partial, kind: u32, i: u32, of: u32) -> Ranged
    requires { IsState problem.now p.now }
    ensures own { result.own ≡ form_own problem.now kind (form.Number of) }
    ensures seen { result.seen
        ≡ ends_of (as_range (form_seen problem.now p.now kind i (form.Number of))) }
{
    let instances = problem.model().instances;
    let rest = unmade(
        0,
        instances.saturating_sub(p.made()),
        Interval { low: 1, high: 1 },
    );
    let seen = tally(problem, p, &Added::Instances(of), rest);
    make_ranged(counts(0, instances), seen)
}

/// The links of a port to instances that aren't made yet, each of which adds a number.
fn fresh(q: &PortDomain, low: i64, high: i64) -> Unmade
    ensures { result ≡ record {
      fewest = q.now.fresh_low;
      most = q.now.fresh_high;
      low = low;
      high = high;
    } }
{
    Unmade {
        fewest: q.fresh_low,
        most: q.fresh_high,
        low,
        high,
    }
}

fn unmade(fewest: u32, most: u32, range: Interval) -> Unmade
    ensures { result ≡ record {
      fewest = fewest;
      most = most;
      low = range.low;
      high = range.high;
    } }
{
    Unmade {
        fewest,
        most,
        low: range.low,
        high: range.high,
    }
}

/// The range of an attribute at a type; 0 where it has words or the type has it not.
fn range_at(problem: &Problem, kind: u32, a: u32) -> Interval
    ensures low { result.low ≡ or_zero (least_at problem.now kind a) }
    ensures high { result.high ≡ or_zero (greatest_at problem.now kind a) }
{
    match problem.attribute_of(kind, a) {
        Some(attribute) => range_of(attribute),
        None => Interval { low: 0, high: 0 },
    }
}

fn range_of(attribute: &AttrAt) -> Interval
    ensures low { result.low ≡ or_zero (least_of attribute.now) }
    ensures high { result.high ≡ or_zero (greatest_of attribute.now) }
{
    match &attribute.domain {
        Domain::Range { low, high } => Interval {
            low: *low,
            high: *high,
        },
        Domain::Words(_) => Interval { low: 0, high: 0 },
    }
}

/// The port of a type that has it.
pub(crate) fn port_at(problem: &Problem, kind: u32, port: u32) -> &PortAt
    requires { IsSome (port_of problem.now kind port) }
    ensures { port_of problem.now kind port ≡ Some result.now }
{
    match problem.port_of(kind, port) {
        Some(found) => found,
        None => unreachable!(),
    }
}

/// Whether a type is another or under it.
#[tactic(auto, using(prod_model::proofs::NoTypes::is_a_outside))]
fn is_a(problem: &Problem, kind: u32, of: u32) -> bool
    ensures { result ≡ is_a_of problem.now kind of }
{
    let model = problem.model();
    model.is_type(kind) && model.is_type(of) && problem.is_a(kind, of)
}

/// Whether some leaf is under both types.
fn shares_leaf(problem: &Problem, of: u32, target: u32) -> bool
    ensures { result ≡ share_leaf problem.now of target }
{
    leaves_under(problem, of) & leaves_under(problem, target) != 0
}

/// The leaves that are a type or under it, as a mask. A number that is no type has none.
#[tactic(auto, using(partial_state::proofs::KindTests::none_under))]
fn leaves_under(problem: &Problem, kind: u32) -> u128
    ensures { IsMask result (λ t. is_leaf problem.now t && is_a_of problem.now t kind) }
{
    if problem.model().is_type(kind) {
        problem.leaves_under(kind)
    } else {
        0
    }
}
