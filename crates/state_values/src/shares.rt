//! What one made instance adds to a count, a sum or a total.
ghost use Rattle.std.specs.Prelude.{◌≡◌, ◌≢◌, ◌<◌, IsSome};
ghost use Rattle.prod_model.specs.Valid.{IsValid};
ghost use Rattle.state_space.specs.State.{IsState, number_made, domain_at, low_at, high_at};
ghost use Rattle.state_values.specs.Sights.{is_surely_under, is_maybe_under, under_type, one_if};
ghost use Rattle.state_values.specs.Told.{told};
ghost use Rattle.state_values.specs.steps.Added.{share, linked_in, linked_at as linked_at_of, share_of, HasValues};

use crate::interval::Interval;
use crate::kleene::Kleene;
use config_value::Literal;
use partial_state::Partial;
use port_wildcards::PortDomain;
use prod_model::Problem;

/// What is added up over instances.
#[derive(Clone, Copy)]
pub enum Added {
    /// One for each link of a port.
    Links(PortDomain),
    /// One for each link to an instance under a type.
    LinksUnder(PortDomain, u32),
    /// The values of linked instances: the port's target, and the attribute.
    LinkedValues(PortDomain, u32, u32),
    /// One for each instance under a type.
    Instances(u32),
    /// The values of the instances under a type: the type, and the attribute.
    Values(u32, u32),
}

/// What a made instance adds.
pub(crate) fn share_at(problem: &Problem, p: &Partial, added: &Added, j: u32) -> Interval
    requires state { IsState problem.now p.now }
    requires made { j < number_made p.now }
    requires values { HasValues problem.now p.now added.now j }
    ensures { result ≡ share_of problem.now p.now added.now j }
{
    match *added {
        Added::Links(q) => linked(&q, j).share(1, 1),
        Added::LinksUnder(q, kind) => {
            linked(&q, j).share(
                one_if(is_surely_under(problem, p, kind, j)),
                one_if(is_maybe_under(problem, p, kind, j)),
            )
        }
        Added::LinkedValues(q, target, attr) => {
            let counted = linked_at(problem, p, &q, target, j);
            value_share(p, counted, j, attr)
        }
        Added::Instances(kind) => under(problem, p, kind, j).share(1, 1),
        Added::Values(kind, attr) => {
            let counted = under(problem, p, kind, j);
            value_share(p, counted, j, attr)
        }
    }
}

/// Whether a port links a made instance.
pub(crate) fn linked(q: &PortDomain, j: u32) -> Kleene
    ensures { result ≡ linked_in q.now j }
{
    if q.required.contains(j) {
        Kleene::True
    } else if q.possible.contains(j) {
        Kleene::Open
    } else {
        Kleene::False
    }
}

/// Whether it links one that may be under the target.
fn linked_at(problem: &Problem, p: &Partial, q: &PortDomain, target: u32, j: u32) -> Kleene
    requires state { IsState problem.now p.now }
    requires made { j < number_made p.now }
    ensures { result ≡ linked_at_of problem.now p.now q.now target j }
{
    if is_maybe_under(problem, p, target, j) {
        linked(q, j)
    } else {
        Kleene::False
    }
}

/// What a value adds to a sum in which it may be counted.
fn value_share(p: &Partial, counted: Kleene, j: u32, attr: u32) -> Interval
    requires { counted ≢ Kleene.False → IsSome (domain_at p.now j attr) }
    ensures { result ≡ share counted (low_at p.now j attr) (high_at p.now j attr) }
{
    if counted == Kleene::False {
        counted.share(0, 0)
    } else {
        counted.share(p.low(j, attr), p.high(j, attr))
    }
}

/// Whether a made instance is under a type.
pub(crate) fn under(problem: &Problem, p: &Partial, kind: u32, j: u32) -> Kleene
    requires state { IsState problem.now p.now }
    requires made { j < number_made p.now }
    ensures { result ≡ told (under_type problem.now p.now kind j) }
{
    if is_surely_under(problem, p, kind, j) {
        Kleene::True
    } else if is_maybe_under(problem, p, kind, j) {
        Kleene::Open
    } else {
        Kleene::False
    }
}

/// Whether every possible type of a made instance is under the type.
#[tactic(auto, using(crate::proofs::KindsTold::surely_entailed))]
pub(crate) fn is_surely_under(problem: &Problem, p: &Partial, kind: u32, j: u32) -> bool
    requires state { IsState problem.now p.now }
    requires made { j < number_made p.now }
    ensures { result ≡ is_surely_under problem.now p.now kind j }
{
    p.entails(problem, &Literal::Kind { instance: j, kind })
}

/// Whether some possible type is.
#[tactic(auto, using(crate::proofs::KindsTold::maybe_entailed))]
pub(crate) fn is_maybe_under(problem: &Problem, p: &Partial, kind: u32, j: u32) -> bool
    requires state { IsState problem.now p.now }
    requires made { j < number_made p.now }
    ensures { result ≡ is_maybe_under problem.now p.now kind j }
{
    !p.entails(problem, &Literal::NotKind { instance: j, kind })
}

/// 1 where it is so, and else 0.
pub(crate) fn one_if(counts: bool) -> i64
    ensures { result ≡ one_if counts }
{
    if counts { 1 } else { 0 }
}
