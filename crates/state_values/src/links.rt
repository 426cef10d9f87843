//! Sets of instances and the links that a port may or must have there.
ghost use Rattle.std.specs.Prelude.{◌≡◌, ◌&&◌, ◌||◌, ◌==◌, ◌<◌, ℕ, IsTrue, IsSome};
ghost use Rattle.std.specs.List.{list_all, list_any};
ghost use Rattle.instance_set.specs.InstanceSets.{is_member};
ghost use Rattle.partial_state.specs.Masks.{instances_of};
ghost use Rattle.prod_model.specs.Taxonomy.{port_of};
ghost use Rattle.state_space.specs.Sets.{has_number};
ghost use Rattle.state_space.specs.State.{IsState, number_made};
ghost use Rattle.state_values.specs.Sights.{is_surely_under, port_state};
ghost use Rattle.state_values.specs.steps.Truths.{StandAmong, HavePort, links_only as links_only_of, links_some as links_some_of};

use crate::shares::is_surely_under;
use crate::truth_sets::Truths;
use instance_set::InstanceSet;
use partial_state::Partial;
use port_wildcards::PortDomain;
use prod_model::Problem;

/// The instances that a port may link from some instance of a set, if they are surely under its
/// target.
pub(crate) fn linkable(
    problem: &Problem,
    p: &Partial,
    among: InstanceSet,
    port: u32,
    target: u32,
) -> InstanceSet
    requires state { IsState problem.now p.now }
    requires has { HavePort p.now among port }
    ensures stand { StandAmong problem.now p.now target result }
    ensures all { (i j : ℕ)
        → IsTrue (is_member among i)
        → IsTrue (has_number (port_state p.now i port).possible j)
        → IsTrue (is_surely_under problem.now p.now target j)
        → IsTrue (is_member result j) }
{
    surely_among(problem, p, target, possible_from(problem, p, among, port))
}

/// The instances that a port may link from some instance of a set.
fn possible_from(problem: &Problem, p: &Partial, among: InstanceSet, port: u32) -> InstanceSet
    requires state { IsState problem.now p.now }
    requires has { HavePort p.now among port }
    ensures made { (j : ℕ) → IsTrue (is_member result j) → j < number_made p.now }
    ensures all { (i j : ℕ)
        → IsTrue (is_member among i)
        → IsTrue (has_number (port_state p.now i port).possible j)
        → IsTrue (is_member result j) }
{
    let mut linked = InstanceSet::empty();
    let mut from = 0;
    while let Some(i) = among.least_from(from) {
        linked = linked.union(p.port(i, port).possible);
        from = i + 1;
    }
    linked
}

/// Of a set of made instances, those each of whose possible types is under a type.
fn surely_among(problem: &Problem, p: &Partial, kind: u32, among: InstanceSet) -> InstanceSet
    requires state { IsState problem.now p.now }
    requires made { (j : ℕ) → IsTrue (is_member among j) → j < number_made p.now }
    ensures { (j : ℕ) → is_member result j
        ≡ (is_member among j && is_surely_under problem.now p.now kind j) }
{
    let mut found = InstanceSet::empty();
    let mut from = 0;
    while let Some(j) = among.least_from(from) {
        if is_surely_under(problem, p, kind, j) {
            found.insert(j);
        }
        from = j + 1;
    }
    found
}

/// What a truth about every linked instance is, at the instances of a set, from what it is at the
/// linked ones.
pub(crate) fn all_linked(p: &Partial, among: InstanceSet, port: u32, linked: Truths) -> Truths
    requires { HavePort p.now among port }
    ensures holding { (i : ℕ) → is_member result.holding i
        ≡ (is_member among i && links_only_of p.now port i linked.holding) }
    ensures failing { (i : ℕ) → is_member result.failing i
        ≡ (is_member among i && links_some_of p.now port i linked.failing) }
{
    Truths {
        holding: linking_only(p, among, port, linked.holding),
        failing: linking_some(p, among, port, linked.failing),
    }
}

/// The instances of a set from which a port can link instances of another set alone, and no later
/// ones.
fn linking_only(p: &Partial, among: InstanceSet, port: u32, into: InstanceSet) -> InstanceSet
    requires { HavePort p.now among port }
    ensures { (i : ℕ) → is_member result i
        ≡ (is_member among i && links_only_of p.now port i into) }
{
    let mut found = InstanceSet::empty();
    let mut from = 0;
    while let Some(i) = among.least_from(from) {
        if links_only(&p.port(i, port), into) {
            found.insert(i);
        }
        from = i + 1;
    }
    found
}

/// The instances of a set from which a port must link some instance of another set.
fn linking_some(p: &Partial, among: InstanceSet, port: u32, into: InstanceSet) -> InstanceSet
    requires { HavePort p.now among port }
    ensures { (i : ℕ) → is_member result i
        ≡ (is_member among i && links_some_of p.now port i into) }
{
    let mut found = InstanceSet::empty();
    let mut from = 0;
    while let Some(i) = among.least_from(from) {
        if links_some(&p.port(i, port), into) {
            found.insert(i);
        }
        from = i + 1;
    }
    found
}

fn links_only(q: &PortDomain, into: InstanceSet) -> bool
    ensures { result
        ≡ (list_all (is_member into) (instances_of q.now.possible) && (q.now.fresh_high == 0)) }
{
    q.possible.is_within(into) && q.fresh_high == 0
}

fn links_some(q: &PortDomain, into: InstanceSet) -> bool
    ensures { result ≡ list_any (is_member into) (instances_of q.now.required) }
{
    !q.required.intersection(into).is_empty()
}
