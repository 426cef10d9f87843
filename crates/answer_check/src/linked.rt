//! Sets of instances and the links of a port between them.
ghost use Rattle.std.specs.Prelude.{◌≡◌, ℕ, ◌==◌, ◌&&◌, ◌||◌, nat_lt, IsTrue};
ghost use Rattle.std.specs.List.{list_all, list_any};
ghost use Rattle.instance_set.specs.InstanceSets.{is_member};
ghost use Rattle.prod_model.specs.Valid.{IsValid};
ghost use Rattle.config_value.specs.Shaped.{is_shaped, instance_numbers};
ghost use Rattle.config_value.specs.Value.{links_at_instance};

use crate::instances::links_at;
use config_value::Configuration;
use instance_set::InstanceSet;
use prod_model::Problem;

/// The instances that a port links from some instance of a set. One pass over the links of the port
/// there.
pub(crate) fn linked_from(
    problem: &Problem,
    c: &Configuration,
    port: u32,
    among: InstanceSet,
) -> InstanceSet
    requires valid { IsValid problem.now }
    requires shaped { IsTrue (is_shaped problem.now c.now) }
    ensures { (j : ℕ) → is_member result j
        ≡ list_any (λ i. is_member among i
        && list_any (λ k. k == j) (links_at_instance problem.now c.now port i))
        (instance_numbers c.now) }
{
    let mut linked = InstanceSet::empty();
    let mut from = 0;
    while let Some(i) = among.least_from(from) {
        linked = with_links(linked, links_at(problem, c, port, i));
        from = i + 1;
    }
    linked
}

fn with_links(set: InstanceSet, links: &[u32]) -> InstanceSet
    requires { IsTrue (list_all (λ j. nat_lt j 256) links.now) }
    ensures { (k : ℕ)
        → is_member result k ≡ (is_member set k || list_any (λ j. j == k) links.now) }
{
    let mut more = set;
    for j in links {
        more.insert(*j);
    }
    more
}

/// The instances of a set from which a port links instances of another set alone. One pass over the
/// links of the port there.
pub(crate) fn linking_only(
    problem: &Problem,
    c: &Configuration,
    port: u32,
    among: InstanceSet,
    into: InstanceSet,
) -> InstanceSet
    ensures { (i : ℕ)
        → is_member result i
        ≡ (is_member among i
        && list_all (is_member into) (links_at_instance problem.now c.now port i)) }
{
    let mut found = InstanceSet::empty();
    let mut from = 0;
    while let Some(i) = among.least_from(from) {
        if are_in(links_at(problem, c, port, i), into) {
            found.insert(i);
        }
        from = i + 1;
    }
    found
}

fn are_in(links: &[u32], set: InstanceSet) -> bool
    ensures { result ≡ list_all (is_member set) links.now }
{
    links.iter().all(|j| set.contains(*j))
}
