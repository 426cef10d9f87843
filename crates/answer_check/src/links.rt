//! Links that lead to no instance, links off their targets, numbers of links that a port doesn't
//! allow, and links that are not linked back.
ghost use Rattle.std.specs.Prelude.{◌≡◌, ◌<◌, ◌≤◌, length, slice_get, IsTrue, nat_le, not, position};
ghost use Rattle.std.specs.List.{list_any, zip};
ghost use Rattle.prod_model.specs.Taxonomy.{ports_at};
ghost use Rattle.prod_model.specs.Limits.{is_between};
ghost use Rattle.prod_model.specs.Valid.{IsValid};
ghost use Rattle.config_value.specs.Spelled.{is_spelled};
ghost use Rattle.answer_check.specs.steps.Finds.{BreaksAt, FindsItem, FindsPlace};
ghost use Rattle.answer_check.specs.steps.PortTests.{code_of, breaks_port, is_not_linked_back, is_off};
ghost use Rattle.config_value.specs.Shaped.{links_back};

use crate::instances::links_at;
use crate::place::Place;
use crate::types::{is_under, ports_of};
use config_value::{Configuration, Instance};
use prod_model::{Items, PortAt, Problem};

/// What is asked of a port's links.
#[derive(Clone, Copy)]
pub(crate) enum PortTest {
    /// Each leads to an instance.
    Leads,
    /// Each that leads to an instance leads to one under the port's target.
    OnTarget,
    /// They are as many as the port allows.
    Number,
    /// Where the port has an inverse, each linked instance links back by it.
    LinksBack,
}

/// The first port whose links break a test. One pass over all links; at links by a port with an
/// inverse, one over the links back of each linked instance.
pub(crate) fn broken_port(problem: &Problem, c: &Configuration, test: PortTest) -> Option<Place>
    requires valid { IsValid problem.now }
    requires spelled { IsTrue (is_spelled problem.now c.now) }
    ensures { FindsPlace (BreaksAt problem.now c.now (code_of test)) result }
{
    for i in 0..c.len() as u32 {
        if let Some(item) = broken_port_of(problem, c, test, i) {
            return Some(Place { instance: i, item });
        }
    }
    None
}

fn broken_port_of(problem: &Problem, c: &Configuration, test: PortTest, i: u32) -> Option<u32>
    requires valid { IsValid problem.now }
    requires instance { i < length c.now }
    ensures { FindsItem (BreaksAt problem.now c.now (code_of test) i) result }
{
    let instance = c.get(i);
    let item = place_of_broken(problem, c, test, i, instance)?;
    Some(item as u32)
}

fn place_of_broken(
    problem: &Problem,
    c: &Configuration,
    test: PortTest,
    i: u32,
    instance: &Instance,
) -> Option<usize>
    ensures { result ≡ position (λ pair. breaks_port problem.now c.now test i pair.0 pair.1)
        (zip (ports_at problem.now instance.now.kind) instance.now.links) }
{
    let ports = ports_of(problem, instance.kind);
    ports.iter().zip(instance.links.as_slice()).position(|(port, links)| breaks_port(
        problem,
        c,
        test,
        i,
        port,
        links.as_slice(),
    ))
}

fn breaks_port(
    problem: &Problem,
    c: &Configuration,
    test: PortTest,
    i: u32,
    port: &PortAt,
    links: &[u32],
) -> bool
    ensures { result ≡ breaks_port problem.now c.now test i port.now links.now }
{
    match test {
        PortTest::Leads => leads_outside(c, links),
        PortTest::OnTarget => is_off_target(problem, c, port.target, links),
        PortTest::Number => !is_between(port.low, port.high, links.len()),
        PortTest::LinksBack => is_not_linked_back(problem, c, i, port, links),
    }
}

fn leads_outside(c: &Configuration, links: &[u32]) -> bool
    ensures { result ≡ list_any (λ j. nat_le (length c.now) j) links.now }
{
    let count = c.len();
    links.iter().any(|j| count <= *j as usize)
}

fn is_off_target(problem: &Problem, c: &Configuration, target: u32, links: &[u32]) -> bool
    ensures { result ≡ list_any (is_off problem.now c.now target) links.now }
{
    links.iter().any(|j| is_off(problem, c, target, *j))
}

fn is_off(problem: &Problem, c: &Configuration, target: u32, j: u32) -> bool
    ensures { result ≡ is_off problem.now c.now target j }
{
    (j as usize) < c.len() && !is_under(problem, c.get(j).kind, target)
}

fn is_not_linked_back(
    problem: &Problem,
    c: &Configuration,
    i: u32,
    port: &PortAt,
    links: &[u32],
) -> bool
    ensures { result ≡ is_not_linked_back problem.now c.now i port.now links.now }
{
    match port.inverse {
        Some(id) => has_unlinked(problem, c, id, i, links),
        None => false,
    }
}

/// Whether an instance among the links doesn't link `i` by a port of that id.
fn has_unlinked(problem: &Problem, c: &Configuration, id: u32, i: u32, links: &[u32]) -> bool
    ensures { result ≡ list_any (λ j. not (links_back problem.now c.now id i j)) links.now }
{
    links.iter().any(|j| !links_back(problem, c, id, i, *j))
}

/// Whether instance `j` has a port of that id, and links `i` by it.
fn links_back(problem: &Problem, c: &Configuration, id: u32, i: u32, j: u32) -> bool
    ensures { result ≡ links_back problem.now c.now id i j }
{
    links_at(problem, c, id, j).iter().any(|k| *k == i)
}

pub(crate) fn is_between(low: u32, high: u32, count: usize) -> bool
    ensures { result ≡ is_between low high count }
{
    low as usize <= count && count <= high as usize
}
