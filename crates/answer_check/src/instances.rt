//! What the instances of a configuration are and have. What isn't there counts as 0 or as no links.
ghost use Rattle.std.specs.Prelude.{◌≡◌, ◌≤◌, ◌==◌, [], length, pos, position, slice_index_or};
ghost use Rattle.std.specs.List.{count_by};
ghost use Rattle.config_value.specs.Value.{under, is_under as is_under_of, value_of as value_of_at, links_of as links_of_at, value_at_instance as value_at_instance_of, links_at_instance as links_at_instance_of};

use crate::types::{attributes_of, is_under, ports_of};
use config_value::{Configuration, Instance};
use prod_model::{AttrAt, Items, PortAt, Problem};

/// Whether there is an instance of that number, and it is under the type.
pub(crate) fn is_instance_under(problem: &Problem, c: &Configuration, kind: u32, i: u32) -> bool
    ensures { result ≡ is_under_of problem.now c.now kind i }
{
    (i as usize) < c.len() && is_under(problem, c.get(i).kind, kind)
}

/// How many instances are under the type. One pass over the instances.
pub(crate) fn count_under(problem: &Problem, c: &Configuration, kind: u32) -> usize
    requires { length c.now ≤ 256 }
    ensures { result ≡ count_by (under problem.now kind) c.now }
{
    let mut count = 0;
    for i in 0..c.len() as u32 {
        if is_under(problem, c.get(i).kind, kind) {
            count += 1;
        }
    }
    count
}

/// An instance's value of an attribute, and 0 where it has none.
pub(crate) fn value_of(problem: &Problem, instance: &Instance, id: u32) -> i64
    ensures { result ≡ value_of_at problem.now instance.now id }
{
    match attribute_place(attributes_of(problem, instance.kind), id) {
        Some(k) => value_in(instance.values.as_slice(), k),
        None => 0,
    }
}

fn attribute_place(attributes: &[AttrAt], id: u32) -> Option<usize>
    ensures { result ≡ position (λ a. a.id == id) attributes.now }
{
    attributes.iter().position(|a| a.id == id)
}

fn value_in(values: &[i64], k: usize) -> i64
    ensures { result ≡ slice_index_or values.now k (pos 0) }
{
    if k < values.len() { values[k] } else { 0 }
}

/// An instance's links of a port, and none where it has no such port.
pub(crate) fn links_of<'a>(problem: &Problem, instance: &'a Instance, id: u32) -> &'a [u32]
    ensures { result.now ≡ links_of_at problem.now instance.now id }
{
    match port_place(ports_of(problem, instance.kind), id) {
        Some(k) => links_in(instance.links.as_slice(), k),
        None => &[],
    }
}

fn port_place(ports: &[PortAt], id: u32) -> Option<usize>
    ensures { result ≡ position (λ p. p.id == id) ports.now }
{
    ports.iter().position(|p| p.id == id)
}

fn links_in(links: &[Items<u32>], k: usize) -> &[u32]
    ensures { result.now ≡ slice_index_or links.now k [] }
{
    if k < links.len() {
        links[k].as_slice()
    } else {
        &[]
    }
}

/// The value of an attribute at the instance of a number, and 0 where there is none.
pub(crate) fn value_at_instance(problem: &Problem, c: &Configuration, id: u32, i: u32) -> i64
    ensures { result ≡ value_at_instance_of problem.now c.now id i }
{
    if (i as usize) < c.len() {
        value_of(problem, c.get(i), id)
    } else {
        0
    }
}

/// The links of a port at the instance of a number, and none where there is no such instance.
pub(crate) fn links_at<'a>(problem: &Problem, c: &'a Configuration, id: u32, i: u32) -> &'a [u32]
    ensures { result.now ≡ links_at_instance_of problem.now c.now id i }
{
    if (i as usize) < c.len() {
        links_of(problem, c.get(i), id)
    } else {
        &[]
    }
}
