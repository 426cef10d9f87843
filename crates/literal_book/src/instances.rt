//! What the instances of a configuration have.
ghost use Rattle.std.specs.Prelude.{◌≡◌, ◌==◌, ◌<◌, pos, length, nat_lt, position, slice_index_or, []};
ghost use Rattle.std.specs.Option.{option_copied};
ghost use Rattle.prod_model.specs.Forest.{is_a};
ghost use Rattle.prod_model.specs.Taxonomy.{attributes_at, ports_at};
ghost use Rattle.config_value.specs.Value.{is_under as is_under_of};
ghost use Rattle.literal_book.specs.steps.Told.{value_told, links_told, value_told_at, links_told_at};

use config_value::{Configuration, Instance};
use prod_model::{AttrAt, Items, PortAt, Problem};

/// Whether there is an instance of that number.
pub(crate) fn is_made(c: &Configuration, i: u32) -> bool
    ensures { result ≡ nat_lt i (length c.now) }
{
    (i as usize) < c.len()
}

/// Whether there is an instance of that number, and it is of the type or of one under it.
pub(crate) fn is_under(problem: &Problem, c: &Configuration, kind: u32, i: u32) -> bool
    ensures { result ≡ is_under_of problem.now c.now kind i }
{
    is_made(c, i) && is_of(problem, c.get(i).kind, kind)
}

/// Whether the type is the type `of` or under it. A number that is no type is under none.
#[tactic(auto, using(prod_model::proofs::NoTypes::is_a_outside))]
fn is_of(problem: &Problem, kind: u32, of: u32) -> bool
    ensures { result ≡ is_a problem.now kind of }
{
    let model = problem.model();
    model.is_type(kind) && model.is_type(of) && problem.is_a(kind, of)
}

/// The value of an attribute of instance `i`, if it is there and its type has the attribute. One
/// pass over the attributes of the type.
pub(crate) fn value_at(problem: &Problem, c: &Configuration, i: u32, id: u32) -> Option<i64>
    ensures { result ≡ value_told_at problem.now c.now i id }
{
    if is_made(c, i) {
        value_of(problem, c.get(i), id)
    } else {
        None
    }
}

/// An instance's value of an attribute, if its type has the attribute.
#[tactic(auto, using(crate::proofs::ToldLaws::value_told_is))]
fn value_of(problem: &Problem, instance: &Instance, id: u32) -> Option<i64>
    ensures { result ≡ value_told problem.now instance.now id }
{
    match attribute_place(attributes_of(problem, instance.kind), id) {
        Some(k) => Some(value_in(instance.values.as_slice(), k)),
        None => None,
    }
}

fn attribute_place(attributes: &[AttrAt], id: u32) -> Option<usize>
    ensures { result ≡ position (λ a. a.id == id) attributes.now }
{
    attributes.iter().position(|a| a.id == id)
}

fn value_in(values: &[i64], k: usize) -> i64
    ensures { result ≡ slice_index_or values.now k (pos 0) }
{
    if k < values.len() { values[k] } else { 0 }
}

/// The attributes of a type. A number that is no type has none.
#[tactic(auto, using(prod_model::proofs::NoTypes::no_attributes))]
fn attributes_of(problem: &Problem, kind: u32) -> &[AttrAt]
    ensures { result.now ≡ attributes_at problem.now kind }
{
    if problem.model().is_type(kind) {
        problem.attrs_of(kind)
    } else {
        &[]
    }
}

/// The links of a port of instance `i`, if it is there and its type has the port. One pass over the
/// ports of the type.
pub(crate) fn links_at<'a>(
    problem: &Problem,
    c: &'a Configuration,
    i: u32,
    id: u32,
) -> Option<&'a [u32]>
    ensures { option_copied result ≡ links_told_at problem.now c.now i id }
{
    if is_made(c, i) {
        links_of(problem, c.get(i), id)
    } else {
        None
    }
}

/// An instance's links of a port, if its type has the port.
#[tactic(auto, using(crate::proofs::ToldLaws::links_told_is))]
fn links_of<'a>(problem: &Problem, instance: &'a Instance, id: u32) -> Option<&'a [u32]>
    ensures { option_copied result ≡ links_told problem.now instance.now id }
{
    match port_place(ports_of(problem, instance.kind), id) {
        Some(k) => Some(links_in(instance.links.as_slice(), k)),
        None => None,
    }
}

fn port_place(ports: &[PortAt], id: u32) -> Option<usize>
    ensures { result ≡ position (λ p. p.id == id) ports.now }
{
    ports.iter().position(|p| p.id == id)
}

fn links_in(links: &[Items<u32>], k: usize) -> &[u32]
    ensures { result.now ≡ slice_index_or links.now k [] }
{
    if k < links.len() {
        links[k].as_slice()
    } else {
        &[]
    }
}

/// The ports of a type. A number that is no type has none.
#[tactic(auto, using(prod_model::proofs::NoTypes::no_ports))]
fn ports_of(problem: &Problem, kind: u32) -> &[PortAt]
    ensures { result.now ≡ ports_at problem.now kind }
{
    if problem.model().is_type(kind) {
        problem.ports_of(kind)
    } else {
        &[]
    }
}
