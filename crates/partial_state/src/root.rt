//! The first state of a problem.
ghost use Rattle.std.specs.Prelude.{◌≡◌, ◌<◌, ◌+◌, ◌==◌, ℕ, map, length, [], if◌then◌else◌, IfOk};
ghost use Rattle.std.specs.Int.{bit_at};
ghost use Rattle.std.specs.Option.{option_map_or};
ghost use Rattle.prod_model.specs.Forest.{parent_of};
ghost use Rattle.prod_model.specs.Taxonomy.{new_declarations, ports_of};
ghost use Rattle.prod_model.specs.Valid.{IsValid};
ghost use Rattle.config_value.specs.Literals.{has_attribute, has_port};
ghost use Rattle.state_space.specs.State.{first_attributes, first_ports, attribute_types_of, port_types_of, IsState};
ghost use Rattle.state_space.specs.Root.{root};
ghost use Rattle.partial_state.specs.Masks.{kinds_of};
ghost use Rattle.partial_state.specs.steps.Marks.{Marks, AreMarked};

use crate::new_row::new_attributes;
use crate::partial::Partial;
use crate::row::InstanceRow;
use prod_model::Problem;
use std::alloc::{AllocError, Global};

impl Partial {
    /// The first state of a problem. One instance is made, of a leaf under the root type, and
    /// nothing is known of it but what its possible types have: the state covers every
    /// configuration that satisfies the model. Time and memory are linear in what the types have,
    /// and in how many types there are for each attribute and port. `AllocError` where memory runs
    /// out.
    pub fn root(alloc: Global, problem: &Problem) -> Result<Partial, AllocError>
        ensures root { IfOk result (λ p. p ≡ root problem.now) }
        ensures state { IfOk result (λ p. IsState problem.now p) }
    {
        let attribute_types = attribute_types(alloc, problem)?;
        let port_types = port_types(alloc, problem)?;
        let kinds = problem.leaves_under(problem.model().root);
        let row = InstanceRow::new_of(
            alloc,
            problem,
            attribute_types.as_slice(),
            port_types.as_slice(),
            kinds,
            1,
        )?;
        let mut made = Vec::with_capacity(alloc, 1)?;
        made.push(row)?;
        Ok(Partial {
            alloc,
            attribute_types,
            port_types,
            made,
        })
    }
}

/// For each attribute id the leaf types that have it, as a mask. One pass over the leaves and what
/// they have makes all masks.
fn attribute_types(alloc: Global, problem: &Problem) -> Result<Vec<u128>, AllocError>
    ensures { IfOk result (λ v. map kinds_of v.items ≡ attribute_types_of problem.now) }
{
    let types = problem.model().types.len();
    let count = number_of_attributes(problem);
    let mut masks = vec![in alloc; 0u128; count]?;
    for t in 0..types {
        mark_attributes(&mut masks, problem, t as u32);
    }
    Ok(masks)
}

/// For each port id the leaf types that have it, as a mask, likewise in one pass.
fn port_types(alloc: Global, problem: &Problem) -> Result<Vec<u128>, AllocError>
    ensures { IfOk result (λ v. map kinds_of v.items ≡ port_types_of problem.now) }
{
    let types = problem.model().types.len();
    let count = number_of_ports(problem);
    let mut masks = vec![in alloc; 0u128; count]?;
    for t in 0..types {
        mark_ports(&mut masks, problem, t as u32);
    }
    Ok(masks)
}

/// How many attributes have an id: each is new in one type.
fn number_of_attributes(problem: &Problem) -> usize
    requires { IsValid problem.now }
    ensures { result ≡ length (first_attributes problem.now) }
{
    let mut count = 0;
    for t in 0..problem.model().types.len() {
        let new = new_attributes(problem, t as u32);
        count += new.len();
    }
    count
}

/// How many ports have an id.
fn number_of_ports(problem: &Problem) -> usize
    requires { IsValid problem.now }
    ensures { result ≡ length (first_ports problem.now) }
{
    let mut count = 0;
    for t in 0..problem.model().types.len() {
        let new = number_of_new_ports(problem, t as u32);
        count += new;
    }
    count
}

/// How many ports are new in type `t`: as many as it has more than its parent.
fn number_of_new_ports(problem: &Problem, t: u32) -> usize
    requires valid { IsValid problem.now }
    requires known { t < length problem.now.types }
    ensures { result
        ≡ length (new_declarations (λ d. d.ports) (λ d. d.name) problem.now.types t) }
{
    problem.ports_of(t).len() - inherited_ports(problem, t)
}

/// How many ports the parent of type `t` has.
fn inherited_ports(problem: &Problem, t: u32) -> usize
    requires valid { IsValid problem.now }
    requires known { t < length problem.now.types }
    ensures { result
        ≡ length (option_map_or (ports_of problem.now.types) (parent_of problem.now t) []) }
{
    match problem.model().parent_of(t) {
        Some(parent) => problem.ports_of(parent).len(),
        None => 0,
    }
}

/// Puts type `t` among those that have its attributes, if it is a leaf.
fn mark_attributes(masks: &mut Vec<u128>, problem: &Problem, t: u32)
    requires valid { IsValid problem.now }
    requires known { t < length problem.now.types }
    requires marked { AreMarked problem.now (λ k a. has_attribute problem.now k a)
        (length (first_attributes problem.now)) t masks.old.items }
    ensures { AreMarked problem.now (λ k a. has_attribute problem.now k a)
        (length (first_attributes problem.now)) (t + 1) masks.new.items }
{
    if !problem.is_leaf(t) {
        return;
    }
    let attributes = problem.attrs_of(t);
    for attribute in attributes {
        mark(masks, attribute.id, t);
    }
}

/// Puts type `t` among those that have its ports, if it is a leaf.
fn mark_ports(masks: &mut Vec<u128>, problem: &Problem, t: u32)
    requires valid { IsValid problem.now }
    requires known { t < length problem.now.types }
    requires marked { AreMarked problem.now (λ k p. has_port problem.now k p)
        (length (first_ports problem.now)) t masks.old.items }
    ensures { AreMarked problem.now (λ k p. has_port problem.now k p)
        (length (first_ports problem.now)) (t + 1) masks.new.items }
{
    if !problem.is_leaf(t) {
        return;
    }
    let ports = problem.ports_of(t);
    for port in ports {
        mark(masks, port.id, t);
    }
}

/// Puts type `t` among those that have the id.
fn mark(masks: &mut Vec<u128>, id: u32, t: u32)
    requires below { t < 128 }
    requires within { id < length masks.old.items }
    ensures { Marks t (λ k. id == k) masks.old.items masks.new.items }
{
    let at = id as usize;
    masks[at] = with_type(masks[at], t);
}

/// The types of a mask and one more.
#[tactic(auto, using(base_laws::proofs::Masks128::bit_at_with))]
fn with_type(types: u128, t: u32) -> u128
    requires { t < 128 }
    ensures { (k : ℕ) → bit_at result k ≡ (if k == t then 1 else bit_at types k) }
{
    types | (1u128 << t)
}
