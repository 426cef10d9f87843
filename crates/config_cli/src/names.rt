//! The names of what a type has, by place.
ghost use Rattle.std.specs.Prelude.{◌≡◌, ℕ, List, map, length, not, slice_get};
ghost use Rattle.std.specs.Option.{option_copied, option_map};
ghost use Rattle.std.specs.List.{filter, flat_map, list_any};
ghost use Rattle.prod_model.specs.declared.model.TypeDecl.{TypeDecl};
ghost use Rattle.prod_model.specs.Forest.{line_within};
ghost use Rattle.prod_model.specs.Names.{same_text};
ghost use Rattle.prod_model.specs.Taxonomy.{declarations_of, is_declared_above, new_declarations, attributes_of, attributes_at, ports_of, ports_at};

use prod_model::{AttrDecl, Declaration, Model, PortDecl, Problem, TypeDecl};
use sqlite_items::at;

fn declares<D: Declaration>(declared: &[D], name: &[u8]) -> bool
    ensures { result ≡ list_any (λ d. same_text name.now (D.name_of d)) declared.now }
{
    declared.iter().any(|d| name == d.name().bytes())
}

/// Whether a type or one above it, at most so many of them, declares the name.
fn is_declared_along<D: Declaration>(types: &[TypeDecl], t: u32, name: &[u8], most: usize) -> bool
    ensures { result ≡ list_any (λ d. same_text name.now (D.name_of d))
        (flat_map (declarations_of D.declared D.name_of types.now) (line_within most types.now t)) }
{
    if most == 0 {
        return false;
    }
    let Some(kind) = at(types, t as usize) else {
        return false;
    };
    if declares(D::all_of(kind), name) {
        return true;
    }
    match kind.parent {
        Some(parent) => is_declared_along::<D>(types, parent, name, most - 1),
        None => false,
    }
}

/// Whether no ancestor of the type declares the name. It walks the type's line once.
fn is_new<D: Declaration>(types: &[TypeDecl], t: u32, declared: &D) -> bool
    ensures { result ≡ not (is_declared_above D.declared D.name_of types.now t
        (D.name_of declared.now)) }
{
    let Some(kind) = at(types, t as usize) else {
        return true;
    };
    match kind.parent {
        Some(parent) => !is_declared_along::<D>(
            types,
            parent,
            declared.name().bytes(),
            types.len(),
        ),
        None => true,
    }
}

/// The one of the declarations that is new in the type and has so many new ones before it.
fn nth_new<'a, D: Declaration>(
    types: &[TypeDecl],
    t: u32,
    declared: &'a [D],
    before: usize,
) -> Option<&'a D>
    ensures { option_copied result ≡ slice_get
        (filter (λ d. not (is_declared_above D.declared D.name_of types.now t (D.name_of d)))
        declared.now) before }
{
    match declared.split_first() {
        None => None,
        Some((first, rest)) => {
            if !is_new(types, t, first) {
                nth_new(types, t, rest, before)
            } else if before == 0 {
                Some(first)
            } else {
                nth_new(types, t, rest, before - 1)
            }
        }
    }
}

/// The name of the declaration that is new in the type and has so many new ones before it.
fn new_name<'a, D: Declaration + 'a>(model: &'a Model, t: u32, before: usize) -> Option<&'a [u8]>
    ensures { option_map (λ name. name.now) result ≡ slice_get
        (map D.name_of (new_declarations D.declared D.name_of model.now.types t)) before }
{
    let types = model.types.as_slice();
    let kind = at(types, t as usize)?;
    let declared = nth_new::<D>(types, t, D::all_of(kind), before)?;
    Some(declared.name().bytes())
}

/// How many attributes a type has, and none where it is no type.
#[tactic(auto, using(prod_model::proofs::NoTypes::no_attributes))]
fn attribute_count(problem: &Problem, t: u32) -> usize
    ensures { result ≡ length (attributes_at problem.now t) }
{
    if problem.model().is_type(t) {
        problem.attrs_of(t).len()
    } else {
        0
    }
}

/// How many ports a type has, and none where it is no type.
#[tactic(auto, using(prod_model::proofs::NoTypes::no_ports))]
fn port_count(problem: &Problem, t: u32) -> usize
    ensures { result ≡ length (ports_at problem.now t) }
{
    if problem.model().is_type(t) {
        problem.ports_of(t).len()
    } else {
        0
    }
}

/// The name of the attribute at a place of a type, if there is one. It goes up to the type that
/// declares it first, and tells of the declarations there which are new.
pub fn attribute_name(problem: &Problem, t: u32, place: usize) -> Option<&[u8]>
    ensures { option_map (λ name. name.now) result
        ≡ slice_get (map (λ a. a.name) (attributes_of problem.now.types t)) place }
{
    let model = problem.model();
    let Some(parent) = model.parent_of(t) else {
        return new_name::<AttrDecl>(model, t, place);
    };
    let inherited = attribute_count(problem, parent);
    if place < inherited {
        attribute_name(problem, parent, place)
    } else {
        new_name::<AttrDecl>(model, t, place - inherited)
    }
}

/// The name of the port at a place of a type, if there is one. It is found as an attribute's is.
pub fn port_name(problem: &Problem, t: u32, place: usize) -> Option<&[u8]>
    ensures { option_map (λ name. name.now) result
        ≡ slice_get (map (λ p. p.name) (ports_of problem.now.types t)) place }
{
    let model = problem.model();
    let Some(parent) = model.parent_of(t) else {
        return new_name::<PortDecl>(model, t, place);
    };
    let inherited = port_count(problem, parent);
    if place < inherited {
        port_name(problem, parent, place)
    } else {
        new_name::<PortDecl>(model, t, place - inherited)
    }
}
