//! Ports by name and declarations by id, found without memory.
ghost use Rattle.std.specs.Prelude.{◌≡◌, ◌+◌, ◌<◌, ◌≤◌, ◌^◌, length, slice_get, sum_by, IfSome};
ghost use Rattle.std.specs.Option.{option_copied};
ghost use Rattle.std.specs.List.{filter, find, flat_map, list_any};
ghost use Rattle.prod_model.specs.Forest.{line_within};
ghost use Rattle.prod_model.specs.Names.{same_text};
ghost use Rattle.prod_model.specs.Taxonomy.{declarations_of, new_declarations, all_new_declarations, first_id as id_before, made_port as made, port_named as named_at};
ghost use Rattle.type_taxonomy.specs.steps.PortSearch.{is_new, numbered, of_name, narrowed};
ghost use Rattle.type_taxonomy.specs.steps.TypeForest.{IsForest};

use crate::above::declared_at;
use prod_model::{Model, Name, PortAt, PortDecl, TypeDecl};
use sqlite_items::at;

fn declares(declared: &[PortDecl], name: &Name) -> bool
    ensures { result ≡ list_any (λ d. same_text name.now d.name) declared.now }
{
    declared.iter().any(|d| name.bytes() == d.name.bytes())
}

/// Whether a type or one above it, at most so many of them, declares a port of the name.
fn is_declared_along(types: &[TypeDecl], t: u32, name: &Name, most: usize) -> bool
    ensures { result ≡ list_any (λ d. same_text name.now d.name)
        (flat_map (declarations_of (λ d. d.ports) (λ d. d.name) types.now)
        (line_within most types.now t)) }
{
    if most == 0 {
        return false;
    }
    let Some(decl) = at(types, t as usize) else {
        return false;
    };
    if declares(decl.ports.as_slice(), name) {
        return true;
    }
    match decl.parent {
        Some(parent) => is_declared_along(types, parent, name, most - 1),
        None => false,
    }
}

/// Whether no ancestor of the type declares a port of the name. It walks the type's line once, and
/// compares the name with those that it declares.
pub(crate) fn is_new(types: &[TypeDecl], t: u32, declared: &PortDecl) -> bool
    ensures { result ≡ is_new types.now t declared.now }
{
    let Some(decl) = at(types, t as usize) else {
        return true;
    };
    match decl.parent {
        Some(parent) => !is_declared_along(types, parent, &declared.name, types.len()),
        None => true,
    }
}

/// How many of the declarations are new in the type.
fn count_new(types: &[TypeDecl], t: u32, declared: &[PortDecl]) -> usize
    ensures count { result ≡ length (filter (is_new types.now t) declared.now) }
    ensures few { result ≤ length declared.now }
{
    match declared.split_first() {
        None => 0,
        Some((first, rest)) => {
            let more = count_new(types, t, rest);
            if is_new(types, t, first) {
                more + 1
            } else {
                more
            }
        }
    }
}

/// The one of the declarations that is new in the type and has so many new ones before it.
fn nth_new<'a>(
    types: &[TypeDecl],
    t: u32,
    declared: &'a [PortDecl],
    before: usize,
) -> Option<&'a PortDecl>
    ensures { option_copied result ≡ slice_get (filter (is_new types.now t) declared.now) before }
{
    match declared.split_first() {
        None => None,
        Some((first, rest)) => {
            if !is_new(types, t, first) {
                nth_new(types, t, rest, before)
            } else if before == 0 {
                Some(first)
            } else {
                nth_new(types, t, rest, before - 1)
            }
        }
    }
}

/// The declaration of a new port under its id. It tells of each declaration up to it whether it is
/// new, so it walks a line for each.
pub(crate) fn new_declaration(types: &[TypeDecl], id: u32) -> Option<&PortDecl>
    requires { length types.now < 1000 }
    ensures { option_copied result
        ≡ slice_get (all_new_declarations (λ d. d.ports) (λ d. d.name) types.now) id }
{
    let mut left = id as usize;
    for t in 0..types.len() {
        let kind = t as u32;
        let declared = declared_at::<PortDecl>(types, kind);
        let count = count_new(types, kind, declared);
        if left < count {
            return nth_new(types, kind, declared, left);
        }
        left -= count;
    }
    None
}

/// How many ports are new in the types before this one, which may be one past the last.
pub(crate) fn first_id(types: &[TypeDecl], t: u32) -> u32
    requires within { t ≤ length types.now }
    requires few_ports { sum_by (λ d. length d.ports) types.now < 2 ^ 32 }
    ensures id { result ≡ id_before (λ d. d.ports) (λ d. d.name) types.now t }
    ensures few { result + length (declarations_of (λ d. d.ports) (λ d. d.name) types.now t)
        < 2 ^ 32 }
{
    let mut id = 0;
    for u in 0..t {
        id += count_new(types, u, types[u as usize].ports.as_slice()) as u32;
    }
    id
}

/// The port of the first new declaration of the name, where new ones have the ids from `id` on.
fn found_new(
    types: &[TypeDecl],
    t: u32,
    declared: &[PortDecl],
    id: u32,
    name: &Name,
) -> Option<PortAt>
    requires { id + length declared.now < 2 ^ 32 }
    ensures found { result ≡ of_name name.now (numbered id (filter (is_new types.now t)
        declared.now)) }
    ensures few { IfSome result (λ p. p.id < id + length declared.now) }
{
    let Some((first, rest)) = declared.split_first() else {
        return None;
    };
    if !is_new(types, t, first) {
        return found_new(types, t, rest, id, name);
    }
    if first.name.bytes() == name.bytes() {
        return Some(made_port(id, first));
    }
    found_new(types, t, rest, id + 1, name)
}

/// The port of a declaration, without its inverse.
fn made_port(id: u32, declared: &PortDecl) -> PortAt
    ensures { result ≡ made id declared.now }
{
    PortAt {
        id,
        kind: declared.kind,
        target: declared.target,
        low: declared.low,
        high: declared.high,
        inverse: None,
    }
}

/// The port that is new in the type under the name.
fn new_named(types: &[TypeDecl], t: u32, name: &Name) -> Option<PortAt>
    requires within { t < length types.now }
    requires few_ports { sum_by (λ d. length d.ports) types.now < 2 ^ 32 }
    ensures { result ≡ of_name name.now
        (numbered (id_before (λ d. d.ports) (λ d. d.name) types.now t)
        (new_declarations (λ d. d.ports) (λ d. d.name) types.now t)) }
{
    let first = first_id(types, t);
    match found_new(types, t, declared_at(types, t), 0, name) {
        Some(port) => Some(PortAt {
            id: first + port.id,
            ..port
        }),
        None => None,
    }
}

fn declaration_named<'a>(declared: &'a [PortDecl], name: &Name) -> Option<&'a PortDecl>
    ensures { option_copied result ≡ find (λ d. same_text d.name name.now) declared.now }
{
    declared.iter().find(|d| d.name.bytes() == name.bytes())
}

/// The port as the first of the declarations with its name narrows it, if one does.
fn narrowed(port: PortAt, declared: &[PortDecl], name: &Name) -> PortAt
    ensures { result ≡ narrowed declared.now name.now port }
{
    match declaration_named(declared, name) {
        Some(declared) => made_port(port.id, declared),
        None => port,
    }
}

/// The port that a type has under a name, as it is declared. It walks the type's line once, and
/// tells of the declarations there which are new.
pub(crate) fn port_named(model: &Model, t: u32, name: &Name) -> Option<PortAt>
    requires few_ports { sum_by (λ d. length d.ports) model.now.types < 2 ^ 32 }
    requires forest { IsForest model.now.types }
    ensures { result ≡ named_at model.now t name.now }
{
    let types = model.types.as_slice();
    let Some(decl) = at(types, t as usize) else {
        return None;
    };
    let Some(parent) = decl.parent else {
        return new_named(types, t, name);
    };
    match port_named(model, parent, name) {
        Some(port) => Some(narrowed(port, decl.ports.as_slice(), name)),
        None => new_named(types, t, name),
    }
}
