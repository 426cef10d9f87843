//! The inverses of a model's ports.
ghost use Rattle.std.specs.Prelude.{◌≡◌, ℕ, ◌<◌, ◌^◌, ◌↔◌, length, map, slice_get, slice_set, slice_index_or, sum_by, [], true, IsTrue, IsOk, IfErr, OnOk, OnErr};
ghost use Rattle.std.specs.Option.{option_map_or};
ghost use Rattle.prod_model.specs.Taxonomy.{tables_of, declared_tables_of, declared_ports_at, ports_at, named_inverse, inverse_of as inverse_at};
ghost use Rattle.prod_model.specs.Forest.{type_numbers};
ghost use Rattle.prod_model.specs.Valid.{IsFormed, IsTaxonomy, are_parts, is_named_back, has_right_inverse, has_right_inverses, port_declarations};
ghost use Rattle.type_taxonomy.specs.Inverses.{IsFirstInverseFault};
ghost use Rattle.type_taxonomy.specs.steps.FirstFailing.{IsFirstFailing};
ghost use Rattle.type_taxonomy.specs.steps.PortSearch.{given};
ghost use Rattle.type_taxonomy.specs.steps.TypeForest.{IsForest};

use crate::above::declared_at;
use crate::inverse_fault::InverseFault;
use crate::port_search::{first_id, is_new, new_declaration, port_named};
use prod_model::{Model, PortAt, PortDecl, PortKind, PortRows, Tables};

/// Gives the ports of the tables their inverses: where a port's first declaration names one, the
/// id of the port of that name at its target. Otherwise the first declaration, by type and then by
/// place, whose inverse is not right; and then the tables stay as they are.
///
/// An inverse is right where the declaration is no narrowing, its target has a port of that name,
/// whose first declaration names this port at its own target, and not both are parts. So a shared
/// port may be its own inverse.
///
/// It takes no memory, and compares names in place of looking them up. An inverse is sought once to
/// check it and once to write it. Each time the line of each declaration is walked, to tell which
/// of them are new. With the most declarations of ports that a model has, 256, that is some 20
/// million comparisons and steps. Each new port goes over all rows once, 128 of 16 ports at most.
pub fn inverses(model: &Model, tables: &mut Tables) -> Result<(), InverseFault>
    requires formed { IsFormed model.now }
    requires taxonomy { IsTaxonomy model.now }
    requires tables { tables.old ≡ declared_tables_of model.now }
    ensures right { IsOk result ↔ IsTrue (has_right_inverses model.now) }
    ensures tables { OnOk result (tables.new ≡ tables_of model.now) }
    ensures fault { IfErr result (IsFirstInverseFault model.now) }
    ensures unchanged { OnErr result (tables.new ≡ tables.old) }
{
    inverses_few(model, tables)
}

/// The same for a model of which only this is known: its types are a forest, and the numbers of
/// types and ports are small.
pub(crate) fn inverses_few(model: &Model, tables: &mut Tables) -> Result<(), InverseFault>
    requires few { length model.now.types < 1000 }
    requires few_ports { sum_by (λ d. length d.ports) model.now.types < 2 ^ 32 }
    requires forest { IsForest model.now.types }
    requires tables { tables.old ≡ declared_tables_of model.now }
    ensures right { IsOk result ↔ IsTrue (has_right_inverses model.now) }
    ensures tables { OnOk result (tables.new ≡ tables_of model.now) }
    ensures fault { IfErr result (IsFirstInverseFault model.now) }
    ensures unchanged { OnErr result (tables.new ≡ tables.old) }
{
    all_right(model)?;
    link_all(model, &mut tables.ports);
    Ok(())
}

/// The id of the port that a declaration names as its inverse.
fn inverse_named(model: &Model, declared: &PortDecl) -> Option<u32>
    requires few_ports { sum_by (λ d. length d.ports) model.now.types < 2 ^ 32 }
    requires forest { IsForest model.now.types }
    ensures { result ≡ named_inverse model.now declared.now }
{
    match &declared.inverse {
        Some(name) => port_named(model, declared.target, name).map(|port| port.id),
        None => None,
    }
}

/// The inverse of the port of this id.
#[tactic(auto, unfolding(prod_model::specs::Taxonomy::inverse_of))]
fn inverse_of(model: &Model, id: u32) -> Option<u32>
    requires few { length model.now.types < 1000 }
    requires few_ports { sum_by (λ d. length d.ports) model.now.types < 2 ^ 32 }
    requires forest { IsForest model.now.types }
    ensures { result ≡ inverse_at model.now id }
{
    match new_declaration(model.types.as_slice(), id) {
        Some(declared) => inverse_named(model, declared),
        None => None,
    }
}

fn are_parts(kind: PortKind, other: PortKind) -> bool
    ensures { result ≡ are_parts kind other }
{
    kind == PortKind::Part && other == PortKind::Part
}

/// Whether the inverse of a port is the one that the type declares, and not both are parts.
fn names_back(model: &Model, t: u32, declared: &PortDecl, port: PortAt) -> bool
    requires few { length model.now.types < 1000 }
    requires few_ports { sum_by (λ d. length d.ports) model.now.types < 2 ^ 32 }
    requires forest { IsForest model.now.types }
    ensures { result ≡ is_named_back model.now t declared.now port }
{
    let Some(own) = port_named(model, t, &declared.name) else {
        return false;
    };
    match inverse_of(model, port.id) {
        Some(inverse) => inverse == own.id && !are_parts(declared.kind, port.kind),
        None => false,
    }
}

/// Whether the inverse that a declaration of the type names, if it names one, is right.
fn is_right(model: &Model, t: u32, declared: &PortDecl) -> bool
    requires few { length model.now.types < 1000 }
    requires few_ports { sum_by (λ d. length d.ports) model.now.types < 2 ^ 32 }
    requires forest { IsForest model.now.types }
    ensures { result ≡ has_right_inverse model.now t declared.now }
{
    let Some(name) = &declared.inverse else {
        return true;
    };
    match port_named(model, declared.target, name) {
        Some(port) => {
            is_new(model.types.as_slice(), t, declared) && names_back(model, t, declared, port)
        }
        None => false,
    }
}

/// The place of the first declaration of the type whose inverse is not right.
fn first_wrong(model: &Model, t: u32, declared: &[PortDecl]) -> Option<u32>
    requires few { length model.now.types < 1000 }
    requires few_ports { sum_by (λ d. length d.ports) model.now.types < 2 ^ 32 }
    requires forest { IsForest model.now.types }
    requires few_declared { length declared.now < 2 ^ 32 }
    ensures { IsFirstFailing
        (λ k. option_map_or (has_right_inverse model.now t) (slice_get declared.now k) true)
        (length declared.now) result }
{
    for place in 0..declared.len() {
        if !is_right(model, t, &declared[place]) {
            return Some(place as u32);
        }
    }
    None
}

/// Whether the inverses of all declarations are right.
fn all_right(model: &Model) -> Result<(), InverseFault>
    requires few { length model.now.types < 1000 }
    requires few_ports { sum_by (λ d. length d.ports) model.now.types < 2 ^ 32 }
    requires forest { IsForest model.now.types }
    ensures right { IsOk result ↔ IsTrue (has_right_inverses model.now) }
    ensures fault { IfErr result (IsFirstInverseFault model.now) }
{
    for t in 0..model.types.len() {
        let kind = t as u32;
        let declared = declared_at(model.types.as_slice(), kind);
        if let Some(place) = first_wrong(model, kind, declared) {
            return Err(InverseFault::Bad { kind, place });
        }
    }
    Ok(())
}

/// The port, with this inverse where it has the id.
fn given(port: PortAt, id: u32, inverse: Option<u32>) -> PortAt
    ensures { result ≡ given id inverse port }
{
    if port.id == id {
        PortAt { inverse, ..port }
    } else {
        port
    }
}

/// Gives a type's port of this id the inverse.
fn link_row(rows: &mut PortRows, kind: usize, id: u32, inverse: Option<u32>)
    requires { kind < length rows.old }
    ensures { rows.new
        ≡ slice_set rows.old kind (map (given id inverse) (slice_index_or rows.old kind [])) }
{
    let ports = rows.as_slice()[kind].len();
    for place in 0..ports {
        let port = rows.as_slice()[kind].as_slice()[place];
        rows.set(kind, place, given(port, id, inverse));
    }
}

/// Gives the port of this id the inverse wherever a type has it.
fn link_rows(rows: &mut PortRows, id: u32, inverse: Option<u32>)
    ensures { rows.new ≡ map (map (given id inverse)) rows.old }
{
    for kind in 0..rows.len() {
        link_row(rows, kind, id, inverse);
    }
}

/// Gives all ports their inverses, in the order of their ids.
fn link_all(model: &Model, rows: &mut PortRows)
    requires few { length model.now.types < 1000 }
    requires few_ports { sum_by (λ d. length d.ports) model.now.types < 2 ^ 32 }
    requires forest { IsForest model.now.types }
    requires declared { rows.old
        ≡ map (declared_ports_at model.now) (type_numbers model.now.types) }
    ensures { rows.new ≡ map (ports_at model.now) (type_numbers model.now.types) }
{
    let types = model.types.as_slice();
    for id in 0..first_id(types, types.len() as u32) {
        link_rows(rows, id, inverse_of(model, id));
    }
}
