//! The first declaration that does not narrow the nearest one of its name.
ghost use Rattle.std.specs.Prelude.{ℕ, ◌<◌, ◌^◌, true, length, slice_get, IfOk, MatchOption};
ghost use Rattle.std.specs.Option.{option_map_or};
ghost use Rattle.prod_model.specs.declared.model.TypeDecl.{TypeDecl};
ghost use Rattle.prod_model.specs.Forest.{ancestors};
ghost use Rattle.type_taxonomy.specs.steps.Above.{attribute_passes, port_passes, IsAbove};
ghost use Rattle.type_taxonomy.specs.steps.Built.{IsBuilt, NarrowsAll, IsWideningOf, IsFirstWidening};
ghost use Rattle.base_laws.specs.Places.{IsAt};
ghost use Rattle.type_taxonomy.specs.steps.FirstFailing.{IsFirstFailing};

use crate::above::{Above, declared_above};
use crate::fault::TaxFault;
use crate::forest::Forest;
use crate::narrowing::{attribute_narrows, port_narrows};
use prod_model::{AttrDecl, PortDecl, TypeDecl};
use std::alloc::{AllocError, Global};

fn first_wide_attribute(above: &Above, attributes: &[AttrDecl]) -> Option<u32>
    requires { length attributes.now < 2 ^ 32 }
    ensures { IsFirstFailing
        (λ k. option_map_or (attribute_passes above.now) (slice_get attributes.now k) true)
        (length attributes.now) result }
{
    for place in 0..attributes.len() {
        if !attribute_narrows(above, &attributes[place]) {
            return Some(place as u32);
        }
    }
    None
}

fn first_wide_port(forest: &Forest, above: &Above, ports: &[PortDecl]) -> Option<u32>
    requires built { IsBuilt forest.now }
    requires few { length ports.now < 2 ^ 32 }
    ensures { IsFirstFailing
        (λ k. option_map_or (port_passes forest.now.model.now above.now)
        (slice_get ports.now k) true)
        (length ports.now) result }
{
    for place in 0..ports.len() {
        if !port_narrows(forest, above, &ports[place]) {
            return Some(place as u32);
        }
    }
    None
}

/// The first widening of a type, attributes before ports.
fn widening_of(forest: &Forest, above: &Above, t: u32, decl: &TypeDecl) -> Option<TaxFault>
    requires built { IsBuilt forest.now }
    requires above { IsAbove forest.now.model.now.types
        (ancestors forest.now.model.now.types t) above.now }
    requires few_attributes { length decl.now.attributes < 2 ^ 32 }
    requires few_ports { length decl.now.ports < 2 ^ 32 }
    ensures { MatchOption result (NarrowsAll forest.now.model.now t decl.now)
        (IsWideningOf forest.now.model.now t decl.now) }
{
    if let Some(place) = first_wide_attribute(above, decl.attributes.as_slice()) {
        return Some(TaxFault::Widening {
            kind: t,
            port: false,
            place,
        });
    }
    let place = first_wide_port(forest, above, decl.ports.as_slice())?;
    Some(TaxFault::Widening {
        kind: t,
        port: true,
        place,
    })
}

/// What is declared above a type of the forest.
fn above_type<'a>(alloc: Global, forest: &Forest<'a>, t: u32) -> Result<Above<'a>, AllocError>
    requires built { IsBuilt forest.now }
    requires within { t < length forest.now.model.now.types }
    ensures { IfOk result
        (IsAbove forest.now.model.now.types (ancestors forest.now.model.now.types t)) }
{
    let line = &forest.lines.as_slice()[t as usize];
    declared_above(alloc, forest.model.types.as_slice(), line.as_slice())
}

/// The first widening, by type, attributes before ports, and then by place. For each type the
/// declarations of its ancestors are gone over once, and then each of its own takes two look-ups of
/// its name.
pub(crate) fn first_widening(alloc: Global, forest: &Forest) -> Result<Option<TaxFault>, AllocError>
    requires built { IsBuilt forest.now }
    requires few { length forest.now.model.now.types < 2 ^ 32 }
    requires few_attributes { (t : ℕ) → (d : TypeDecl) → IsAt forest.now.model.now.types t d
        → length d.attributes < 2 ^ 32 }
    requires few_ports { (t : ℕ) → (d : TypeDecl) → IsAt forest.now.model.now.types t d
        → length d.ports < 2 ^ 32 }
    ensures { IfOk result (λ widening. MatchOption widening
        ((t : ℕ) → (d : TypeDecl) → IsAt forest.now.model.now.types t d
        → NarrowsAll forest.now.model.now t d)
        (IsFirstWidening forest.now.model.now)) }
{
    let types = forest.model.types.as_slice();
    for t in 0..types.len() {
        let above = above_type(alloc, forest, t as u32)?;
        if let Some(fault) = widening_of(forest, &above, t as u32, &types[t]) {
            return Ok(Some(fault));
        }
    }
    Ok(None)
}
