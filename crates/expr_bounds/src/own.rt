//! The faults of a part of an expression itself.
ghost use Rattle.std.specs.Prelude.{◌≡◌, ◌≤◌, ◌+◌, ◌∷◌, [], false, length, slice_get, IfOk, is_some};
ghost use Rattle.prod_model.specs.ExprBounds.{bounds_at};
ghost use Rattle.std.specs.Option.{option_map, option_map_or};
ghost use Rattle.prod_model.specs.declared.expr.Expr.TheViews.{out-Expr};
ghost use Rattle.prod_model.specs.Taxonomy.{AreTablesOf};
ghost use Rattle.prod_model.specs.Valid.{IsDeclared};
ghost use Rattle.expr_bounds.specs.steps.Search.{own_faults, whole_if, places, is_too_deep, is_wrong_kind as is_wrong_kind_of, is_innermost_unbounded, has_bounded_arguments as has_bounded};
ghost use Rattle.expr_bounds.specs.Faults.{unknown_names, wrong_attributes};

use crate::bounds::bounds;
use crate::fault_kind::FaultKind;
use crate::form::{argument, argument_count, is_truth};
use crate::names::unknown_name;
use crate::standing::{Standing, type_of_arguments};
use crate::wrong_attributes::wrong_attribute;
use prod_model::{Expr, Items, Model, Tables};
use std::alloc::{AllocError, Global};

/// The path from a part to the first fault of a kind that is its own.
pub(crate) fn own_fault(
    alloc: Global,
    model: &Model,
    tables: &Tables,
    fault_kind: FaultKind,
    part: &Expr,
    standing: Standing,
) -> Result<Option<Items<u32>>, AllocError>
    requires declared { IsDeclared model.now }
    requires tables { AreTablesOf model.now tables.now }
    ensures { IfOk result (λ own. own ≡ slice_get
        (own_faults model.now fault_kind part.now standing) 0) }
{
    match fault_kind {
        FaultKind::Deep => Ok(whole(alloc, is_deep(standing.levels))),
        FaultKind::UnknownName => name(alloc, unknown(model, tables, part, standing.at)),
        FaultKind::WrongKind => {
            if is_wrong_kind(part, standing.needs_truth) {
                return Ok(Some(Items::new(alloc)));
            }
            name(alloc, wrong(model, tables, part, standing.at))
        }
        FaultKind::Wide => Ok(whole(alloc, is_wide(model, tables, part, standing.at))),
    }
}

/// The path to the part itself, if it is wrong.
fn whole(alloc: Global, wrong: bool) -> Option<Items<u32>>
    ensures { result ≡ slice_get (whole_if wrong) 0 }
{
    if wrong { Some(Items::new(alloc)) } else { None }
}

/// The path to a name of the part.
fn name(alloc: Global, place: Option<u32>) -> Result<Option<Items<u32>>, AllocError>
    ensures { IfOk result (λ path. path ≡ option_map (λ k. k ∷ []) place) }
{
    let Some(place) = place else {
        return Ok(None);
    };
    Ok(Some(Items::from_slice(alloc, &[place])?))
}

fn is_deep(levels: Option<u32>) -> bool
    ensures { result ≡ is_too_deep levels }
{
    match levels {
        Some(levels) => levels == 0,
        None => false,
    }
}

fn unknown(model: &Model, tables: &Tables, part: &Expr, at: Option<u32>) -> Option<u32>
    requires declared { IsDeclared model.now }
    requires tables { AreTablesOf model.now tables.now }
    ensures { result ≡ slice_get
        (option_map_or (unknown_names model.now (out-Expr part.now)) at []) 0 }
{
    unknown_name(model, tables, part, at?)
}

fn wrong(model: &Model, tables: &Tables, part: &Expr, at: Option<u32>) -> Option<u32>
    requires { AreTablesOf model.now tables.now }
    ensures { result ≡ slice_get
        (option_map_or (wrong_attributes model.now (out-Expr part.now)) at []) 0 }
{
    wrong_attribute(model, tables, part, at?)
}

fn is_wrong_kind(part: &Expr, needs_truth: Option<bool>) -> bool
    ensures { result ≡ is_wrong_kind_of needs_truth (out-Expr part.now) }
{
    match needs_truth {
        Some(truth) => truth != is_truth(part),
        None => false,
    }
}

/// Whether the part has no bounds, and all its arguments have. It is wide, if no name is unknown
/// and no kind is wrong.
fn is_wide(model: &Model, tables: &Tables, part: &Expr, at: Option<u32>) -> bool
    requires declared { IsDeclared model.now }
    requires tables { AreTablesOf model.now tables.now }
    ensures { result ≡ option_map_or (is_innermost_unbounded model.now part.now) at false }
{
    let Some(at) = at else {
        return false;
    };
    bounds(model, tables, part, at).is_none() && has_bounded_arguments(model, tables, part, at)
}

fn has_bounded_arguments(model: &Model, tables: &Tables, part: &Expr, at: u32) -> bool
    requires declared { IsDeclared model.now }
    requires tables { AreTablesOf model.now tables.now }
    ensures { result ≡ has_bounded model.now part.now at }
{
    let below = type_of_arguments(model, tables, part, Some(at));
    for index in 0..argument_count(part) {
        if !is_bounded(model, tables, argument(part, index), below) {
            return false;
        }
    }
    true
}

fn is_bounded(model: &Model, tables: &Tables, arg: &Expr, at: Option<u32>) -> bool
    requires declared { IsDeclared model.now }
    requires tables { AreTablesOf model.now tables.now }
    ensures { result ≡ option_map_or (λ u. is_some (bounds_at model.now arg.now u)) at false }
{
    match at {
        Some(at) => bounds(model, tables, arg, at).is_some(),
        None => false,
    }
}
