//! The search for the first fault of a kind.
ghost use Rattle.std.specs.Prelude.{◌≡◌, ◌∷◌, IfOk, IsTrue};
ghost use Rattle.prod_model.specs.Taxonomy.{AreTablesOf};
ghost use Rattle.prod_model.specs.Valid.{IsDeclared};
ghost use Rattle.expr_bounds.specs.Forms.{is_form};
ghost use Rattle.expr_bounds.specs.steps.Search.{HasFaultAt, Finds};

use crate::fault_kind::FaultKind;
use crate::form::{argument, argument_count, place_of_first};
use crate::own::own_fault;
use crate::standing::Standing;
use prod_model::{Expr, Items, Model, Tables};
use std::alloc::{AllocError, Global};

/// The path from a part to the first fault of a kind in it: a part's own faults come before those
/// of its arguments. The steps are as many as the part has parts, times a look through one type's
/// row. With `FaultKind::Wide` the bounds of each part are looked at once for each part around it,
/// of which there are at most 16.
pub(crate) fn find(
    alloc: Global,
    model: &Model,
    tables: &Tables,
    fault_kind: FaultKind,
    part: &Expr,
    standing: Standing,
) -> Result<Option<Items<u32>>, AllocError>
    requires declared { IsDeclared model.now }
    requires tables { AreTablesOf model.now tables.now }
    requires form { IsTrue (is_form part.now) }
    ensures { IfOk result (Finds (HasFaultAt model.now fault_kind part.now standing)) }
{
    let own = own_fault(alloc, model, tables, fault_kind, part, standing)?;
    if let Some(path) = own {
        return Ok(Some(path));
    }
    let below = standing.below(model, tables, part);
    for index in 0..argument_count(part) {
        let arg = argument(part, index);
        if let Some(path) = find(alloc, model, tables, fault_kind, arg, below)? {
            let place = place_of_first(part) + index as u32;
            return Ok(Some(behind(alloc, place, path)?));
        }
    }
    Ok(None)
}

/// The path with a place in front.
fn behind(alloc: Global, place: u32, path: Items<u32>) -> Result<Items<u32>, AllocError>
    ensures { IfOk result (λ whole. whole ≡ place ∷ path) }
{
    let mut whole = Items::from_slice(alloc, &[place])?;
    whole.append(path)?;
    Ok(whole)
}
