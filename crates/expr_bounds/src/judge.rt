//! What an expression is at a type, or its first fault.
ghost use Rattle.std.specs.Prelude.{◌≡◌, ◌<◌, ◌≤◌, length, Some, IsTrue, IfOk, IfErr, IfSome, IfNone};
ghost use Rattle.prod_model.specs.Limits.{most_nesting};
ghost use Rattle.prod_model.specs.Nesting.{nesting};
ghost use Rattle.prod_model.specs.Taxonomy.{AreTablesOf};
ghost use Rattle.prod_model.specs.ExprBounds.{bounds_at};
ghost use Rattle.prod_model.specs.Valid.{IsDeclared};
ghost use Rattle.expr_bounds.specs.Forms.{is_form};
ghost use Rattle.expr_bounds.specs.Faults.{Faults};
ghost use Rattle.expr_bounds.specs.steps.Search.{HasNone, IsFirstOfKind};

use crate::bounds::bounds;
use crate::fault::ExprFault;
use crate::fault_kind::FaultKind;
use crate::search::find;
use crate::standing::Standing;
use prod_model::{Bounds, Expr, Model, Tables};
use std::alloc::Global;

/// What an expression is at a type, with its bounds, or its first fault: too deep before unknown
/// names, those before wrong kinds, and those before wide parts, and of one kind the first in
/// document order. The steps are as many as the expression has parts, times a look through one
/// type's row, and for a wide expression times its nesting.
///
/// The condition `form` is that each list of arguments has 1 to 64 members, since no fault tells of
/// another count: whoever makes an expression sees to it. `is_formed` tests it.
///
/// # Errors
///
/// `Deep`, `UnknownName`, `WrongKind` or `Wide` where that is the first fault, and `Memory` where
/// memory runs out on the way to a fault.
pub fn bounds_of(
    alloc: Global,
    model: &Model,
    tables: &Tables,
    expr: &Expr,
    at: u32,
) -> Result<Bounds, ExprFault>
    requires declared { IsDeclared model.now }
    requires tables { AreTablesOf model.now tables.now }
    requires at { at < length model.now.types }
    requires form { IsTrue (is_form expr.now) }
    ensures bounds { IfOk result (λ b. bounds_at model.now expr.now at ≡ Some b) }
    ensures nesting { IfOk result (λ _. nesting expr.now ≤ most_nesting) }
    ensures fault { IfErr result (λ e. Faults model.now expr.now at e) }
{
    if let Some(fault) = first_of(alloc, model, tables, FaultKind::Deep, expr, at) {
        return Err(fault);
    }
    if let Some(bounds) = bounds(model, tables, expr, at) {
        return Ok(bounds);
    }
    if let Some(fault) = first_of(alloc, model, tables, FaultKind::UnknownName, expr, at) {
        return Err(fault);
    }
    if let Some(fault) = first_of(alloc, model, tables, FaultKind::WrongKind, expr, at) {
        return Err(fault);
    }
    if let Some(fault) = first_of(alloc, model, tables, FaultKind::Wide, expr, at) {
        return Err(fault);
    }
    unreachable!()
}

/// The first fault of a kind, or want of memory.
fn first_of(
    alloc: Global,
    model: &Model,
    tables: &Tables,
    fault_kind: FaultKind,
    expr: &Expr,
    at: u32,
) -> Option<ExprFault>
    requires declared { IsDeclared model.now }
    requires tables { AreTablesOf model.now tables.now }
    requires form { IsTrue (is_form expr.now) }
    ensures none { IfNone result (HasNone model.now fault_kind expr.now at) }
    ensures first { IfSome result (λ f. IsFirstOfKind model.now fault_kind expr.now at f) }
{
    match find(
        alloc,
        model,
        tables,
        fault_kind,
        expr,
        Standing::of_whole(at),
    ) {
        Ok(Some(path)) => Some(fault_kind.fault_at(path)),
        Ok(None) => None,
        Err(_) => Some(ExprFault::Memory),
    }
}
