//! Whether an expression is right at the type where it stands.
ghost use Rattle.std.specs.Prelude.{◌≡◌, ◌<◌, length, not, IsTrue, IfOk, IfErr, []};
ghost use Rattle.prod_model.specs.declared.expr.Expr.TheViews.{out-Expr};
ghost use Rattle.prod_model.specs.Taxonomy.{AreTablesOf};
ghost use Rattle.prod_model.specs.Valid.{IsDeclared};
ghost use Rattle.expr_bounds.specs.Faults.{is_truth_form, same_truth};
ghost use Rattle.expr_bounds.specs.Forms.{is_form};
ghost use Rattle.file_values.specs.declared.fault.Fault.{Fault as AFault};
ghost use Rattle.file_values.specs.declared.fault.FaultCode.TheVariants as code;
ghost use Rattle.file_meaning.specs.Faults.{path_place};
ghost use Rattle.file_meaning.specs.steps.Judged.{HasFormFault, IsRefusalOfForm, IsRefusalFor, IsJudged};

use crate::refusal::Refusal;
use expr_bounds::{ExprFault, bounds_of, is_truth};
use file_values::{Fault, FaultCode, Part};
use prod_model::{Expr, Items, Model, Tables};
use std::alloc::{AllocError, Global};

/// A path in an expression, as a place.
fn path_place(alloc: Global, path: &[u32]) -> Result<Items<Part>, AllocError>
    ensures { IfOk result (λ place. place ≡ path_place path.now) }
{
    let mut place = Items::new(alloc);
    for step in path {
        place.push(Part::At(*step))?;
    }
    Ok(place)
}

/// The fault of this code at a path.
fn refused(alloc: Global, code: FaultCode, path: Items<u32>) -> Refusal
    ensures { IsRefusalFor code (path_place path) result }
{
    match path_place(alloc, path.as_slice()) {
        Ok(place) => Refusal::Fault(Fault { code, place }),
        Err(e) => Refusal::Memory(e),
    }
}

/// The fault of the whole expression where it is of the wrong kind.
fn whole_refused(alloc: Global) -> Refusal
    ensures { IsRefusalFor code.WrongKind [] result }
{
    Refusal::Fault(Fault {
        code: FaultCode::WrongKind,
        place: Items::new(alloc),
    })
}

/// Whether it is a number where a truth is needed, or the reverse.
fn is_wrong_whole(expr: &Expr, truth: bool) -> bool
    ensures { result ≡ not (same_truth truth (is_truth_form (out-Expr expr.now))) }
{
    if truth {
        !is_truth(expr)
    } else {
        is_truth(expr)
    }
}

/// Judges an expression of the forms of the language that stands at a type of a declared model, as
/// a truth or as a number.
///
/// # Errors
///
/// `Fault` with its first fault, at a place from the expression, and `Memory` where memory runs
/// out.
pub(crate) fn judge(
    alloc: Global,
    model: &Model,
    tables: &Tables,
    expr: &Expr,
    at: u32,
    truth: bool,
) -> Result<(), Refusal>
    requires declared { IsDeclared model.now }
    requires tables { AreTablesOf model.now tables.now }
    requires at { at < length model.now.types }
    requires form { IsTrue (is_form expr.now) }
    ensures judged { IfOk result (λ _. IsJudged model.now expr.now at truth) }
    ensures fault { IfErr result (λ e. IsRefusalOfForm model.now expr.now at truth e) }
{
    let judged = bounds_of(alloc, model, tables, expr, at);
    let wrong = is_wrong_whole(expr, truth);
    match judged {
        Err(ExprFault::Deep(path)) => Err(refused(alloc, FaultCode::Deep, path)),
        Err(ExprFault::UnknownName(path)) => Err(refused(alloc, FaultCode::UnknownName, path)),
        Err(ExprFault::Memory) => Err(Refusal::Memory(AllocError)),
        Err(ExprFault::WrongKind(path)) => {
            if wrong {
                Err(whole_refused(alloc))
            } else {
                Err(refused(alloc, FaultCode::WrongKind, path))
            }
        }
        Err(ExprFault::Wide(path)) => {
            if wrong {
                Err(whole_refused(alloc))
            } else {
                Err(refused(alloc, FaultCode::Wide, path))
            }
        }
        Ok(_) => {
            if wrong {
                Err(whole_refused(alloc))
            } else {
                Ok(())
            }
        }
    }
}
