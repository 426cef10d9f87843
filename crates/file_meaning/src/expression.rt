//! Whether the expression that a value stands for is right where it stands.
ghost use Rattle.std.specs.Prelude.{◌≡◌, ℕ, ◌<◌, length, Bool, Some, [], if◌then◌else◌, IsTrue, IfOk, IfErr};
ghost use Rattle.serde_json.specs.View.{view};
ghost use Rattle.prod_model.specs.declared.model.Model.{Model as AModel};
ghost use Rattle.prod_model.specs.ExprBounds.{is_truth_at, is_number_at};
ghost use Rattle.prod_model.specs.Taxonomy.{AreTablesOf};
ghost use Rattle.prod_model.specs.Valid.{IsDeclared};
ghost use Rattle.file_values.specs.declared.fault.Fault.{Fault as AFault};
ghost use Rattle.file_values.specs.Forms.{misformed};
ghost use Rattle.file_meaning.specs.Expressions.{expression_of};
ghost use Rattle.file_meaning.specs.Faults.{HasOwnFault};
ghost use Rattle.file_meaning.specs.Named.{AreNamedTablesOf};
ghost use Rattle.file_meaning.specs.Refused.{IsRefusalOfExpr};

use crate::built::expression_of;
use crate::judge::judge;
use crate::named_tables::NamedTables;
use crate::refusal::Refusal;
use file_values::{Fault, FaultCode, first_misformed};
use prod_model::{Expr, Model, Tables};
use serde_json::Value;
use std::alloc::Global;

/// Refuses a value that is of none of the forms of expressions, or in which an argument isn't what
/// it has to be.
fn refuse_misformed(alloc: Global, value: &Value) -> Result<(), Refusal>
    ensures formed { IfOk result (λ _. misformed (view value.now) ≡ []) }
    ensures fault { IfErr result (λ e. (m : AModel) → (of : ℕ) → (truth : Bool)
        → IsRefusalOfExpr m (view value.now) of truth e) }
{
    match first_misformed(alloc, value) {
        Ok(None) => Ok(()),
        Ok(Some(place)) => Err(Refusal::Fault(Fault {
            code: FaultCode::Misformed,
            place,
        })),
        Err(e) => Err(Refusal::Memory(e)),
    }
}

/// Judges the expression that a value stands for at a type of a declared model, as a truth or as a
/// number: where it is right, it has bounds of that kind there and nests at most 16 deep.
///
/// # Errors
///
/// `Fault` with its first fault, at a place from the value, and `Memory` where memory runs out.
pub fn judge_expr(
    alloc: Global,
    model: &Model,
    tables: &Tables,
    value: &Value,
    expr: &Expr,
    at: u32,
    truth: bool,
) -> Result<(), Refusal>
    requires declared { IsDeclared model.now }
    requires tables { AreTablesOf model.now tables.now }
    requires at { at < length model.now.types }
    requires expr { expr.now ≡ expression_of model.now (view value.now) (Some at) }
    ensures faultless { IfOk result
        (λ _. (f : AFault) → HasOwnFault model.now (view value.now) at truth f → ⊥) }
    ensures bounded { IfOk result (λ _. IsTrue (if truth then is_truth_at model.now at expr.now
        else is_number_at model.now at expr.now)) }
    ensures fault { IfErr result (IsRefusalOfExpr model.now (view value.now) at truth) }
{
    refuse_misformed(alloc, value)?;
    judge(alloc, model, tables, expr, at, truth)
}

/// Reads the expression that a value stands for at a type of a declared model, as a truth or as a
/// number: it has bounds of that kind there and nests at most 16 deep. It makes an index of the
/// model's names first: for many expressions of one file, `read_named` takes one that is made once.
///
/// # Errors
///
/// `Fault` with its first fault, at a place from the value, and `Memory` where memory runs out.
pub fn read_expr(
    alloc: Global,
    model: &Model,
    tables: &Tables,
    value: &Value,
    at: u32,
    truth: bool,
) -> Result<Expr, Refusal>
    requires declared { IsDeclared model.now }
    requires tables { AreTablesOf model.now tables.now }
    requires at { at < length model.now.types }
    ensures expr { IfOk result (λ e. e ≡ expression_of model.now (view value.now) (Some at)) }
    ensures faultless { IfOk result
        (λ _. (f : AFault) → HasOwnFault model.now (view value.now) at truth f → ⊥) }
    ensures bounded { IfOk result (λ e. IsTrue (if truth then is_truth_at model.now at e
        else is_number_at model.now at e)) }
    ensures fault { IfErr result (IsRefusalOfExpr model.now (view value.now) at truth) }
{
    match NamedTables::of(alloc, model, tables) {
        Ok(named) => read_named(alloc, model, &named, value, at, truth),
        Err(e) => Err(Refusal::Memory(e)),
    }
}

/// Reads the expression that a value stands for at a type of a declared model, as a truth or as a
/// number: it has bounds of that kind there and nests at most 16 deep. It goes over the value a few
/// times, looks each name up once by its hash, and then takes what its bounds take.
///
/// # Errors
///
/// `Fault` with its first fault, at a place from the value, and `Memory` where memory runs out.
pub fn read_named(
    alloc: Global,
    model: &Model,
    named: &NamedTables<'_>,
    value: &Value,
    at: u32,
    truth: bool,
) -> Result<Expr, Refusal>
    requires declared { IsDeclared model.now }
    requires named { AreNamedTablesOf model.now named.now }
    requires at { at < length model.now.types }
    ensures expr { IfOk result (λ e. e ≡ expression_of model.now (view value.now) (Some at)) }
    ensures faultless { IfOk result
        (λ _. (f : AFault) → HasOwnFault model.now (view value.now) at truth f → ⊥) }
    ensures bounded { IfOk result (λ e. IsTrue (if truth then is_truth_at model.now at e
        else is_number_at model.now at e)) }
    ensures fault { IfErr result (IsRefusalOfExpr model.now (view value.now) at truth) }
{
    refuse_misformed(alloc, value)?;
    let expr = match expression_of(alloc, model, named, value, Some(at)) {
        Ok(expr) => expr,
        Err(e) => return Err(Refusal::Memory(e)),
    };
    judge(alloc, model, named.tables, &expr, at, truth)?;
    Ok(expr)
}
