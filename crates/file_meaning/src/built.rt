//! The expression that a value stands for at a type.
ghost use Rattle.std.specs.Prelude.{◌≡◌, ℕ, Option, [], ◌∷◌, map, IfOk, IsFalse};
ghost use Rattle.std.specs.Option.{option_and_then};
ghost use Rattle.serde_json.specs.Find.{as_str};
ghost use Rattle.serde_json.specs.View.{view};
ghost use Rattle.prod_model.specs.Valid.{IsDeclared};
ghost use Rattle.file_values.specs.declared.operator.Operator.TheVariants as op;
ghost use Rattle.file_values.specs.Forms.{operator_of};
ghost use Rattle.file_values.specs.Read.{text_in};
ghost use Rattle.file_meaning.specs.Expressions.{expression_of, array_of, form_of, target_of};
ghost use Rattle.file_meaning.specs.Named.{AreNamedTablesOf};
ghost use Rattle.file_meaning.specs.steps.Built.{element, elements, is_of_list};

use crate::look_ups::{attribute_id, port_id, target_of, type_named, word_value};
use crate::named_tables::NamedTables;
use file_values::{Operator, operator_of, text_in, whole_in};
use prod_model::{Boxed, Expr, Items, Model};
use serde_json::Value;
use std::alloc::{AllocError, Global};

/// The expression that a value is at a type, which may not be known. What is misformed is read as
/// some number.
///
/// # Errors
///
/// `AllocError` where memory runs out, or a number of a type or of a word doesn't fit 32 bits.
#[cycle(building)]
#[tactic(auto, using(crate::proofs::BuiltForms::elements_items))]
pub(crate) fn expression_of(
    alloc: Global,
    model: &Model,
    named: &NamedTables<'_>,
    value: &Value,
    t: Option<u32>,
) -> Result<Expr, AllocError>
    requires declared { IsDeclared model.now }
    requires named { AreNamedTablesOf model.now named.now }
    ensures { IfOk result (λ e. e ≡ expression_of model.now (view value.now) t) }
{
    match value {
        Value::Number(_) => Ok(Expr::Num(whole_in(value))),
        Value::Array(items) => array_of(alloc, model, named, items.as_slice(), t),
        _ => Ok(Expr::Num(0)),
    }
}

/// The operator that the value is.
fn operator_in(value: &Value) -> Option<Operator>
    ensures { result ≡ option_and_then operator_of (as_str (view value.now)) }
{
    operator_of(value.as_str()?)
}

#[cycle(building)]
fn array_of(
    alloc: Global,
    model: &Model,
    named: &NamedTables<'_>,
    items: &[Value],
    t: Option<u32>,
) -> Result<Expr, AllocError>
    requires declared { IsDeclared model.now }
    requires named { AreNamedTablesOf model.now named.now }
    ensures { IfOk result (λ e. e ≡ array_of model.now (elements model.now items.now) t) }
{
    let Some((first, args)) = items.split_first() else {
        return Ok(Expr::Num(0));
    };
    match operator_in(first) {
        Some(operator) => form_of(alloc, model, named, operator, args, t),
        None => Ok(Expr::Num(0)),
    }
}

#[cycle(building)]
#[tactic(auto, unfolding(crate::specs::Expressions::form_of))]
fn form_of(
    alloc: Global,
    model: &Model,
    named: &NamedTables<'_>,
    operator: Operator,
    args: &[Value],
    t: Option<u32>,
) -> Result<Expr, AllocError>
    requires declared { IsDeclared model.now }
    requires named { AreNamedTablesOf model.now named.now }
    ensures { IfOk result (λ e. e ≡ form_of model.now operator (elements model.now args.now) t) }
{
    match operator {
        Operator::Add => Ok(Expr::Add(all_at(alloc, model, named, args, t)?)),
        Operator::And => Ok(Expr::And(all_at(alloc, model, named, args, t)?)),
        Operator::Or => Ok(Expr::Or(all_at(alloc, model, named, args, t)?)),
        _ => form_of_few(alloc, model, named, operator, args, t),
    }
}

/// The expressions that the values are, each at the type.
#[cycle(building)]
fn all_at(
    alloc: Global,
    model: &Model,
    named: &NamedTables<'_>,
    args: &[Value],
    t: Option<u32>,
) -> Result<Items<Expr>, AllocError>
    requires declared { IsDeclared model.now }
    requires named { AreNamedTablesOf model.now named.now }
    ensures { IfOk result (λ es. es ≡ map (λ e. e.at t) (elements model.now args.now)) }
{
    let mut all = Items::new(alloc);
    for arg in args {
        all.push(expression_of(alloc, model, named, arg, t)?)?;
    }
    Ok(all)
}

/// Of operators that take one or two arguments.
#[cycle(building)]
fn form_of_few(
    alloc: Global,
    model: &Model,
    named: &NamedTables<'_>,
    operator: Operator,
    args: &[Value],
    t: Option<u32>,
) -> Result<Expr, AllocError>
    requires declared { IsDeclared model.now }
    requires named { AreNamedTablesOf model.now named.now }
    requires few { IsFalse (is_of_list operator) }
    ensures { IfOk result (λ e. e ≡ form_of model.now operator (elements model.now args.now) t) }
{
    let Some((first, rest)) = args.split_first() else {
        return Ok(Expr::Num(0));
    };
    let Some((second, more)) = rest.split_first() else {
        return form_of_one(alloc, model, named, operator, first, t);
    };
    if more.is_empty() {
        form_of_two(alloc, model, named, operator, first, second, t)
    } else {
        Ok(Expr::Num(0))
    }
}

#[cycle(building)]
#[tactic(auto, unfolding(crate::specs::Expressions::form_of))]
fn form_of_one(
    alloc: Global,
    model: &Model,
    named: &NamedTables<'_>,
    operator: Operator,
    arg: &Value,
    t: Option<u32>,
) -> Result<Expr, AllocError>
    requires declared { IsDeclared model.now }
    requires named { AreNamedTablesOf model.now named.now }
    requires few { IsFalse (is_of_list operator) }
    ensures { IfOk result
        (λ e. e ≡ form_of model.now operator (element model.now (view arg.now) ∷ []) t) }
{
    match operator {
        Operator::Attr => Ok(Expr::Attr(attribute_id(model, named, t, text_in(arg)))),
        Operator::Count => Ok(Expr::Count(port_id(model, named, t, text_in(arg)))),
        Operator::Number => Ok(Expr::Number(type_named(model, named, text_in(arg))?)),
        Operator::Kind => Ok(Expr::Kind(type_named(model, named, text_in(arg))?)),
        Operator::Not => Ok(Expr::Not(boxed_at(alloc, model, named, arg, t)?)),
        _ => Ok(Expr::Num(0)),
    }
}

#[cycle(building)]
#[tactic(auto, unfolding(crate::specs::Expressions::form_of))]
fn form_of_two(
    alloc: Global,
    model: &Model,
    named: &NamedTables<'_>,
    operator: Operator,
    first: &Value,
    second: &Value,
    t: Option<u32>,
) -> Result<Expr, AllocError>
    requires declared { IsDeclared model.now }
    requires named { AreNamedTablesOf model.now named.now }
    requires few { IsFalse (is_of_list operator) }
    ensures { IfOk result (λ e. e ≡ form_of model.now operator
        (element model.now (view first.now) ∷ element model.now (view second.now) ∷ []) t) }
{
    match operator {
        Operator::Count => count_under(alloc, model, named, first, second, t),
        Operator::Sum => sum_over(alloc, model, named, first, second, t),
        Operator::Total => total_under(alloc, model, named, first, second),
        Operator::Is => is_word_at(alloc, model, named, first, second, t),
        Operator::Times => Ok(Expr::Times(
            whole_in(first),
            boxed_at(alloc, model, named, second, t)?,
        )),
        Operator::All => Ok(Expr::All(
            port_id(model, named, t, text_in(first)),
            boxed_behind(alloc, model, named, first, second, t)?,
        )),
        Operator::Any => Ok(Expr::Any(
            port_id(model, named, t, text_in(first)),
            boxed_behind(alloc, model, named, first, second, t)?,
        )),
        Operator::Sub => Ok(Expr::Sub(
            boxed_at(alloc, model, named, first, t)?,
            boxed_at(alloc, model, named, second, t)?,
        )),
        Operator::Cmp(relation) => Ok(Expr::Cmp(
            relation,
            boxed_at(alloc, model, named, first, t)?,
            boxed_at(alloc, model, named, second, t)?,
        )),
        Operator::If => Ok(Expr::If(
            boxed_at(alloc, model, named, first, t)?,
            boxed_at(alloc, model, named, second, t)?,
        )),
        _ => Ok(Expr::Num(0)),
    }
}

/// The expression that a value is, in a box.
#[cycle(building)]
fn boxed_at(
    alloc: Global,
    model: &Model,
    named: &NamedTables<'_>,
    value: &Value,
    t: Option<u32>,
) -> Result<Boxed<Expr>, AllocError>
    requires declared { IsDeclared model.now }
    requires named { AreNamedTablesOf model.now named.now }
    ensures { IfOk result (λ e. e ≡ expression_of model.now (view value.now) t) }
{
    let expr = expression_of(alloc, model, named, value, t)?;
    Boxed::new(alloc, expr)
}

/// The expression that a value is at the target of a port.
#[cycle(building)]
fn boxed_behind(
    alloc: Global,
    model: &Model,
    named: &NamedTables<'_>,
    port: &Value,
    value: &Value,
    t: Option<u32>,
) -> Result<Boxed<Expr>, AllocError>
    requires declared { IsDeclared model.now }
    requires named { AreNamedTablesOf model.now named.now }
    ensures { IfOk result (λ e. e ≡ expression_of model.now (view value.now)
        (target_of model.now t (text_in (view port.now)))) }
{
    let target = target_of(model, named, t, text_in(port));
    boxed_at(alloc, model, named, value, target)
}

/// How many links the port has to instances under the type.
#[tactic(auto, unfolding(crate::specs::Expressions::form_of))]
fn count_under(
    alloc: Global,
    model: &Model,
    named: &NamedTables<'_>,
    port: &Value,
    kind: &Value,
    t: Option<u32>,
) -> Result<Expr, AllocError>
    requires declared { IsDeclared model.now }
    requires named { AreNamedTablesOf model.now named.now }
    ensures { IfOk result (λ e. e ≡ form_of model.now op.Count
        (element model.now (view port.now) ∷ element model.now (view kind.now) ∷ []) t) }
{
    let port = port_id(model, named, t, text_in(port));
    Ok(Expr::CountOf(port, type_named(model, named, text_in(kind))?))
}

/// The sum of the attribute, which is that of the port's target, over the port's links.
#[tactic(auto, unfolding(crate::specs::Expressions::form_of))]
fn sum_over(
    alloc: Global,
    model: &Model,
    named: &NamedTables<'_>,
    port: &Value,
    attribute: &Value,
    t: Option<u32>,
) -> Result<Expr, AllocError>
    requires declared { IsDeclared model.now }
    requires named { AreNamedTablesOf model.now named.now }
    ensures { IfOk result (λ e. e ≡ form_of model.now op.Sum
        (element model.now (view port.now) ∷ element model.now (view attribute.now) ∷ []) t) }
{
    let target = target_of(model, named, t, text_in(port));
    let port = port_id(model, named, t, text_in(port));
    let attribute = attribute_id(model, named, target, text_in(attribute));
    Ok(Expr::Sum(port, attribute))
}

/// The sum of the attribute, which is that of the type, over the instances under the type.
#[tactic(auto, unfolding(crate::specs::Expressions::form_of))]
fn total_under(
    alloc: Global,
    model: &Model,
    named: &NamedTables<'_>,
    kind: &Value,
    attribute: &Value,
) -> Result<Expr, AllocError>
    requires declared { IsDeclared model.now }
    requires named { AreNamedTablesOf model.now named.now }
    ensures { IfOk result (λ e. (t : Option ℕ) → e ≡ form_of model.now op.Total
        (element model.now (view kind.now) ∷ element model.now (view attribute.now) ∷ []) t) }
{
    let kind = type_named(model, named, text_in(kind))?;
    let attribute = attribute_id(model, named, Some(kind), text_in(attribute));
    Ok(Expr::Total(kind, attribute))
}

/// Whether the attribute has the word as its value.
#[tactic(auto, unfolding(crate::specs::Expressions::form_of))]
fn is_word_at(
    alloc: Global,
    model: &Model,
    named: &NamedTables<'_>,
    attribute: &Value,
    word: &Value,
    t: Option<u32>,
) -> Result<Expr, AllocError>
    requires declared { IsDeclared model.now }
    requires named { AreNamedTablesOf model.now named.now }
    ensures { IfOk result (λ e. e ≡ form_of model.now op.Is
        (element model.now (view attribute.now) ∷ element model.now (view word.now) ∷ []) t) }
{
    let name = text_in(attribute);
    let attribute = attribute_id(model, named, t, name);
    let word = word_value(model, named, t, name, text_in(word))?;
    Ok(Expr::Is(attribute, word))
}
