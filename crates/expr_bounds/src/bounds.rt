//! What an expression is at a type, from what its arguments are.
ghost use Rattle.std.specs.Prelude.{◌≡◌, ◌≤◌, length, pos, [], ◌∷◌, map, if◌then◌else◌, IfSome};
ghost use Rattle.std.specs.Option.{option_copied, option_map, option_and_then};
ghost use Rattle.prod_model.specs.Forest.{is_type as is_type_of};
ghost use Rattle.prod_model.specs.declared.expr.Expr.TheViews.{out-Expr};
ghost use Rattle.prod_model.specs.Limits.{most_arguments};
ghost use Rattle.prod_model.specs.Taxonomy.{AreTablesOf, attribute_of as attribute_at, declared_port_of as port_at};
ghost use Rattle.prod_model.specs.ExprBounds.{bounds_at, sum_of_some as sum_between, of_range, truth_of, has_arguments};
ghost use Rattle.prod_model.specs.Valid.{IsDeclared};
ghost use Rattle.prod_model.specs.steps.ExprBounds.{sum_onto};
ghost use Rattle.expr_bounds.specs.steps.FormBounds.{form_bounds as bounds_of_form};

use crate::form::may_list;
use crate::interval::{
    Sum, between, both_truths, compared, difference, exactly, multiple, range_of, sum_of_some,
    truth,
};
use crate::names::has_word;
use prod_model::{Bounds, Boxed, Expr, Items, Model, Tables};

/// What an expression is at a type, and nothing where it has a fault there other than its nesting.
/// The steps are as many as the expression has parts, times a look through the row of a type.
#[tactic(auto, using(crate::proofs::BoundsLaws::form_laws))]
pub(crate) fn bounds(model: &Model, tables: &Tables, expr: &Expr, at: u32) -> Option<Bounds>
    requires declared { IsDeclared model.now }
    requires tables { AreTablesOf model.now tables.now }
    ensures { result ≡ bounds_at model.now expr.now at }
{
    form_bounds(model, tables, expr, at)
}

/// What a form is at a type.
#[cycle(forms)]
#[tactic(auto, using(crate::proofs::BoundsLaws::form_laws))]
fn form_bounds(model: &Model, tables: &Tables, form: &Expr, at: u32) -> Option<Bounds>
    requires declared { IsDeclared model.now }
    requires tables { AreTablesOf model.now tables.now }
    ensures { result ≡ bounds_of_form model.now (out-Expr form.now) at }
{
    match form {
        Expr::Num(n) => exactly(*n),
        Expr::Attr(a) => range_of(tables.attribute_of(model, at, *a)?),
        Expr::Count(p) => links(model, tables, at, *p),
        Expr::CountOf(p, kind) => links_under(model, tables, at, *p, *kind),
        Expr::Sum(p, a) => sum_of_links(model, tables, at, *p, *a),
        Expr::Total(kind, a) => {
            sum_of_some(0, model.instances, tables.attribute_of(model, *kind, *a)?)
        }
        Expr::Number(kind) => only_if(model.is_type(*kind), between(0, model.instances)),
        Expr::Add(args) => sum_of_all(model, tables, few(args)?, at),
        Expr::Sub(a, b) => difference(
            inner_bounds(model, tables, a, at),
            inner_bounds(model, tables, b, at),
        ),
        Expr::Times(factor, a) => multiple(*factor, inner_bounds(model, tables, a, at)),
        Expr::Cmp(_, a, b) => compared(
            inner_bounds(model, tables, a, at),
            inner_bounds(model, tables, b, at),
        ),
        Expr::Is(a, word) => {
            let attribute = tables.attribute_of(model, at, *a)?;
            only_if(has_word(model, tables, at, attribute, *word), Bounds::Truth)
        }
        Expr::Kind(kind) => only_if(model.is_type(*kind), Bounds::Truth),
        Expr::And(args) | Expr::Or(args) => all_truths(model, tables, few(args)?, at),
        Expr::Not(a) => truth(inner_bounds(model, tables, a, at)),
        Expr::If(a, b) => both_truths(
            inner_bounds(model, tables, a, at),
            inner_bounds(model, tables, b, at),
        ),
        Expr::All(p, a) | Expr::Any(p, a) => {
            let port = tables.port_of(model, at, *p)?;
            truth(inner_bounds(model, tables, a, port.target))
        }
    }
}

/// How many links a port of a type has.
fn links(model: &Model, tables: &Tables, at: u32, p: u32) -> Option<Bounds>
    requires { AreTablesOf model.now tables.now }
    ensures { result ≡ option_map (λ q. Bounds.Number (pos q.low) (pos q.high))
        (port_at model.now at p) }
{
    let port = tables.port_of(model, at, p)?;
    Some(between(port.low, port.high))
}

/// How many of them are to instances under a type.
fn links_under(model: &Model, tables: &Tables, at: u32, p: u32, kind: u32) -> Option<Bounds>
    requires { AreTablesOf model.now tables.now }
    ensures { result ≡ (if is_type_of model.now kind
        then option_map (λ q. Bounds.Number (pos 0) (pos q.high)) (port_at model.now at p)
        else None) }
{
    let port = tables.port_of(model, at, p)?;
    only_if(model.is_type(kind), between(0, port.high))
}

/// The sum of an attribute over the links of a port.
fn sum_of_links(model: &Model, tables: &Tables, at: u32, p: u32, a: u32) -> Option<Bounds>
    requires { AreTablesOf model.now tables.now }
    ensures { result ≡ option_and_then (λ q. option_and_then (of_range (sum_between q.low q.high))
        (attribute_at model.now q.target a)) (port_at model.now at p) }
{
    let port = tables.port_of(model, at, p)?;
    let attribute = tables.attribute_of(model, port.target, a)?;
    sum_of_some(port.low, port.high, attribute)
}

#[cycle(forms)]
#[tactic(auto, using(crate::proofs::BoundsLaws::form_laws))]
fn inner_bounds(model: &Model, tables: &Tables, arg: &Boxed<Expr>, at: u32) -> Option<Bounds>
    requires declared { IsDeclared model.now }
    requires tables { AreTablesOf model.now tables.now }
    ensures { result ≡ bounds_at model.now arg.now at }
{
    form_bounds(model, tables, arg.get(), at)
}

/// The sum of all, if they are numbers.
#[cycle(forms)]
fn sum_of_all(model: &Model, tables: &Tables, args: &[Expr], at: u32) -> Option<Bounds>
    requires declared { IsDeclared model.now }
    requires tables { AreTablesOf model.now tables.now }
    requires few { length args.now ≤ most_arguments }
    ensures { result ≡ sum_onto (pos 0) (pos 0) (map (λ e. bounds_at model.now e at) args.now) }
{
    let mut sum = Sum::new();
    for arg in args {
        sum = sum.plus(form_bounds(model, tables, arg, at))?;
    }
    sum.bounds()
}

/// A truth, if all are truths.
#[cycle(forms)]
fn all_truths(model: &Model, tables: &Tables, args: &[Expr], at: u32) -> Option<Bounds>
    requires declared { IsDeclared model.now }
    requires tables { AreTablesOf model.now tables.now }
    ensures { result ≡ truth_of (map (λ e. bounds_at model.now e at) args.now) }
{
    for arg in args {
        truth(form_bounds(model, tables, arg, at))?;
    }
    Some(Bounds::Truth)
}

/// A list of arguments that has at least one member and at most 64.
fn few(args: &Items<Expr>) -> Option<&[Expr]>
    ensures value { option_copied result ≡ (if has_arguments args.now
        then Some args.now else None) }
    ensures few { IfSome result (λ s. length s.now ≤ most_arguments) }
{
    if may_list(args.len()) {
        Some(args.as_slice())
    } else {
        None
    }
}

fn only_if(known: bool, bounds: Bounds) -> Option<Bounds>
    ensures { result ≡ (if known then Some bounds else None) }
{
    if known { Some(bounds) } else { None }
}
