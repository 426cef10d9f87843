//! The argument expressions of a form, and whether it is a truth.
ghost use Rattle.std.specs.Prelude.{◌≡◌, ◌<◌, length, slice_get};
ghost use Rattle.prod_model.specs.declared.expr.Expr.TheViews.{out-Expr};
ghost use Rattle.prod_model.specs.Limits.{is_between, most_arguments};
ghost use Rattle.expr_bounds.specs.steps.Arguments.{argument_list, first_place};
ghost use Rattle.expr_bounds.specs.Faults.{is_truth_form, needs_truths};

use prod_model::Expr;
use prod_model::limits::MOST_ARGUMENTS;

/// Whether a form may list so many arguments, which are 1 to 64.
pub(crate) fn may_list(count: usize) -> bool
    ensures { result ≡ is_between 1 most_arguments count }
{
    count >= 1 && count <= MOST_ARGUMENTS
}

/// How many argument expressions a form has.
pub(crate) fn argument_count(form: &Expr) -> usize
    ensures { result ≡ length (argument_list (out-Expr form.now)) }
{
    match form {
        Expr::Add(args) | Expr::And(args) | Expr::Or(args) => args.len(),
        Expr::Sub(_, _) | Expr::Cmp(_, _, _) | Expr::If(_, _) => 2,
        Expr::Times(_, _) | Expr::Not(_) | Expr::All(_, _) | Expr::Any(_, _) => 1,
        _ => 0,
    }
}

/// An argument expression of a form, counted from 0.
pub(crate) fn argument(form: &Expr, index: usize) -> &Expr
    requires { index < length (argument_list (out-Expr form.now)) }
    ensures { slice_get (argument_list (out-Expr form.now)) index ≡ Some result.now }
{
    match form {
        Expr::Add(args) | Expr::And(args) | Expr::Or(args) => at(args.as_slice(), index),
        Expr::Sub(a, b) | Expr::Cmp(_, a, b) | Expr::If(a, b) => {
            if index == 0 { a.get() } else { b.get() }
        }
        Expr::Times(_, a) | Expr::Not(a) | Expr::All(_, a) | Expr::Any(_, a) => a.get(),
        _ => unreachable!(),
    }
}

fn at(args: &[Expr], index: usize) -> &Expr
    requires { index < length args.now }
    ensures { slice_get args.now index ≡ Some result.now }
{
    &args[index]
}

/// The place of the first argument expression in the array form: 2 behind a factor or a port.
pub(crate) fn place_of_first(form: &Expr) -> u32
    ensures { result ≡ first_place (out-Expr form.now) }
{
    match form {
        Expr::Times(_, _) | Expr::All(_, _) | Expr::Any(_, _) => 2,
        _ => 1,
    }
}

/// Whether an expression is a truth, by its form. The others are numbers.
pub fn is_truth(form: &Expr) -> bool
    ensures { result ≡ is_truth_form (out-Expr form.now) }
{
    match form {
        Expr::Cmp(_, _, _)
        | Expr::Is(_, _)
        | Expr::Kind(_)
        | Expr::And(_)
        | Expr::Or(_)
        | Expr::Not(_)
        | Expr::If(_, _)
        | Expr::All(_, _)
        | Expr::Any(_, _) => true,
        _ => false,
    }
}

/// Whether the arguments of the form have to be truths. Those of the others have to be numbers.
pub(crate) fn takes_truths(form: &Expr) -> bool
    ensures { result ≡ needs_truths (out-Expr form.now) }
{
    match form {
        Expr::And(_)
        | Expr::Or(_)
        | Expr::Not(_)
        | Expr::If(_, _)
        | Expr::All(_, _)
        | Expr::Any(_, _) => true,
        _ => false,
    }
}
