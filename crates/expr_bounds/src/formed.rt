//! Tells whether an expression is of the forms of the language.
ghost use Rattle.std.specs.Prelude.{◌≡◌};
ghost use Rattle.prod_model.specs.declared.expr.Expr.TheViews.{out-Expr};
ghost use Rattle.expr_bounds.specs.steps.Arguments.{has_right_count as has_count};
ghost use Rattle.expr_bounds.specs.Forms.{is_form};

use crate::form::{argument, argument_count, may_list};
use prod_model::Expr;

/// Whether each list of arguments has 1 to 64 members: the condition `form` of `bounds_of`. It
/// takes one step a part of the expression.
pub fn is_formed(expr: &Expr) -> bool
    ensures { result ≡ is_form expr.now }
{
    if !has_right_count(expr) {
        return false;
    }
    for index in 0..argument_count(expr) {
        if !is_formed(argument(expr, index)) {
            return false;
        }
    }
    true
}

fn has_right_count(form: &Expr) -> bool
    ensures { result ≡ has_count (out-Expr form.now) }
{
    match form {
        Expr::Add(args) | Expr::And(args) | Expr::Or(args) => may_list(args.len()),
        _ => true,
    }
}
