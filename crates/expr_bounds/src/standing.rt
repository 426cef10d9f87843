//! Where a part of an expression stands.
ghost use Rattle.std.specs.Prelude.{◌≡◌};
ghost use Rattle.std.specs.Option.{option_and_then};
ghost use Rattle.prod_model.specs.declared.expr.Expr.TheViews.{out-Expr};
ghost use Rattle.prod_model.specs.Taxonomy.{AreTablesOf};
ghost use Rattle.expr_bounds.specs.Parts.{type_of_arguments as type_below};
ghost use Rattle.expr_bounds.specs.steps.Search.{levels_below, whole_at, standing_below};

use crate::form::takes_truths;
use prod_model::limits::MOST_NESTING;
use prod_model::{Expr, Model, Tables};

/// Where a part of an expression stands.
#[derive(Clone, Copy)]
pub(crate) struct Standing {
    /// How many levels are left for the part and what is in it. There are none below the first part
    /// that is too deep.
    pub(crate) levels: Option<u32>,
    /// The type, unless a port on the way to the part is not known.
    pub(crate) at: Option<u32>,
    /// Whether a truth is needed, or a number. At the whole either serves.
    pub(crate) needs_truth: Option<bool>,
}

impl Standing {
    /// Where the whole expression stands.
    pub(crate) fn of_whole(at: u32) -> Standing
        ensures { result ≡ whole_at at }
    {
        Standing {
            levels: Some(MOST_NESTING as u32),
            at: Some(at),
            needs_truth: None,
        }
    }

    /// Where the arguments of a part stand.
    pub(crate) fn below(self, model: &Model, tables: &Tables, part: &Expr) -> Standing
        requires { AreTablesOf model.now tables.now }
        ensures { result ≡ standing_below model.now part.now self }
    {
        Standing {
            levels: fewer(self.levels),
            at: type_of_arguments(model, tables, part, self.at),
            needs_truth: Some(takes_truths(part)),
        }
    }
}

fn fewer(levels: Option<u32>) -> Option<u32>
    ensures { result ≡ option_and_then levels_below levels }
{
    let levels = levels?;
    if levels == 0 { None } else { Some(levels - 1) }
}

/// The type at which the arguments of a form at a type stand: the port's target for `all` and
/// `any`, else the same.
pub(crate) fn type_of_arguments(
    model: &Model,
    tables: &Tables,
    form: &Expr,
    at: Option<u32>,
) -> Option<u32>
    requires { AreTablesOf model.now tables.now }
    ensures { result ≡ type_below model.now (out-Expr form.now) at }
{
    match form {
        Expr::All(p, _) | Expr::Any(p, _) => Some(tables.port_of(model, at?, *p)?.target),
        _ => at,
    }
}
