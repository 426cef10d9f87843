//! What expressions are at instances.
ghost use Rattle.std.specs.Prelude.{◌≡◌, ◌<◌, length, IsTrue};
ghost use Rattle.prod_model.specs.Valid.{IsValid};
ghost use Rattle.config_value.specs.Shaped.{is_shaped};
ghost use Rattle.config_value.specs.Value.{value_at as value_at_of, is_true_at};
ghost use Rattle.answer_check.specs.Faultless.{HasBoundsAt, IsFaultlessAt};

use crate::numbers::number_at;
use crate::truths::true_among;
use config_value::{Configuration, Found};
use expr_bounds::is_truth;
use instance_set::InstanceSet;
use prod_model::{Expr, Problem};

/// What an expression is at an instance, which is under a type where the expression has no fault.
/// Each part of the expression is gone over once, for all instances at which it is asked. There a
/// number takes a step for each instance or link that it counts, and a truth about linked instances
/// a step for each link.
pub fn value_at(problem: &Problem, c: &Configuration, i: u32, e: &Expr) -> Found
    requires shaped { IsTrue (is_shaped problem.now c.now) }
    requires instance { i < length c.now }
    requires faultless { IsFaultlessAt problem.now c.now i e.now }
    ensures { result ≡ value_at_of problem.now c.now i e.now }
{
    // Its contract tells that the model is valid.
    let _model = problem.model();
    if is_truth(e) {
        Found::Truth(truth_at(problem, c, i, e))
    } else {
        Found::Number(number_at(problem, c, i, e))
    }
}

/// Whether an expression is true at an instance under a type where it has bounds.
pub(crate) fn truth_at(problem: &Problem, c: &Configuration, i: u32, e: &Expr) -> bool
    requires valid { IsValid problem.now }
    requires shaped { IsTrue (is_shaped problem.now c.now) }
    requires bounded { HasBoundsAt problem.now c.now i e.now }
    ensures { result ≡ is_true_at problem.now c.now i e.now }
{
    let mut alone = InstanceSet::empty();
    alone.insert(i);
    true_among(problem, c, alone, e).contains(i)
}
