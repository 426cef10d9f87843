//! Where truths hold: of a set of instances, those at which an expression is true. A truth about
//! linked instances asks for its part at all of them together, so that no instance is asked twice
//! for one part.
ghost use Rattle.std.specs.Prelude.{◌≡◌, ℕ, ◌&&◌, not, IsTrue};
ghost use Rattle.std.specs.List.{list_all, list_any};
ghost use Rattle.instance_set.specs.InstanceSets.{is_member};
ghost use Rattle.prod_model.specs.declared.expr.Expr.TheViews.{out-Expr};
ghost use Rattle.prod_model.specs.Valid.{IsValid};
ghost use Rattle.config_value.specs.Shaped.{is_shaped};
ghost use Rattle.config_value.specs.Value.{is_true_at};
ghost use Rattle.answer_check.specs.steps.Evaluable.{simple_truth};
ghost use Rattle.answer_check.specs.Faultless.{HasBoundsAt};
ghost use Rattle.answer_check.specs.steps.InstanceSets.{HasBoundsAmong, EachHasBoundsAmong, AreTrueAmong};

use crate::instances::{is_instance_under, value_at_instance};
use crate::linked::{linked_from, linking_only};
use crate::numbers::number_at;
use config_value::{Configuration, holds};
use instance_set::InstanceSet;
use prod_model::{Expr, Problem};

/// Of a set of instances under types where an expression has bounds, those at which it is true;
/// none where it is a number. Each part of the expression is gone over once. A truth about linked
/// instances takes a step for each link.
#[cycle(truths)]
pub(crate) fn true_among(
    problem: &Problem,
    c: &Configuration,
    among: InstanceSet,
    e: &Expr,
) -> InstanceSet
    requires valid { IsValid problem.now }
    requires shaped { IsTrue (is_shaped problem.now c.now) }
    requires bounded { HasBoundsAmong problem.now c.now among e.now }
    ensures { AreTrueAmong problem.now c.now among e.now result }
{
    match e {
        Expr::And(args) => all_among(problem, c, among, args.as_slice()),
        Expr::Or(args) => among.difference(none_among(problem, c, among, args.as_slice())),
        Expr::Not(a) => among.difference(true_among(problem, c, among, a.get())),
        Expr::If(a, b) => {
            let premise = true_among(problem, c, among, a.get());
            let both = true_among(problem, c, premise, b.get());
            among.difference(premise).union(both)
        }
        Expr::All(p, a) => {
            let linked = linked_from(problem, c, *p, among);
            let found = true_among(problem, c, linked, a.get());
            linking_only(problem, c, *p, among, found)
        }
        Expr::Any(p, a) => {
            let linked = linked_from(problem, c, *p, among);
            let others = linked.difference(true_among(problem, c, linked, a.get()));
            among.difference(linking_only(problem, c, *p, among, others))
        }
        _ => simple_among(problem, c, among, e),
    }
}

/// Of a set of instances, those at which all arguments are true.
#[cycle(truths)]
fn all_among(problem: &Problem, c: &Configuration, among: InstanceSet, args: &[Expr]) -> InstanceSet
    requires valid { IsValid problem.now }
    requires shaped { IsTrue (is_shaped problem.now c.now) }
    requires bounded { EachHasBoundsAmong problem.now c.now among args.now }
    ensures { (i : ℕ)
        → is_member result i
        ≡ (is_member among i && list_all (is_true_at problem.now c.now i) args.now) }
{
    let mut left = among;
    for e in args {
        left = true_among(problem, c, left, e);
    }
    left
}

/// Of a set of instances, those at which no argument is true.
#[cycle(truths)]
fn none_among(
    problem: &Problem,
    c: &Configuration,
    among: InstanceSet,
    args: &[Expr],
) -> InstanceSet
    requires valid { IsValid problem.now }
    requires shaped { IsTrue (is_shaped problem.now c.now) }
    requires bounded { EachHasBoundsAmong problem.now c.now among args.now }
    ensures { (i : ℕ)
        → is_member result i
        ≡ (is_member among i && not (list_any (is_true_at problem.now c.now i) args.now)) }
{
    let mut left = among;
    for e in args {
        left = left.difference(true_among(problem, c, left, e));
    }
    left
}

/// Of a set of instances, those at which a truth without truths in it holds.
fn simple_among(problem: &Problem, c: &Configuration, among: InstanceSet, e: &Expr) -> InstanceSet
    requires valid { IsValid problem.now }
    requires shaped { IsTrue (is_shaped problem.now c.now) }
    requires bounded { HasBoundsAmong problem.now c.now among e.now }
    ensures { (i : ℕ)
        → is_member result i
        ≡ (is_member among i && simple_truth problem.now c.now i (out-Expr e.now)) }
{
    let mut found = InstanceSet::empty();
    let mut from = 0;
    while let Some(i) = among.least_from(from) {
        if is_simply_true(problem, c, i, e) {
            found.insert(i);
        }
        from = i + 1;
    }
    found
}

/// Whether a truth without truths in it holds at an instance.
fn is_simply_true(problem: &Problem, c: &Configuration, i: u32, e: &Expr) -> bool
    requires valid { IsValid problem.now }
    requires shaped { IsTrue (is_shaped problem.now c.now) }
    requires bounded { HasBoundsAt problem.now c.now i e.now }
    ensures { result ≡ simple_truth problem.now c.now i (out-Expr e.now) }
{
    match e {
        Expr::Cmp(r, a, b) => holds(
            *r,
            number_at(problem, c, i, a.get()),
            number_at(problem, c, i, b.get()),
        ),
        Expr::Is(a, word) => value_at_instance(problem, c, *a, i) == i64::from(*word),
        Expr::Kind(kind) => is_instance_under(problem, c, *kind, i),
        _ => false,
    }
}
