//! What numbers are at instances.
ghost use Rattle.std.specs.Prelude.{◌≡◌, map, IsTrue};
ghost use Rattle.prod_model.specs.Valid.{IsValid};
ghost use Rattle.prod_model.specs.ExprBounds.{sum_of};
ghost use Rattle.config_value.specs.Shaped.{is_shaped};
ghost use Rattle.config_value.specs.Value.{number_at as number_at_of};
ghost use Rattle.answer_check.specs.steps.Evaluable.{EachHasBounds};
ghost use Rattle.answer_check.specs.Faultless.{HasBoundsAt};

use crate::instances::{links_at, value_at_instance};
use crate::sums::{count_links, number_under, sum_links, sum_under};
use config_value::Configuration;
use prod_model::{Expr, Problem};

/// The number that an expression is at an instance under a type where it has bounds, and 0 where it
/// is a truth. Each part is computed once, and takes a pass over instances or links at most.
#[cycle(numbers)]
pub(crate) fn number_at(problem: &Problem, c: &Configuration, i: u32, e: &Expr) -> i64
    requires valid { IsValid problem.now }
    requires shaped { IsTrue (is_shaped problem.now c.now) }
    requires bounded { HasBoundsAt problem.now c.now i e.now }
    ensures { result ≡ number_at_of problem.now c.now i e.now }
{
    match e {
        Expr::Num(n) => *n,
        Expr::Attr(a) => value_at_instance(problem, c, *a, i),
        Expr::Count(p) => links_at(problem, c, *p, i).len() as i64,
        Expr::CountOf(p, t) => count_links(problem, c, links_at(problem, c, *p, i), *t),
        Expr::Sum(p, a) => sum_links(problem, c, links_at(problem, c, *p, i), *a) as i64,
        Expr::Total(kind, a) => sum_under(problem, c, *kind, *a) as i64,
        Expr::Number(kind) => number_under(problem, c, *kind),
        Expr::Add(args) => sum_of_all(problem, c, i, args.as_slice()) as i64,
        Expr::Sub(a, b) => number_at(problem, c, i, a.get()) - number_at(problem, c, i, b.get()),
        Expr::Times(k, a) => *k * number_at(problem, c, i, a.get()),
        _ => 0,
    }
}

/// The sum of all arguments. It is kept in 128 bits, which no slice of numbers of 64 bits can
/// leave.
#[cycle(numbers)]
fn sum_of_all(problem: &Problem, c: &Configuration, i: u32, args: &[Expr]) -> i128
    requires valid { IsValid problem.now }
    requires shaped { IsTrue (is_shaped problem.now c.now) }
    requires bounded { EachHasBounds problem.now c.now i args.now }
    ensures { result ≡ sum_of (map (number_at_of problem.now c.now i) args.now) }
{
    let mut sum = 0;
    for e in args {
        sum += i128::from(number_at(problem, c, i, e));
    }
    sum
}
