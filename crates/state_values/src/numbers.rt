//! Between which numbers a number lies in a state.
ghost use Rattle.std.specs.Prelude.{◌≡◌, ◌<◌, ◌≤◌, length, Some, IsTrue};
ghost use Rattle.prod_model.specs.declared.expr.Expr.TheViews.{out-Expr};
ghost use Rattle.prod_model.specs.Limits.{most_arguments};
ghost use Rattle.prod_model.specs.ExprBounds.{bounds_at, is_number};
ghost use Rattle.state_space.specs.State.{IsState, number_made};
ghost use Rattle.state_values.specs.Seen.{as_range, low, high};
ghost use Rattle.state_values.specs.Sights.{is_surely_under};
ghost use Rattle.state_values.specs.steps.Ends.{ends_of};
ghost use Rattle.state_values.specs.steps.Forms.{form_own, form_seen, own_sum, seen_sum};
ghost use Rattle.state_values.specs.steps.Parts.{Stands, IsNumber, AreNumbers};

use crate::interval::{Interval, exactly};
use crate::leaves::{instances_under, linked_values, links, links_under, value, values_under};
use crate::ranged::{Number, Ranged, make_ranged};
use crate::sums::Sum;
use partial_state::Partial;
use prod_model::{Bounds, Expr, Problem};

/// Between which numbers an expression lies that stands at a type, at a made instance of whose
/// possible types each is under that type. Each part of the expression is gone over once, and takes
/// a pass over the made instances at most. Each end is brought to the nearest number within the
/// bounds that its part has at the type.
pub fn number_at(problem: &Problem, p: &Partial, e: &Expr, kind: u32, i: u32) -> Interval
    requires state { IsState problem.now p.now }
    requires made { i < number_made p.now }
    requires under { IsTrue (is_surely_under problem.now p.now kind i) }
    requires number { IsTrue (is_number (bounds_at problem.now e.now kind)) }
    ensures low { result.low ≡ low problem.now p.now kind i e.now }
    ensures high { result.high ≡ high problem.now p.now kind i e.now }
{
    number_in(problem, p, kind, i, e).seen
}

/// A number's bounds at its type, and between which numbers it lies in the state.
#[cycle(numbers)]
pub(crate) fn number_in(problem: &Problem, p: &Partial, kind: u32, i: u32, e: &Expr) -> Number
    requires stands { Stands problem.now p.now kind i }
    requires number { IsNumber problem.now kind e.now }
    ensures own { bounds_at problem.now e.now kind
        ≡ Some (Bounds.Number result.own.low result.own.high) }
    ensures low { result.seen.low ≡ low problem.now p.now kind i e.now }
    ensures high { result.seen.high ≡ high problem.now p.now kind i e.now }
{
    // Its contract tells that the model is valid.
    let _model = problem.model();
    form_range(problem, p, kind, i, e).bounded()
}

/// What a form of number is from what its arguments are.
#[cycle(numbers)]
fn form_range(problem: &Problem, p: &Partial, kind: u32, i: u32, e: &Expr) -> Ranged
    requires stands { Stands problem.now p.now kind i }
    requires number { IsNumber problem.now kind e.now }
    ensures own { result.own ≡ form_own problem.now kind (out-Expr e.now) }
    ensures seen { result.seen
        ≡ ends_of (as_range (form_seen problem.now p.now kind i (out-Expr e.now))) }
{
    // Its contract tells that the model is valid.
    let _model = problem.model();
    match e {
        Expr::Num(n) => make_ranged(exactly(*n), exactly(*n)),
        Expr::Attr(a) => value(problem, p, kind, i, *a),
        Expr::Count(port) => links(problem, p, kind, i, *port),
        Expr::CountOf(port, of) => links_under(problem, p, kind, i, *port, *of),
        Expr::Sum(port, a) => linked_values(problem, p, kind, i, *port, *a),
        Expr::Total(of, a) => values_under(problem, p, kind, i, *of, *a),
        Expr::Number(of) => instances_under(problem, p, kind, i, *of),
        Expr::Add(args) => sum_of_all(problem, p, kind, i, args.as_slice()),
        Expr::Sub(a, b) => {
            number_in(problem, p, kind, i, a.get()).minus(number_in(problem, p, kind, i, b.get()))
        }
        Expr::Times(factor, a) => number_in(problem, p, kind, i, a.get()).times(*factor),
        _ => make_ranged(exactly(0), exactly(0)),
    }
}

/// The sum of all arguments.
#[cycle(numbers)]
fn sum_of_all(problem: &Problem, p: &Partial, kind: u32, i: u32, args: &[Expr]) -> Ranged
    requires stands { Stands problem.now p.now kind i }
    requires numbers { AreNumbers problem.now kind args.now }
    requires few { length args.now ≤ most_arguments }
    ensures own { result.own ≡ own_sum problem.now kind args.now }
    ensures seen { result.seen ≡ seen_sum problem.now p.now kind i args.now }
{
    let mut own = Sum::new();
    let mut seen = Sum::new();
    for e in args {
        let number = number_in(problem, p, kind, i, e);
        own = own.plus(number.own);
        seen = seen.plus(number.seen);
    }
    make_ranged(own.ends(), seen.ends())
}
