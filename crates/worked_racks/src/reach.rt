//! Orders whose first request is out of reach.
ghost use Rattle.std.specs.Prelude.{◌≡◌, Some, IsTrue, IfSome};
ghost use Rattle.prod_model.specs.ExprBounds.{bounds_at};
ghost use Rattle.worked_racks.specs.Unmet.{FirstIsUnmet};
ghost use Rattle.worked_racks.specs.steps.Beyond.{IsAtMost, IsAtLeast, IsBelow, IsNever};

use expr_bounds::{bounds_of, is_formed};
use prod_model::{Bounds, Expr, Order, Problem, Relation};
use std::alloc::Global;

/// Whether the first request of an order asks a number of the root product to be at least another
/// one, beyond all that it can be.
pub fn is_out_of_reach(alloc: Global, problem: &Problem, order: &Order) -> bool
    ensures { IsTrue result → FirstIsUnmet problem.now order.now }
{
    match order.requests.as_slice().split_first() {
        Some((first, _)) => is_too_much(alloc, problem, &first.holds),
        None => false,
    }
}

/// Whether a truth asks a number to be at least another one, beyond all that it can be.
fn is_too_much(alloc: Global, problem: &Problem, holds: &Expr) -> bool
    ensures { IsTrue result → IsNever problem.now holds.now }
{
    match holds {
        Expr::Cmp(Relation::AtLeast, e, n) => {
            is_below(
                greatest(alloc, problem, e.get()),
                least(alloc, problem, n.get()),
            )
        }
        _ => false,
    }
}

/// Whether both are known, and the first is less.
fn is_below(a: Option<i64>, b: Option<i64>) -> bool
    ensures { IsTrue result → IsBelow a b }
{
    match (a, b) {
        (Some(a), Some(b)) => a < b,
        _ => false,
    }
}

/// The greatest number that an expression can be at the root product, as far as its bounds tell.
fn greatest(alloc: Global, problem: &Problem, e: &Expr) -> Option<i64>
    ensures { IfSome result (IsAtMost problem.now e.now) }
{
    let _model = problem.model();
    match root_bounds(alloc, problem, e)? {
        Bounds::Number { low: _, high } => Some(high),
        Bounds::Truth => None,
    }
}

/// The least one.
fn least(alloc: Global, problem: &Problem, e: &Expr) -> Option<i64>
    ensures { IfSome result (IsAtLeast problem.now e.now) }
{
    let _model = problem.model();
    match root_bounds(alloc, problem, e)? {
        Bounds::Number { low, high: _ } => Some(low),
        Bounds::Truth => None,
    }
}

/// The bounds of an expression at the root type, where it has no fault.
fn root_bounds(alloc: Global, problem: &Problem, e: &Expr) -> Option<Bounds>
    ensures { IfSome result (λ b. bounds_at problem.now e.now problem.now.root ≡ Some b) }
{
    if !is_formed(e) {
        return None;
    }
    let model = problem.model();
    bounds_of(alloc, model, problem.tables(), e, model.root).ok()
}

#[cfg(test)]
mod tests {
    use super::*;
    use crate::racks::{STRONG, TOO_STRONG};
    use std::process::Abort;
    use std::test::Fail;
    use worked_models::models::RACKS;
    use worked_models::satisfying::{order_of, problem_of};

    /// The least sum of the cards' power, and whether no rack reaches it: four cards have 20 each.
    type Reach = (&'static str, bool);

    const REACH: [Reach; 2] = [(TOO_STRONG, true), (STRONG, false)];

    fn check_reach(rt: &impl Abort, alloc: Global, problem: &Problem) -> Result<(), Fail> {
        for (text, want) in &REACH {
            let order = order_of(alloc, problem, text)?;
            assert_eq!(rt; is_out_of_reach(alloc, problem, &order), *want, "{text}");
        }
        Ok(())
    }

    #[test]
    fn tells_what_no_rack_reaches(rt: HostRuntime) -> Result<(), Fail> {
        let problem = problem_of(rt.alloc(), RACKS)?;
        check_reach(&rt, rt.alloc(), &problem)
    }
}
