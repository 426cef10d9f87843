//! Solvers alone, for a model of one configuration.
ghost use Rattle.std.specs.Prelude.{◌≡◌, [], IfOk, IsTrue};
ghost use Rattle.prod_model.specs.Valid.{IsValidOrder};
ghost use Rattle.config_value.specs.Shaped.{is_shaped};

use crate::idle::Idle;
use config_value::Configuration;
use criteria_order::Solver;
use prod_model::{Order, Problem};
use seq_search::Alone;
use std::alloc::Global;
use std::process::Abort;
use std::test::Fail;
use worked_models::satisfying::{order_of, problem_of, satisfying};
use worked_racks::racks::NO_REQUESTS;

/// A box without attributes.
const ONE_BOX: &str = "{\"format\":\"product-model 1\",\"root\":\"Box\",\"instances\":1,\
    \"types\":[{\"name\":\"Box\"}]}";

/// The only box.
const ONLY: &str = "preferred\n0 Box\n";

/// It is to be a box.
const BOX: &str = "{\"format\":\"order 1\",\"requests\":[\
    {\"name\":\"kind\",\"holds\":[\"kind\",\"Box\"]}]}";

/// It is to be none.
const NO_BOX: &str = "{\"format\":\"order 1\",\"requests\":[\
    {\"name\":\"kind\",\"holds\":[\"not\",[\"kind\",\"Box\"]]}]}";

/// A solver for an order without requests.
fn solver_of(alloc: Global, problem: &Problem, order: &Order) -> Result<Alone<Idle>, Fail>
    requires { IsValidOrder problem.now order.now }
    ensures model { IfOk result (λ s. s.model ≡ problem.now) }
    ensures none_asked { IfOk result (λ s. s.order.requests ≡ []) }
{
    if !order.requests.as_slice().is_empty() {
        return Err(Fail::from("there are requests"));
    }
    Ok(Alone::new(alloc, problem, order)?)
}

/// A solver for the order that asks nothing.
fn solver_for(alloc: Global, problem: &Problem) -> Result<Alone<Idle>, Fail>
    ensures model { IfOk result (λ s. s.model ≡ problem.now) }
    ensures none_asked { IfOk result (λ s. s.order.requests ≡ []) }
{
    let order = order_of(alloc, problem, NO_REQUESTS)?;
    let solver = solver_of(alloc, problem, &order);
    drop(order);
    solver
}

/// The given configuration is the best, and none comes after it.
fn check_only(rt: &impl Abort, solver: &mut Alone<Idle>, only: &Configuration) -> Result<(), Fail>
    requires none_asked { solver.old.order.requests ≡ [] }
    requires shaped { IsTrue (is_shaped solver.old.model only.now) }
{
    assert!(rt; solver.best(&[], Some(only), &[])?.is_none());
    match solver.best(&[], None, &[])? {
        Some(best) => assert!(rt; best.same(only)),
        None => return Err(Fail::from("there is none")),
    }
    Ok(())
}

fn check_best(
    rt: &impl Abort,
    alloc: Global,
    solver: &mut Alone<Idle>,
    problem: &Problem,
) -> Result<(), Fail>
    requires none_asked { solver.old.order.requests ≡ [] }
    requires model { solver.old.model ≡ problem.now }
{
    let only = satisfying(alloc, problem, ONLY)?;
    let checked = check_only(rt, solver, &only);
    drop(only);
    checked
}

fn check_best_of(rt: &impl Abort, alloc: Global, problem: &Problem) -> Result<(), Fail> {
    let mut solver = solver_for(alloc, problem)?;
    let checked = check_best(rt, alloc, &mut solver, problem);
    drop(solver);
    checked
}

#[test]
fn finds_nothing_after_the_only_box(rt: HostRuntime) -> Result<(), Fail> {
    let problem = problem_of(rt.alloc(), ONE_BOX)?;
    let checked = check_best_of(&rt, rt.alloc(), &problem);
    drop(problem);
    checked
}

/// Whether some configuration meets the first request of an order, as an extra.
fn exists(alloc: Global, solver: &mut Alone<Idle>, order: &Order) -> Result<bool, Fail>
    requires none_asked { solver.old.order.requests ≡ [] }
    requires valid { IsValidOrder solver.old.model order.now }
    ensures model { solver.new.model ≡ solver.old.model }
    ensures order { solver.new.order ≡ solver.old.order }
{
    match order.requests.as_slice().split_first() {
        Some((first, _)) => Ok(solver.exists(&[], &[first.holds.copy(alloc)?])?),
        None => Err(Fail::from("there is no request")),
    }
}

/// An order of one request, and whether some configuration meets it.
const EXTRAS: [(&str, bool); 2] = [(BOX, true), (NO_BOX, false)];

fn check_extras(
    rt: &impl Abort,
    alloc: Global,
    solver: &mut Alone<Idle>,
    problem: &Problem,
) -> Result<(), Fail>
    requires none_asked { solver.old.order.requests ≡ [] }
    requires model { solver.old.model ≡ problem.now }
{
    for (text, want) in &EXTRAS {
        let order = order_of(alloc, problem, text)?;
        let some = exists(alloc, solver, &order);
        drop(order);
        assert_eq!(rt; some?, *want, "{text}");
    }
    Ok(())
}

fn check_extras_of(rt: &impl Abort, alloc: Global, problem: &Problem) -> Result<(), Fail> {
    let mut solver = solver_for(alloc, problem)?;
    let checked = check_extras(rt, alloc, &mut solver, problem);
    drop(solver);
    checked
}

#[test]
fn tells_whether_some_box_exists(rt: HostRuntime) -> Result<(), Fail> {
    let problem = problem_of(rt.alloc(), ONE_BOX)?;
    let checked = check_extras_of(&rt, rt.alloc(), &problem);
    drop(problem);
    checked
}
