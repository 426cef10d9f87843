//! The order of configurations by criteria and then by key, worked out by hand.
ghost use Rattle.std.specs.Prelude.{IsTrue};
ghost use Rattle.prod_model.specs.Valid.{IsValidOrder};
ghost use Rattle.config_value.specs.Shaped.{is_shaped};

use crate::models::RACKS;
use crate::satisfying::{order_of, problem_of, satisfying};
use config_value::Configuration;
use criteria_order::rank_cmp;
use prod_model::{Order, Problem};
use std::alloc::Global;
use std::cmp::Ordering;
use std::process::Abort;
use std::test::Fail;

/// It costs 50.
const EMPTY: &str = "preferred\n0 Rack price=50 cards:\n";

/// It costs 60, and has a power of 5.
const SMALL: &str = "preferred\n0 Rack price=50 cards:1\n1 Small price=10 power=5\n";

/// It costs 68, and has a power of 12.
const BIG: &str = "preferred\n0 Rack price=50 cards:1\n1 Big price=18 power=12\n";

/// It costs 78, and has a power of 17.
const BOTH: &str =
    "preferred\n0 Rack price=50 cards:1,2\n1 Small price=10 power=5\n2 Big price=18 power=12\n";

/// The same cards in the other order.
const REVERSED: &str =
    "preferred\n0 Rack price=50 cards:1,2\n1 Big price=18 power=12\n2 Small price=10 power=5\n";

const NO_CRITERIA: &str = "{\"format\":\"order 1\"}";

const CHEAPEST: &str = "{\"format\":\"order 1\",\"criteria\":[\
    {\"name\":\"cost\",\"minimise\":[\"total\",\"Item\",\"price\"]}]}";

const STRONGEST: &str = "{\"format\":\"order 1\",\"criteria\":[\
    {\"name\":\"power\",\"maximise\":[\"sum\",\"cards\",\"power\"]}]}";

const CHEAPEST_THEN_STRONGEST: &str = "{\"format\":\"order 1\",\"criteria\":[\
    {\"name\":\"cost\",\"minimise\":[\"total\",\"Item\",\"price\"]},\
    {\"name\":\"power\",\"maximise\":[\"sum\",\"cards\",\"power\"]}]}";

const STRONGEST_THEN_CHEAPEST: &str = "{\"format\":\"order 1\",\"criteria\":[\
    {\"name\":\"power\",\"maximise\":[\"sum\",\"cards\",\"power\"]},\
    {\"name\":\"cost\",\"minimise\":[\"total\",\"Item\",\"price\"]}]}";

const FEWEST_THEN_STRONGEST: &str = "{\"format\":\"order 1\",\"criteria\":[\
    {\"name\":\"cards\",\"minimise\":[\"number\",\"Card\"]},\
    {\"name\":\"power\",\"maximise\":[\"sum\",\"cards\",\"power\"]}]}";

/// An order, two answers, and how the first one ranks.
type Row = (&'static str, &'static str, &'static str, Ordering);

const ROWS: [Row; 14] = [
    (NO_CRITERIA, EMPTY, SMALL, Ordering::Less),
    (NO_CRITERIA, SMALL, BIG, Ordering::Less),
    (NO_CRITERIA, BOTH, REVERSED, Ordering::Less),
    (NO_CRITERIA, BIG, BIG, Ordering::Equal),
    (NO_CRITERIA, BOTH, BIG, Ordering::Greater),
    (CHEAPEST, SMALL, BIG, Ordering::Less),
    (CHEAPEST, BOTH, SMALL, Ordering::Greater),
    (STRONGEST, SMALL, BIG, Ordering::Greater),
    (STRONGEST, BOTH, SMALL, Ordering::Less),
    (STRONGEST, REVERSED, BOTH, Ordering::Greater),
    (CHEAPEST_THEN_STRONGEST, BIG, BOTH, Ordering::Less),
    (STRONGEST_THEN_CHEAPEST, BIG, BOTH, Ordering::Greater),
    (FEWEST_THEN_STRONGEST, SMALL, BIG, Ordering::Greater),
    (FEWEST_THEN_STRONGEST, EMPTY, BOTH, Ordering::Less),
];

/// How the first answer ranks beside the second.
fn rank_of(
    alloc: Global,
    problem: &Problem,
    order: &Order,
    first: &Configuration,
    second: &str,
) -> Result<Ordering, Fail>
    requires order { IsValidOrder problem.now order.now }
    requires shaped { IsTrue (is_shaped problem.now first.now) }
{
    let second = satisfying(alloc, problem, second)?;
    Ok(rank_cmp(problem, order, first, &second))
}

fn rank_by(alloc: Global, problem: &Problem, order: &Order, row: &Row) -> Result<Ordering, Fail>
    requires { IsValidOrder problem.now order.now }
{
    let first = satisfying(alloc, problem, row.1)?;
    let told = rank_of(alloc, problem, order, &first, row.2);
    drop(first);
    told
}

fn rank(alloc: Global, problem: &Problem, row: &Row) -> Result<Ordering, Fail> {
    let order = order_of(alloc, problem, row.0)?;
    let told = rank_by(alloc, problem, &order, row);
    drop(order);
    told
}

fn check_ranks(rt: &impl Abort, alloc: Global, problem: &Problem) -> Result<(), Fail> {
    for row in &ROWS {
        let told = rank(alloc, problem, row)?;
        assert_eq!(rt; told, row.3, "{row:?}");
    }
    Ok(())
}

#[test]
fn ranks_by_criteria_and_then_by_key(rt: HostRuntime) -> Result<(), Fail> {
    let problem = problem_of(rt.alloc(), RACKS)?;
    let checked = check_ranks(&rt, rt.alloc(), &problem);
    drop(problem);
    checked
}
