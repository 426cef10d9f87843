//! What expressions are at the root product, worked out by hand: each form of a number, as the
//! value of a criterion, and each form of a truth both ways, as a request.
ghost use Rattle.std.specs.Prelude.{IsTrue};
ghost use Rattle.prod_model.specs.Valid.{IsValidOrder};
ghost use Rattle.config_value.specs.Shaped.{is_shaped};

use crate::models::{BUSES, RACKS};
use crate::satisfying::{order_of, problem_of, satisfying};
use answer_check::meets;
use config_value::Configuration;
use criteria_order::criteria_values;
use prod_model::{Order, Problem};
use std::alloc::Global;
use std::process::Abort;
use std::test::Fail;

const RACK: &str =
    "preferred\n0 Rack price=50 cards:1,2\n1 Small price=10 power=5\n2 Big price=18 power=12\n";

const RACK_OF_BUSES: &str =
    "preferred\n0 Rack cards:1,2 spare:\n1 Small power=3 bus=sata\n2 Big power=4 bus=sas\n";

/// The value of the one criterion of an order.
fn only_value(problem: &Problem, order: &Order, c: &Configuration) -> Result<i64, Fail>
    requires order { IsValidOrder problem.now order.now }
    requires shaped { IsTrue (is_shaped problem.now c.now) }
{
    if order.criteria.len() != 1 {
        return Err(Fail::from("not one criterion"));
    }
    let mut values = [0; 1];
    criteria_values(problem, order, c, &mut values);
    Ok(values[0])
}

/// The value that the criterion of an order file has.
fn value_in(alloc: Global, problem: &Problem, c: &Configuration, text: &str) -> Result<i64, Fail>
    requires { IsTrue (is_shaped problem.now c.now) }
{
    let order = order_of(alloc, problem, text)?;
    let value = only_value(problem, &order, c);
    drop(order);
    value
}

/// The value of an expression, as the one criterion of an order.
fn value(
    alloc: Global,
    problem: &Problem,
    c: &Configuration,
    goal: &str,
    e: &str,
) -> Result<i64, Fail>
    requires { IsTrue (is_shaped problem.now c.now) }
{
    let text = format!(in alloc;
        "{{\"format\":\"order 1\",\"criteria\":[{{\"name\":\"n\",\"{goal}\":{e}}}]}}"
    )?;
    value_in(alloc, problem, c, &text)
}

/// How a criterion goes, its expression, and its value.
type Number = (&'static str, &'static str, i64);

/// The values of maximised criteria are told as they are.
const NUMBERS: [Number; 11] = [
    ("minimise", "-7", -7),
    ("maximise", "-7", -7),
    ("minimise", "[\"attr\",\"price\"]", 50),
    ("maximise", "[\"count\",\"cards\"]", 2),
    ("minimise", "[\"count\",\"cards\",\"Big\"]", 1),
    ("maximise", "[\"sum\",\"cards\",\"power\"]", 17),
    ("minimise", "[\"total\",\"Item\",\"price\"]", 78),
    ("maximise", "[\"number\",\"Card\"]", 2),
    ("minimise", "[\"+\",3,[\"attr\",\"price\"]]", 53),
    ("maximise", "[\"-\",[\"attr\",\"price\"],7]", 43),
    ("minimise", "[\"*\",-3,[\"number\",\"Small\"]]", -3),
];

fn check_each_number(
    rt: &impl Abort,
    alloc: Global,
    problem: &Problem,
    c: &Configuration,
) -> Result<(), Fail>
    requires shaped { IsTrue (is_shaped problem.now c.now) }
{
    for (goal, e, want) in &NUMBERS {
        let told = value(alloc, problem, c, goal, e)?;
        assert_eq!(rt; told, *want, "{goal} {e}");
    }
    Ok(())
}

fn check_numbers(rt: &impl Abort, alloc: Global, problem: &Problem) -> Result<(), Fail> {
    let c = satisfying(alloc, problem, RACK)?;
    let checked = check_each_number(rt, alloc, problem, &c);
    drop(c);
    checked
}

#[test]
fn tells_numbers(rt: HostRuntime) -> Result<(), Fail> {
    let problem = problem_of(rt.alloc(), RACKS)?;
    let checked = check_numbers(&rt, rt.alloc(), &problem);
    drop(problem);
    checked
}

/// Whether the configuration meets the one request of an order.
fn meets_only(problem: &Problem, order: &Order, c: &Configuration) -> Result<bool, Fail>
    requires order { IsValidOrder problem.now order.now }
    requires shaped { IsTrue (is_shaped problem.now c.now) }
{
    if order.requests.len() != 1 {
        return Err(Fail::from("not one request"));
    }
    Ok(meets(problem, order, 0, c))
}

/// Whether it meets that of an order file.
fn meets_in(alloc: Global, problem: &Problem, c: &Configuration, text: &str) -> Result<bool, Fail>
    requires { IsTrue (is_shaped problem.now c.now) }
{
    let order = order_of(alloc, problem, text)?;
    let met = meets_only(problem, &order, c);
    drop(order);
    met
}

/// Whether a truth holds, as the one request of an order.
fn is_met(alloc: Global, problem: &Problem, c: &Configuration, e: &str) -> Result<bool, Fail>
    requires { IsTrue (is_shaped problem.now c.now) }
{
    let text = format!(in alloc;
        "{{\"format\":\"order 1\",\"requests\":[{{\"name\":\"wish\",\"holds\":{e}}}]}}"
    )?;
    meets_in(alloc, problem, c, &text)
}

/// A truth, and whether it holds.
type Truth = (&'static str, bool);

fn check_each_truth(
    rt: &impl Abort,
    alloc: Global,
    problem: &Problem,
    c: &Configuration,
    rows: &[Truth],
) -> Result<(), Fail>
    requires shaped { IsTrue (is_shaped problem.now c.now) }
{
    for (e, want) in rows {
        let told = is_met(alloc, problem, c, e)?;
        assert_eq!(rt; told, *want, "{e}");
    }
    Ok(())
}

fn check_truths_of(
    rt: &impl Abort,
    alloc: Global,
    problem: &Problem,
    rows: &[Truth],
) -> Result<(), Fail> {
    let c = satisfying(alloc, problem, RACK_OF_BUSES)?;
    let checked = check_each_truth(rt, alloc, problem, &c, rows);
    drop(c);
    checked
}

fn check_truths(rt: &impl Abort, alloc: Global, rows: &[Truth]) -> Result<(), Fail> {
    let problem = problem_of(alloc, BUSES)?;
    let checked = check_truths_of(rt, alloc, &problem, rows);
    drop(problem);
    checked
}

/// The powers of the cards sum up to 7.
const RELATIONS: [Truth; 12] = [
    ("[\"<\",[\"sum\",\"cards\",\"power\"],8]", true),
    ("[\"<\",[\"sum\",\"cards\",\"power\"],7]", false),
    ("[\"<=\",[\"sum\",\"cards\",\"power\"],7]", true),
    ("[\"<=\",[\"sum\",\"cards\",\"power\"],6]", false),
    ("[\"=\",[\"sum\",\"cards\",\"power\"],7]", true),
    ("[\"=\",[\"sum\",\"cards\",\"power\"],6]", false),
    ("[\"!=\",[\"sum\",\"cards\",\"power\"],6]", true),
    ("[\"!=\",[\"sum\",\"cards\",\"power\"],7]", false),
    ("[\">=\",[\"sum\",\"cards\",\"power\"],7]", true),
    ("[\">=\",[\"sum\",\"cards\",\"power\"],8]", false),
    ("[\">\",[\"sum\",\"cards\",\"power\"],6]", true),
    ("[\">\",[\"sum\",\"cards\",\"power\"],7]", false),
];

#[test]
fn compares_numbers(rt: HostRuntime) -> Result<(), Fail> {
    check_truths(&rt, rt.alloc(), &RELATIONS)
}

/// The root product is a rack, and no card.
const JOINS: [Truth; 14] = [
    ("[\"and\",[\"kind\",\"Rack\"],[\"kind\",\"Rack\"]]", true),
    ("[\"and\",[\"kind\",\"Rack\"],[\"kind\",\"Card\"]]", false),
    ("[\"and\",[\"kind\",\"Card\"],[\"kind\",\"Rack\"]]", false),
    ("[\"and\",[\"kind\",\"Card\"],[\"kind\",\"Card\"]]", false),
    ("[\"or\",[\"kind\",\"Rack\"],[\"kind\",\"Rack\"]]", true),
    ("[\"or\",[\"kind\",\"Rack\"],[\"kind\",\"Card\"]]", true),
    ("[\"or\",[\"kind\",\"Card\"],[\"kind\",\"Rack\"]]", true),
    ("[\"or\",[\"kind\",\"Card\"],[\"kind\",\"Card\"]]", false),
    ("[\"if\",[\"kind\",\"Rack\"],[\"kind\",\"Rack\"]]", true),
    ("[\"if\",[\"kind\",\"Rack\"],[\"kind\",\"Card\"]]", false),
    ("[\"if\",[\"kind\",\"Card\"],[\"kind\",\"Rack\"]]", true),
    ("[\"if\",[\"kind\",\"Card\"],[\"kind\",\"Card\"]]", true),
    ("[\"not\",[\"kind\",\"Rack\"]]", false),
    ("[\"not\",[\"kind\",\"Card\"]]", true),
];

#[test]
fn joins_truths(rt: HostRuntime) -> Result<(), Fail> {
    check_truths(&rt, rt.alloc(), &JOINS)
}

/// The small card has a power of 3 and the bus `sata`, the big one 4 and `sas`. There are no spare
/// cards.
const TRUTHS: [Truth; 16] = [
    ("[\"kind\",\"Item\"]", true),
    ("[\"kind\",\"Rack\"]", true),
    ("[\"kind\",\"Card\"]", false),
    ("[\"all\",\"cards\",[\"kind\",\"Card\"]]", true),
    ("[\"all\",\"cards\",[\"kind\",\"Big\"]]", false),
    ("[\"any\",\"cards\",[\"kind\",\"Big\"]]", true),
    ("[\"any\",\"cards\",[\"kind\",\"Rack\"]]", false),
    ("[\"any\",\"cards\",[\"=\",[\"attr\",\"power\"],4]]", true),
    ("[\"any\",\"cards\",[\"=\",[\"attr\",\"power\"],9]]", false),
    ("[\"any\",\"cards\",[\"is\",\"bus\",\"sata\"]]", true),
    ("[\"all\",\"cards\",[\"is\",\"bus\",\"sata\"]]", false),
    (
        "[\"any\",\"cards\",[\"and\",[\"kind\",\"Big\"],[\"is\",\"bus\",\"sas\"]]]",
        true,
    ),
    (
        "[\"any\",\"cards\",[\"and\",[\"kind\",\"Small\"],[\"is\",\"bus\",\"sas\"]]]",
        false,
    ),
    (
        "[\"all\",\"cards\",[\"or\",[\"kind\",\"Big\"],[\"is\",\"bus\",\"sata\"]]]",
        true,
    ),
    ("[\"all\",\"spare\",[\"kind\",\"Rack\"]]", true),
    ("[\"any\",\"spare\",[\"kind\",\"Card\"]]", false),
];

#[test]
fn tells_truths(rt: HostRuntime) -> Result<(), Fail> {
    check_truths(&rt, rt.alloc(), &TRUTHS)
}
