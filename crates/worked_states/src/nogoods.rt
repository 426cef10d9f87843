//! What nogoods exclude, and where they apply, worked out by hand.
ghost use Rattle.std.specs.Prelude.{◌≡◌, ℕ, length, IsTrue};
ghost use Rattle.base_laws.specs.Places.{IsAt};
ghost use Rattle.prod_model.specs.declared.model.Request.{Request};
ghost use Rattle.prod_model.specs.Valid.{IsValidOrder};
ghost use Rattle.config_value.specs.Satisfies.{meets as meets_of};
ghost use Rattle.config_value.specs.Shaped.{is_shaped};
ghost use Rattle.literal_book.specs.Nogoods.{asks_for};

use answer_check::meets;
use config_value::{Configuration, Literal};
use literal_book::{Literals, Nogood, excludes, within};
use prod_model::{Order, Problem};
use std::alloc::{AllocError, Global};
use std::process::Abort;
use std::test::Fail;
use worked_models::models::BUSES;
use worked_models::satisfying::{order_of, problem_of, satisfying};

const RACK: &str =
    "preferred\n0 Rack cards:1,2 spare:\n1 Small power=3 bus=sata\n2 Big power=4 bus=sas\n";

/// The rack has two cards.
const MET: &str = "{\"format\":\"order 1\",\"requests\":[\
    {\"name\":\"pair\",\"holds\":[\"=\",[\"count\",\"cards\"],2]}]}";

/// It has no third one.
const UNMET: &str = "{\"format\":\"order 1\",\"requests\":[\
    {\"name\":\"more\",\"holds\":[\">\",[\"count\",\"cards\"],2]}]}";

const SECOND_CARD: Literal = Literal::Made { instance: 2 };

const THIRD_CARD: Literal = Literal::Made { instance: 3 };

/// The one request of an order, as a mask of those that a configuration meets.
fn met_of(problem: &Problem, order: &Order, c: &Configuration) -> u64
    requires order { IsValidOrder problem.now order.now }
    requires shaped { IsTrue (is_shaped problem.now c.now) }
    requires one { length order.now.requests ≡ 1 }
    ensures { (k : ℕ) (r : Request) → IsAt order.now.requests k r
        → asks_for result k ≡ meets_of problem.now c.now r }
{
    if meets(problem, order, 0, c) { 1 } else { 0 }
}

fn nogood_of(alloc: Global, requests: u64, literals: &[Literal]) -> Result<Nogood, AllocError> {
    Ok(Nogood {
        requests,
        literals: Literals::from_slice(alloc, literals)?,
    })
}

/// An order of one request, the requests and literals of a nogood, and whether it excludes the
/// rack. Requests that the order lacks are passed over.
type Excluding = (&'static str, u64, &'static [Literal], bool);

const EXCLUDING: [Excluding; 8] = [
    (MET, 1, &[], true),
    (UNMET, 1, &[], false),
    (UNMET, 0, &[], true),
    (UNMET, 2, &[], true),
    (UNMET, 3, &[], false),
    (MET, 1, &[SECOND_CARD], true),
    (MET, 1, &[THIRD_CARD], false),
    (MET, 0, &[SECOND_CARD, THIRD_CARD], false),
];

fn excludes_by(
    alloc: Global,
    problem: &Problem,
    order: &Order,
    c: &Configuration,
    row: &Excluding,
) -> Result<bool, Fail>
    requires order { IsValidOrder problem.now order.now }
    requires shaped { IsTrue (is_shaped problem.now c.now) }
{
    if order.requests.len() != 1 {
        return Err(Fail::from("not one request"));
    }
    let nogood = nogood_of(alloc, row.1, row.2)?.copy(alloc)?;
    let met = met_of(problem, order, c);
    Ok(excludes(problem, order, &nogood, met, c))
}

fn is_excluded(
    alloc: Global,
    problem: &Problem,
    c: &Configuration,
    row: &Excluding,
) -> Result<bool, Fail>
    requires shaped { IsTrue (is_shaped problem.now c.now) }
{
    let order = order_of(alloc, problem, row.0)?;
    let excluded = excludes_by(alloc, problem, &order, c, row);
    drop(order);
    excluded
}

fn check_each(
    rt: &impl Abort,
    alloc: Global,
    problem: &Problem,
    c: &Configuration,
) -> Result<(), Fail>
    requires shaped { IsTrue (is_shaped problem.now c.now) }
{
    for row in &EXCLUDING {
        assert_eq!(rt; is_excluded(alloc, problem, c, row)?, row.3, "{row:?}");
    }
    Ok(())
}

fn check_excluding(rt: &impl Abort, alloc: Global, problem: &Problem) -> Result<(), Fail> {
    let c = satisfying(alloc, problem, RACK)?;
    let checked = check_each(rt, alloc, problem, &c);
    drop(c);
    checked
}

#[test]
fn excludes_what_meets_and_has_all(rt: HostRuntime) -> Result<(), Fail> {
    let problem = problem_of(rt.alloc(), BUSES)?;
    let checked = check_excluding(&rt, rt.alloc(), &problem);
    drop(problem);
    checked
}

/// The requests and literals of a nogood, given literals, the requests that are kept, and whether
/// the nogood is within these.
type Within = (
    u64,
    &'static [Literal],
    &'static [Literal],
    &'static [bool],
    bool,
);

const WITHIN: [Within; 11] = [
    (0, &[], &[], &[], true),
    (1, &[], &[], &[true], true),
    (1, &[], &[], &[false], false),
    (2, &[], &[], &[false, true], true),
    (2, &[], &[], &[true], false),
    (3, &[], &[], &[true, true], true),
    (3, &[], &[], &[true, false], false),
    (0, &[SECOND_CARD], &[THIRD_CARD, SECOND_CARD], &[], true),
    (0, &[SECOND_CARD], &[THIRD_CARD], &[], false),
    (
        0,
        &[SECOND_CARD, THIRD_CARD],
        &[THIRD_CARD, SECOND_CARD],
        &[],
        true,
    ),
    (0, &[SECOND_CARD, THIRD_CARD], &[SECOND_CARD], &[], false),
];

fn is_within(alloc: Global, row: &Within) -> Result<bool, AllocError> {
    let nogood = nogood_of(alloc, row.0, row.1)?;
    Ok(within(&nogood, row.2, row.3))
}

#[test]
fn applies_where_all_is_given(rt: HostRuntime) -> Result<(), Fail> {
    for row in &WITHIN {
        assert_eq!(rt; is_within(rt.alloc(), row)?, row.4, "{row:?}");
    }
    Ok(())
}
