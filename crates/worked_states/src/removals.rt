//! Values that are removed from the attribute of a worked box, and those that are left.
ghost use Rattle.std.specs.Prelude.{IsTrue, IsSome};
ghost use Rattle.state_space.specs.State.{IsState, domain_at};

use config_value::Literal;
use domain_store::Change;
use partial_state::Partial;
use prod_model::Problem;
use std::alloc::Global;
use std::process::Abort;
use std::test::Fail;
use worked_models::models::{BOXES, COLOURS};
use worked_models::satisfying::problem_of;

/// A value that is removed, what that does, and the values that are left then.
type Removal = (i64, Change, &'static [i64]);

/// The width is 1 to 3. The only value stays.
const OF_A_WIDTH: [Removal; 8] = [
    (0, Change::Same, &[1, 2, 3]),
    (4, Change::Same, &[1, 2, 3]),
    (2, Change::Smaller, &[1, 3]),
    (2, Change::Same, &[1, 3]),
    (1, Change::Smaller, &[3]),
    (1, Change::Same, &[3]),
    (3, Change::Empty, &[3]),
    (-1, Change::Same, &[3]),
];

/// The colour is one of the words 0 and 1.
const OF_A_COLOUR: [Removal; 5] = [
    (2, Change::Same, &[0, 1]),
    (-1, Change::Same, &[0, 1]),
    (0, Change::Smaller, &[1]),
    (0, Change::Same, &[1]),
    (1, Change::Empty, &[1]),
];

/// It is entailed where the box has the attribute, since no value is less.
const HAS_VALUES: Literal = Literal::AtLeast {
    instance: 0,
    attr: 0,
    value: -9,
};

#[tactic(auto, unfolding(state_space::specs::Entails::entails))]
fn has_values(problem: &Problem, p: &Partial) -> bool
    requires { IsState problem.now p.now }
    ensures { IsTrue result → IsSome (domain_at p.now 0 0) }
{
    p.entails(problem, &HAS_VALUES)
}

/// Removes a value of the box's attribute.
fn remove(problem: &Problem, p: &mut Partial, value: i64) -> Result<Change, Fail>
    requires { IsState problem.now p.old }
    ensures { IsState problem.now p.new }
{
    if !has_values(problem, p) {
        return Err(Fail::from("no attribute"));
    }
    Ok(p.remove(0, 0, value)?)
}

/// Whether a value is left of the box's attribute.
fn is_left(problem: &Problem, p: &Partial, value: i64) -> bool
    requires { IsState problem.now p.now }
{
    has_values(problem, p) && p.allows(0, 0, value)
}

fn check_left(rt: &impl Abort, problem: &Problem, p: &Partial, left: &[i64])
    requires { IsState problem.now p.now }
{
    for value in -1..=5 {
        assert_eq!(rt;
            is_left(problem, p, value),
            left.contains(&value),
            "{value}"
        );
    }
}

fn remove_each(
    rt: &impl Abort,
    problem: &Problem,
    p: &mut Partial,
    rows: &[Removal],
) -> Result<(), Fail>
    requires { IsState problem.now p.old }
{
    for (value, want, left) in rows {
        assert_eq!(rt; remove(problem, p, *value)?, *want, "{value}");
        check_left(rt, problem, p, left);
    }
    Ok(())
}

fn check_removals(
    rt: &impl Abort,
    alloc: Global,
    problem: &Problem,
    rows: &[Removal],
) -> Result<(), Fail> {
    let mut p = Partial::root(alloc, problem)?;
    let checked = remove_each(rt, problem, &mut p, rows);
    drop(p);
    checked
}

fn check_removals_of(
    rt: &impl Abort,
    alloc: Global,
    model: &str,
    rows: &[Removal],
) -> Result<(), Fail> {
    let problem = problem_of(alloc, model)?;
    let checked = check_removals(rt, alloc, &problem, rows);
    drop(problem);
    checked
}

#[test]
fn leaves_the_other_widths(rt: HostRuntime) -> Result<(), Fail> {
    check_removals_of(&rt, rt.alloc(), BOXES, &OF_A_WIDTH)
}

#[test]
fn leaves_the_other_colours(rt: HostRuntime) -> Result<(), Fail> {
    check_removals_of(&rt, rt.alloc(), COLOURS, &OF_A_COLOUR)
}
