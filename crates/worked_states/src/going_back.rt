//! Changes of a worked rack's states that are gone back over.
ghost use Rattle.std.specs.Prelude.{◌≡◌};
ghost use Rattle.state_space.specs.State.{IsState};

use crate::changes::{take, take_all};
use config_value::Literal;
use partial_state::{ChangeLog, Partial};
use prod_model::Problem;
use std::alloc::Global;
use std::process::Abort;
use std::test::Fail;
use worked_models::models::RACKS;
use worked_models::satisfying::problem_of;

// The types and ids are those of `changes`.

/// A card is owed.
const OWED: Literal = Literal::FreshAtLeast {
    instance: 0,
    port: 0,
    from: 1,
    count: 1,
};

/// Changes the state by a literal that fits, and goes back.
fn take_and_go_back(
    problem: &Problem,
    p: &mut Partial,
    literal: &Literal,
    log: &mut ChangeLog,
) -> Result<u32, Fail>
    requires { IsState problem.now p.old }
    ensures { p.new ≡ p.old }
{
    let len = log.len();
    if !p.fits(problem, literal) {
        return Err(Fail::from("it does not fit"));
    }
    p.change(problem, literal, log)?;
    let made = p.made();
    p.undo(log, len);
    Ok(made)
}

/// A literal, and how many instances are made while it is taken.
type Back = (Literal, u32);

/// Each is taken from the state that one card is owed, which stands again afterwards.
const BACK: [Back; 5] = [
    (
        Literal::AtLeast {
            instance: 0,
            attr: 0,
            value: 50,
        },
        1,
    ),
    (
        Literal::ValueIsNot {
            instance: 0,
            attr: 0,
            value: 50,
        },
        1,
    ),
    (Literal::Made { instance: 1 }, 2),
    (
        Literal::FreshAtMost {
            instance: 0,
            port: 0,
            from: 1,
            count: 1,
        },
        1,
    ),
    (Literal::Made { instance: 1 }, 2),
];

fn check_one_back(
    rt: &impl Abort,
    problem: &Problem,
    p: &mut Partial,
    log: &mut ChangeLog,
    row: &Back,
) -> Result<(), Fail>
    requires { IsState problem.now p.old }
    ensures { p.new ≡ p.old }
{
    let (literal, want) = row;
    let made = take_and_go_back(problem, p, literal, log)?;
    assert_eq!(rt; made, *want, "{literal:?}");
    assert_eq!(rt; p.made(), 1, "{literal:?}");
    assert_eq!(rt; log.len(), 1, "{literal:?}");
    Ok(())
}

fn check_back(
    rt: &impl Abort,
    problem: &Problem,
    p: &mut Partial,
    log: &mut ChangeLog,
) -> Result<(), Fail>
    requires { IsState problem.now p.old }
{
    for row in &BACK {
        check_one_back(rt, problem, p, log, row)?;
    }
    Ok(())
}

fn take_back(
    rt: &impl Abort,
    problem: &Problem,
    p: &mut Partial,
    log: &mut ChangeLog,
) -> Result<(), Fail>
    requires { IsState problem.now p.old }
{
    take(problem, p, &OWED, log)?;
    check_back(rt, problem, p, log)
}

fn take_all_back(
    rt: &impl Abort,
    problem: &Problem,
    p: &mut Partial,
    log: &mut ChangeLog,
) -> Result<(), Fail>
    requires { IsState problem.now p.old }
{
    take_all(rt, problem, p, log)?;
    assert_eq!(rt; p.made(), 2);
    p.undo(log, 0);
    assert_eq!(rt; p.made(), 1);
    assert_eq!(rt; log.len(), 0);
    Ok(())
}

fn check_going_back(rt: &impl Abort, alloc: Global, problem: &Problem) -> Result<(), Fail> {
    let mut p = Partial::root(alloc, problem)?;
    let mut log = ChangeLog::new(alloc);
    let checked = take_back(rt, problem, &mut p, &mut log);
    drop(log);
    drop(p);
    checked
}

#[test]
fn goes_back(rt: HostRuntime) -> Result<(), Fail> {
    let problem = problem_of(rt.alloc(), RACKS)?;
    let checked = check_going_back(&rt, rt.alloc(), &problem);
    drop(problem);
    checked
}

fn check_going_back_over_all(
    rt: &impl Abort,
    alloc: Global,
    problem: &Problem,
) -> Result<(), Fail> {
    let mut p = Partial::root(alloc, problem)?;
    let mut log = ChangeLog::new(alloc);
    let checked = take_all_back(rt, problem, &mut p, &mut log);
    drop(log);
    drop(p);
    checked
}

#[test]
fn goes_back_over_all(rt: HostRuntime) -> Result<(), Fail> {
    let problem = problem_of(rt.alloc(), RACKS)?;
    let checked = check_going_back_over_all(&rt, rt.alloc(), &problem);
    drop(problem);
    checked
}
