//! What each change of a worked rack's states does and logs, down to one configuration.
ghost use Rattle.std.specs.Prelude.{IsTrue};
ghost use Rattle.config_value.specs.Spelled.{is_spelled};
ghost use Rattle.state_space.specs.State.{IsState};

use canonical_form::write_answer;
use config_value::{Configuration, Literal};
use domain_store::Change;
use partial_state::{ChangeLog, Partial};
use prod_model::Problem;
use std::alloc::Global;
use std::process::Abort;
use std::test::Fail;
use worked_models::models::RACKS;
use worked_models::satisfying::problem_of;

// Types count from `Item` 0, `Rack` 1, `Card` 2, `Small` 3 to `Big` 4, the attributes are price 0
// and power 1, and the port is cards 0.

/// A literal, what the change by it does, and how many old values are logged then.
type Step = (Literal, Change, u32);

/// A rack of a price of 50 with one small card.
const STEPS: [Step; 17] = [
    (
        Literal::AtLeast {
            instance: 0,
            attr: 0,
            value: 50,
        },
        Change::Smaller,
        1,
    ),
    (
        Literal::AtMost {
            instance: 0,
            attr: 0,
            value: 49,
        },
        Change::Empty,
        1,
    ),
    (
        Literal::AtMost {
            instance: 0,
            attr: 0,
            value: 50,
        },
        Change::Smaller,
        2,
    ),
    (
        Literal::ValueIsNot {
            instance: 0,
            attr: 0,
            value: 7,
        },
        Change::Same,
        2,
    ),
    (
        Literal::ValueIsNot {
            instance: 0,
            attr: 0,
            value: 50,
        },
        Change::Empty,
        2,
    ),
    (
        Literal::FreshAtLeast {
            instance: 0,
            port: 0,
            from: 1,
            count: 1,
        },
        Change::Smaller,
        3,
    ),
    (Literal::Made { instance: 1 }, Change::Smaller, 5),
    (
        Literal::Linked {
            instance: 0,
            port: 0,
            to: 1,
        },
        Change::Same,
        5,
    ),
    (
        Literal::NotLinked {
            instance: 0,
            port: 0,
            to: 1,
        },
        Change::Empty,
        5,
    ),
    (
        Literal::NotLinked {
            instance: 0,
            port: 0,
            to: 0,
        },
        Change::Smaller,
        6,
    ),
    (
        Literal::FreshAtMost {
            instance: 0,
            port: 0,
            from: 2,
            count: 0,
        },
        Change::Smaller,
        7,
    ),
    (
        Literal::NotKind {
            instance: 1,
            kind: 4,
        },
        Change::Smaller,
        8,
    ),
    (
        Literal::Kind {
            instance: 1,
            kind: 2,
        },
        Change::Same,
        8,
    ),
    (
        Literal::AtMost {
            instance: 1,
            attr: 0,
            value: 10,
        },
        Change::Smaller,
        9,
    ),
    (
        Literal::AtLeast {
            instance: 1,
            attr: 0,
            value: 10,
        },
        Change::Smaller,
        10,
    ),
    (
        Literal::AtLeast {
            instance: 1,
            attr: 1,
            value: 5,
        },
        Change::Smaller,
        11,
    ),
    (
        Literal::AtMost {
            instance: 1,
            attr: 1,
            value: 5,
        },
        Change::Smaller,
        12,
    ),
];

/// The answer that is left.
const LEFT: &str = "preferred\n0 Rack price=50 cards:1\n1 Small price=10 power=5\n";

/// Changes the state by a literal, if it fits.
pub(crate) fn take(
    problem: &Problem,
    p: &mut Partial,
    literal: &Literal,
    log: &mut ChangeLog,
) -> Result<Change, Fail>
    requires { IsState problem.now p.old }
    ensures { IsState problem.now p.new }
{
    if !p.fits(problem, literal) {
        return Err(Fail::from("it does not fit"));
    }
    Ok(p.change(problem, literal, log)?)
}

fn take_step(
    rt: &impl Abort,
    problem: &Problem,
    p: &mut Partial,
    log: &mut ChangeLog,
    step: &Step,
) -> Result<(), Fail>
    requires { IsState problem.now p.old }
    ensures { IsState problem.now p.new }
{
    let (literal, want, logged) = step;
    let told = take(problem, p, literal, log)?;
    assert_eq!(rt; told, *want, "{literal:?}");
    assert_eq!(rt; log.len(), *logged, "{literal:?}");
    Ok(())
}

pub(crate) fn take_all(
    rt: &impl Abort,
    problem: &Problem,
    p: &mut Partial,
    log: &mut ChangeLog,
) -> Result<(), Fail>
    requires { IsState problem.now p.old }
    ensures { IsState problem.now p.new }
{
    for step in &STEPS {
        take_step(rt, problem, p, log, step)?;
    }
    Ok(())
}

/// The answer is that of the only configuration that is left.
fn check_text(
    rt: &impl Abort,
    alloc: Global,
    problem: &Problem,
    c: &Configuration,
) -> Result<(), Fail>
    requires { IsTrue (is_spelled problem.now c.now) }
{
    let text = write_answer(alloc, problem, c)?;
    assert_eq!(rt; text.as_slice(), LEFT.as_bytes());
    Ok(())
}

fn check_left(rt: &impl Abort, alloc: Global, problem: &Problem, p: &Partial) -> Result<(), Fail>
    requires { IsState problem.now p.now }
{
    if !p.is_whole() {
        return Err(Fail::from("it is not whole"));
    }
    let c = p.to_configuration(problem)?;
    let checked = check_text(rt, alloc, problem, &c);
    drop(c);
    checked
}

fn narrow(rt: &impl Abort, alloc: Global, problem: &Problem, p: &mut Partial) -> Result<(), Fail>
    requires { IsState problem.now p.old }
{
    let mut log = ChangeLog::new(alloc);
    let taken = take_all(rt, problem, p, &mut log);
    drop(log);
    taken?;
    check_left(rt, alloc, problem, p)
}

fn check_changes(rt: &impl Abort, alloc: Global, problem: &Problem) -> Result<(), Fail> {
    let mut p = Partial::root(alloc, problem)?;
    let checked = narrow(rt, alloc, problem, &mut p);
    drop(p);
    checked
}

#[test]
fn is_narrowed_to_one_configuration(rt: HostRuntime) -> Result<(), Fail> {
    let problem = problem_of(rt.alloc(), RACKS)?;
    let checked = check_changes(&rt, rt.alloc(), &problem);
    drop(problem);
    checked
}
