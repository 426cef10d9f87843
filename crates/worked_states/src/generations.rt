//! The next card of a worked rack, made for its port, and copies of states.
ghost use Rattle.state_space.specs.State.{IsState};

use crate::changes::take;
use crate::first_state::{Entailed, check_entailed};
use config_value::Literal;
use partial_state::{ChangeLog, Partial};
use prod_model::Problem;
use std::alloc::Global;
use std::process::Abort;
use std::test::Fail;
use worked_models::models::RACKS;
use worked_models::satisfying::problem_of;

// Types count from `Item` 0, `Rack` 1, `Card` 2, `Small` 3 to `Big` 4, the attributes are price 0
// and power 1, and the port is cards 0.

/// At least one later card is linked.
const OWED: Literal = Literal::FreshAtLeast {
    instance: 0,
    port: 0,
    from: 1,
    count: 1,
};

const NEXT: Literal = Literal::Made { instance: 1 };

/// The rack links the card, and up to three later ones. Of the card its types' values are known.
const AFTER: [Entailed; 16] = [
    (Literal::Made { instance: 1 }, true),
    (Literal::Made { instance: 2 }, false),
    (
        Literal::Linked {
            instance: 0,
            port: 0,
            to: 1,
        },
        true,
    ),
    (
        Literal::Linked {
            instance: 0,
            port: 0,
            to: 0,
        },
        false,
    ),
    (
        Literal::FreshAtLeast {
            instance: 0,
            port: 0,
            from: 2,
            count: 0,
        },
        true,
    ),
    (
        Literal::FreshAtLeast {
            instance: 0,
            port: 0,
            from: 2,
            count: 1,
        },
        false,
    ),
    (
        Literal::FreshAtMost {
            instance: 0,
            port: 0,
            from: 2,
            count: 3,
        },
        true,
    ),
    (
        Literal::FreshAtMost {
            instance: 0,
            port: 0,
            from: 2,
            count: 2,
        },
        false,
    ),
    (
        Literal::Kind {
            instance: 1,
            kind: 2,
        },
        true,
    ),
    (
        Literal::Kind {
            instance: 1,
            kind: 3,
        },
        false,
    ),
    (
        Literal::NotKind {
            instance: 1,
            kind: 1,
        },
        true,
    ),
    (
        Literal::AtMost {
            instance: 1,
            attr: 0,
            value: 100,
        },
        true,
    ),
    (
        Literal::AtMost {
            instance: 1,
            attr: 0,
            value: 99,
        },
        false,
    ),
    (
        Literal::AtLeast {
            instance: 1,
            attr: 1,
            value: 1,
        },
        true,
    ),
    (
        Literal::AtLeast {
            instance: 1,
            attr: 1,
            value: 2,
        },
        false,
    ),
    (
        Literal::AtMost {
            instance: 1,
            attr: 1,
            value: 20,
        },
        true,
    ),
];

/// Makes the next instance, where it has to be made and can be.
#[tactic(auto, unfolding(state_space::specs::Entails::fits))]
fn generate(problem: &Problem, p: &mut Partial) -> Result<(), Fail>
    requires { IsState problem.now p.old }
    ensures { IsState problem.now p.new }
{
    if !p.fits(problem, &NEXT) {
        return Err(Fail::from("no card can be made"));
    }
    p.generate(problem)?;
    Ok(())
}

fn check_made(rt: &impl Abort, problem: &Problem, p: &Partial) -> Result<(), Fail>
    requires { IsState problem.now p.now }
{
    if p.made() != 2 {
        return Err(Fail::from("not two instances"));
    }
    // Small and big cards.
    assert_eq!(rt; p.kinds(1), 24);
    assert_eq!(rt; p.first_open(problem), Some((0, 0)));
    check_entailed(rt, problem, p, &AFTER);
    Ok(())
}

fn check_copied(rt: &impl Abort, problem: &Problem, p: &Partial) -> Result<(), Fail>
    requires { IsState problem.now p.now }
{
    let copy = p.copy()?;
    let checked = check_made(rt, problem, &copy);
    drop(copy);
    checked
}

/// Makes a card that is owed.
fn make_card(alloc: Global, problem: &Problem, p: &mut Partial) -> Result<(), Fail>
    requires { IsState problem.now p.old }
    ensures { IsState problem.now p.new }
{
    let mut log = ChangeLog::new(alloc);
    let taken = take(problem, p, &OWED, &mut log);
    drop(log);
    taken?;
    generate(problem, p)
}

fn check_generation(
    rt: &impl Abort,
    alloc: Global,
    problem: &Problem,
    p: &mut Partial,
) -> Result<(), Fail>
    requires { IsState problem.now p.old }
{
    make_card(alloc, problem, p)?;
    check_made(rt, problem, p)?;
    check_copied(rt, problem, p)
}

fn check_card(rt: &impl Abort, alloc: Global, problem: &Problem) -> Result<(), Fail> {
    let mut p = Partial::root(alloc, problem)?;
    let checked = check_generation(rt, alloc, problem, &mut p);
    drop(p);
    checked
}

#[test]
fn makes_a_card(rt: HostRuntime) -> Result<(), Fail> {
    let problem = problem_of(rt.alloc(), RACKS)?;
    let checked = check_card(&rt, rt.alloc(), &problem);
    drop(problem);
    checked
}
