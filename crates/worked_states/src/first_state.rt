//! The first state of a worked rack: what it entails, and what fits it.
ghost use Rattle.state_space.specs.State.{IsState};

use config_value::Literal;
use partial_state::Partial;
use prod_model::Problem;
use std::alloc::Global;
use std::process::Abort;
use std::test::Fail;
use worked_models::models::RACKS;
use worked_models::satisfying::problem_of;

// Types count from `Item` 0, `Rack` 1, `Card` 2, `Small` 3 to `Big` 4, the attributes are price 0
// and power 1, and the port is cards 0.

/// A literal, and whether the first state entails it.
pub(crate) type Entailed = (Literal, bool);

/// One rack is made. Of its price, from 0 to 100, and of its cards, itself or up to four later
/// ones, nothing is known.
const OF_THE_RACK: [Entailed; 14] = [
    (Literal::Made { instance: 0 }, true),
    (Literal::Made { instance: 1 }, false),
    (
        Literal::Kind {
            instance: 0,
            kind: 1,
        },
        true,
    ),
    (
        Literal::Kind {
            instance: 0,
            kind: 0,
        },
        true,
    ),
    (
        Literal::Kind {
            instance: 0,
            kind: 2,
        },
        false,
    ),
    (
        Literal::NotKind {
            instance: 0,
            kind: 2,
        },
        true,
    ),
    (
        Literal::NotKind {
            instance: 0,
            kind: 0,
        },
        false,
    ),
    (
        Literal::AtMost {
            instance: 0,
            attr: 0,
            value: 100,
        },
        true,
    ),
    (
        Literal::AtMost {
            instance: 0,
            attr: 0,
            value: 99,
        },
        false,
    ),
    (
        Literal::AtLeast {
            instance: 0,
            attr: 0,
            value: 0,
        },
        true,
    ),
    (
        Literal::AtLeast {
            instance: 0,
            attr: 0,
            value: 1,
        },
        false,
    ),
    (
        Literal::ValueIsNot {
            instance: 0,
            attr: 0,
            value: 101,
        },
        true,
    ),
    (
        Literal::ValueIsNot {
            instance: 0,
            attr: 0,
            value: 50,
        },
        false,
    ),
    (
        Literal::AtMost {
            instance: 0,
            attr: 1,
            value: 20,
        },
        false,
    ),
];

/// Links to later cards count where they may be there.
const OF_ITS_CARDS: [Entailed; 13] = [
    (
        Literal::Linked {
            instance: 0,
            port: 0,
            to: 0,
        },
        false,
    ),
    (
        Literal::NotLinked {
            instance: 0,
            port: 0,
            to: 0,
        },
        false,
    ),
    (
        Literal::NotLinked {
            instance: 0,
            port: 0,
            to: 7,
        },
        false,
    ),
    (
        Literal::LinksAtMost {
            instance: 0,
            port: 0,
            count: 5,
        },
        true,
    ),
    (
        Literal::LinksAtMost {
            instance: 0,
            port: 0,
            count: 3,
        },
        false,
    ),
    (
        Literal::LinksAtLeast {
            instance: 0,
            port: 0,
            count: 0,
        },
        true,
    ),
    (
        Literal::LinksAtLeast {
            instance: 0,
            port: 0,
            count: 1,
        },
        false,
    ),
    (
        Literal::FreshAtMost {
            instance: 0,
            port: 0,
            from: 1,
            count: 4,
        },
        true,
    ),
    (
        Literal::FreshAtMost {
            instance: 0,
            port: 0,
            from: 1,
            count: 3,
        },
        false,
    ),
    (
        Literal::FreshAtMost {
            instance: 0,
            port: 0,
            from: 0,
            count: 5,
        },
        true,
    ),
    (
        Literal::FreshAtMost {
            instance: 0,
            port: 0,
            from: 0,
            count: 4,
        },
        false,
    ),
    (
        Literal::FreshAtLeast {
            instance: 0,
            port: 0,
            from: 1,
            count: 0,
        },
        true,
    ),
    (
        Literal::FreshAtLeast {
            instance: 0,
            port: 0,
            from: 1,
            count: 1,
        },
        false,
    ),
];

/// A literal, and whether it fits the first state. No card has to be made yet.
const FITTING: [Entailed; 11] = [
    (Literal::Made { instance: 1 }, false),
    (Literal::Made { instance: 2 }, false),
    (
        Literal::Kind {
            instance: 0,
            kind: 2,
        },
        true,
    ),
    (
        Literal::Kind {
            instance: 1,
            kind: 2,
        },
        false,
    ),
    (
        Literal::AtMost {
            instance: 0,
            attr: 0,
            value: 7,
        },
        true,
    ),
    (
        Literal::AtMost {
            instance: 0,
            attr: 1,
            value: 7,
        },
        false,
    ),
    (
        Literal::Linked {
            instance: 0,
            port: 0,
            to: 0,
        },
        true,
    ),
    (
        Literal::Linked {
            instance: 0,
            port: 0,
            to: 1,
        },
        false,
    ),
    (
        Literal::LinksAtMost {
            instance: 0,
            port: 0,
            count: 2,
        },
        false,
    ),
    (
        Literal::FreshAtMost {
            instance: 0,
            port: 0,
            from: 1,
            count: 2,
        },
        true,
    ),
    (
        Literal::FreshAtMost {
            instance: 0,
            port: 0,
            from: 0,
            count: 2,
        },
        false,
    ),
];

pub(crate) fn check_entailed(rt: &impl Abort, problem: &Problem, p: &Partial, rows: &[Entailed])
    requires { IsState problem.now p.now }
{
    for (literal, want) in rows {
        assert_eq!(rt; p.entails(problem, literal), *want, "{literal:?}");
    }
}

fn check_fitting(rt: &impl Abort, problem: &Problem, p: &Partial)
    requires { IsState problem.now p.now }
{
    for (literal, want) in &FITTING {
        assert_eq!(rt; p.fits(problem, literal), *want, "{literal:?}");
    }
}

fn check_first_state(rt: &impl Abort, problem: &Problem, p: &Partial)
    requires { IsState problem.now p.now }
{
    assert_eq!(rt; p.made(), 1);
    assert_eq!(rt; p.first_open(problem), Some((0, 0)));
    assert!(rt; !p.is_whole());
    check_entailed(rt, problem, p, &OF_THE_RACK);
    check_entailed(rt, problem, p, &OF_ITS_CARDS);
    check_fitting(rt, problem, p);
}

fn check_root(rt: &impl Abort, alloc: Global, problem: &Problem) -> Result<(), Fail> {
    let p = Partial::root(alloc, problem)?;
    check_first_state(rt, problem, &p);
    Ok(())
}

#[test]
fn begins_with_one_rack(rt: HostRuntime) -> Result<(), Fail> {
    let problem = problem_of(rt.alloc(), RACKS)?;
    let checked = check_root(&rt, rt.alloc(), &problem);
    drop(problem);
    checked
}
