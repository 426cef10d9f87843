//! Walks from the first state: the branch of each state on the way, and the literal that is taken.
ghost use Rattle.state_space.specs.State.{IsState};

use branch_cut::{Branch, choose, is_stuck};
use config_value::Literal;
use partial_state::{ChangeLog, Partial};
use prod_model::Problem;
use std::process::Abort;
use std::test::Fail;
use worked_models::models::{NODE_PARTS, RACKS};
use worked_models::satisfying::problem_of;

/// The branch of a state, and the literal that is taken there.
type Step = (Branch, Literal);

// Types of racks count from `Item` 0, `Rack` 1, `Card` 2, `Small` 3 to `Big` 4, the attributes are
// price 0 and power 1, and the port is cards 0. A domain is that of the first declaration until it
// is narrowed.

/// A rack of a price of 50 with one small card: each step takes what makes it so.
const ONE_SMALL_CARD: [Step; 11] = [
    (
        Branch {
            first: Literal::AtMost {
                instance: 0,
                attr: 0,
                value: 0,
            },
            second: Literal::AtLeast {
                instance: 0,
                attr: 0,
                value: 1,
            },
        },
        Literal::AtLeast {
            instance: 0,
            attr: 0,
            value: 50,
        },
    ),
    (
        Branch {
            first: Literal::AtMost {
                instance: 0,
                attr: 0,
                value: 50,
            },
            second: Literal::AtLeast {
                instance: 0,
                attr: 0,
                value: 51,
            },
        },
        Literal::AtMost {
            instance: 0,
            attr: 0,
            value: 50,
        },
    ),
    (
        Branch {
            first: Literal::Linked {
                instance: 0,
                port: 0,
                to: 0,
            },
            second: Literal::NotLinked {
                instance: 0,
                port: 0,
                to: 0,
            },
        },
        Literal::NotLinked {
            instance: 0,
            port: 0,
            to: 0,
        },
    ),
    (
        Branch {
            first: Literal::FreshAtLeast {
                instance: 0,
                port: 0,
                from: 1,
                count: 1,
            },
            second: Literal::FreshAtMost {
                instance: 0,
                port: 0,
                from: 1,
                count: 0,
            },
        },
        Literal::FreshAtLeast {
            instance: 0,
            port: 0,
            from: 1,
            count: 1,
        },
    ),
    (
        Branch {
            first: Literal::Made { instance: 1 },
            second: Literal::FreshAtMost {
                instance: 0,
                port: 0,
                from: 1,
                count: 0,
            },
        },
        Literal::Made { instance: 1 },
    ),
    (
        Branch {
            first: Literal::FreshAtLeast {
                instance: 0,
                port: 0,
                from: 2,
                count: 1,
            },
            second: Literal::FreshAtMost {
                instance: 0,
                port: 0,
                from: 2,
                count: 0,
            },
        },
        Literal::FreshAtMost {
            instance: 0,
            port: 0,
            from: 2,
            count: 0,
        },
    ),
    (
        Branch {
            first: Literal::Kind {
                instance: 1,
                kind: 3,
            },
            second: Literal::NotKind {
                instance: 1,
                kind: 3,
            },
        },
        Literal::Kind {
            instance: 1,
            kind: 3,
        },
    ),
    (
        Branch {
            first: Literal::AtMost {
                instance: 1,
                attr: 0,
                value: 0,
            },
            second: Literal::AtLeast {
                instance: 1,
                attr: 0,
                value: 1,
            },
        },
        Literal::AtLeast {
            instance: 1,
            attr: 0,
            value: 10,
        },
    ),
    (
        Branch {
            first: Literal::AtMost {
                instance: 1,
                attr: 0,
                value: 10,
            },
            second: Literal::AtLeast {
                instance: 1,
                attr: 0,
                value: 11,
            },
        },
        Literal::AtMost {
            instance: 1,
            attr: 0,
            value: 10,
        },
    ),
    (
        Branch {
            first: Literal::AtMost {
                instance: 1,
                attr: 1,
                value: 1,
            },
            second: Literal::AtLeast {
                instance: 1,
                attr: 1,
                value: 2,
            },
        },
        Literal::AtLeast {
            instance: 1,
            attr: 1,
            value: 5,
        },
    ),
    (
        Branch {
            first: Literal::AtMost {
                instance: 1,
                attr: 1,
                value: 5,
            },
            second: Literal::AtLeast {
                instance: 1,
                attr: 1,
                value: 6,
            },
        },
        Literal::AtMost {
            instance: 1,
            attr: 1,
            value: 5,
        },
    ),
];

/// Where a card is owed, it is made before anything else of the rack is known; then the rack's
/// price is the lowest choice again.
const OWED_CARD: [Step; 3] = [
    (
        Branch {
            first: Literal::AtMost {
                instance: 0,
                attr: 0,
                value: 0,
            },
            second: Literal::AtLeast {
                instance: 0,
                attr: 0,
                value: 1,
            },
        },
        Literal::FreshAtLeast {
            instance: 0,
            port: 0,
            from: 1,
            count: 1,
        },
    ),
    (
        Branch {
            first: Literal::Made { instance: 1 },
            second: Literal::FreshAtMost {
                instance: 0,
                port: 0,
                from: 1,
                count: 0,
            },
        },
        Literal::Made { instance: 1 },
    ),
    (
        Branch {
            first: Literal::AtMost {
                instance: 0,
                attr: 0,
                value: 0,
            },
            second: Literal::AtLeast {
                instance: 0,
                attr: 0,
                value: 1,
            },
        },
        Literal::AtMost {
            instance: 0,
            attr: 0,
            value: 0,
        },
    ),
];

/// Each of three nodes links a later one, but no fourth node may be made.
const NODES: [Step; 11] = [
    (
        Branch {
            first: Literal::Linked {
                instance: 0,
                port: 0,
                to: 0,
            },
            second: Literal::NotLinked {
                instance: 0,
                port: 0,
                to: 0,
            },
        },
        Literal::NotLinked {
            instance: 0,
            port: 0,
            to: 0,
        },
    ),
    (
        Branch {
            first: Literal::FreshAtLeast {
                instance: 0,
                port: 0,
                from: 1,
                count: 1,
            },
            second: Literal::FreshAtMost {
                instance: 0,
                port: 0,
                from: 1,
                count: 0,
            },
        },
        Literal::FreshAtLeast {
            instance: 0,
            port: 0,
            from: 1,
            count: 1,
        },
    ),
    (
        Branch {
            first: Literal::Made { instance: 1 },
            second: Literal::FreshAtMost {
                instance: 0,
                port: 0,
                from: 1,
                count: 0,
            },
        },
        Literal::Made { instance: 1 },
    ),
    (
        Branch {
            first: Literal::Linked {
                instance: 1,
                port: 0,
                to: 0,
            },
            second: Literal::NotLinked {
                instance: 1,
                port: 0,
                to: 0,
            },
        },
        Literal::NotLinked {
            instance: 1,
            port: 0,
            to: 0,
        },
    ),
    (
        Branch {
            first: Literal::Linked {
                instance: 1,
                port: 0,
                to: 1,
            },
            second: Literal::NotLinked {
                instance: 1,
                port: 0,
                to: 1,
            },
        },
        Literal::NotLinked {
            instance: 1,
            port: 0,
            to: 1,
        },
    ),
    (
        Branch {
            first: Literal::FreshAtLeast {
                instance: 1,
                port: 0,
                from: 2,
                count: 1,
            },
            second: Literal::FreshAtMost {
                instance: 1,
                port: 0,
                from: 2,
                count: 0,
            },
        },
        Literal::FreshAtLeast {
            instance: 1,
            port: 0,
            from: 2,
            count: 1,
        },
    ),
    (
        Branch {
            first: Literal::Made { instance: 2 },
            second: Literal::FreshAtMost {
                instance: 1,
                port: 0,
                from: 2,
                count: 0,
            },
        },
        Literal::Made { instance: 2 },
    ),
    (
        Branch {
            first: Literal::Linked {
                instance: 2,
                port: 0,
                to: 0,
            },
            second: Literal::NotLinked {
                instance: 2,
                port: 0,
                to: 0,
            },
        },
        Literal::NotLinked {
            instance: 2,
            port: 0,
            to: 0,
        },
    ),
    (
        Branch {
            first: Literal::Linked {
                instance: 2,
                port: 0,
                to: 1,
            },
            second: Literal::NotLinked {
                instance: 2,
                port: 0,
                to: 1,
            },
        },
        Literal::NotLinked {
            instance: 2,
            port: 0,
            to: 1,
        },
    ),
    (
        Branch {
            first: Literal::Linked {
                instance: 2,
                port: 0,
                to: 2,
            },
            second: Literal::NotLinked {
                instance: 2,
                port: 0,
                to: 2,
            },
        },
        Literal::NotLinked {
            instance: 2,
            port: 0,
            to: 2,
        },
    ),
    (
        Branch {
            first: Literal::FreshAtLeast {
                instance: 2,
                port: 0,
                from: 3,
                count: 1,
            },
            second: Literal::FreshAtMost {
                instance: 2,
                port: 0,
                from: 3,
                count: 0,
            },
        },
        Literal::FreshAtLeast {
            instance: 2,
            port: 0,
            from: 3,
            count: 1,
        },
    ),
];

/// Narrows the state by a literal that fits.
pub(crate) fn take(
    problem: &Problem,
    p: &mut Partial,
    literal: &Literal,
    log: &mut ChangeLog,
) -> Result<(), Fail>
    requires { IsState problem.now p.old }
    ensures { IsState problem.now p.new }
{
    if !p.fits(problem, literal) {
        return Err(Fail::from("it does not fit"));
    }
    p.change(problem, literal, log)?;
    Ok(())
}

/// The branch of a state, and no branch where it is stuck.
fn branch_of(problem: &Problem, p: &Partial) -> Option<Branch>
    requires { IsState problem.now p.now }
{
    if is_stuck(problem, p) {
        return None;
    }
    choose(problem, p)
}

/// Takes each step, where the branch is the one that is expected.
fn take_each(
    rt: &impl Abort,
    problem: &Problem,
    p: &mut Partial,
    steps: &[Step],
    log: &mut ChangeLog,
) -> Result<(), Fail>
    requires { IsState problem.now p.old }
    ensures { IsState problem.now p.new }
{
    for (branch, literal) in steps {
        assert_eq!(rt; branch_of(problem, p), Some(*branch));
        take(problem, p, literal, log)?;
    }
    Ok(())
}

#[test]
fn reaches_a_whole_state(rt: HostRuntime) -> Result<(), Fail> {
    let alloc = rt.alloc();
    let problem = problem_of(alloc, RACKS)?;
    let mut p = Partial::root(alloc, &problem)?;
    let mut log = ChangeLog::new(alloc);
    take_each(&rt, &problem, &mut p, &ONE_SMALL_CARD, &mut log)?;
    assert!(rt; p.is_whole());
    assert!(rt; !is_stuck(&problem, &p));
    assert_eq!(rt; branch_of(&problem, &p), None);
    Ok(())
}

#[test]
fn makes_an_owed_card_first(rt: HostRuntime) -> Result<(), Fail> {
    let alloc = rt.alloc();
    let problem = problem_of(alloc, RACKS)?;
    let mut p = Partial::root(alloc, &problem)?;
    let mut log = ChangeLog::new(alloc);
    take_each(&rt, &problem, &mut p, &OWED_CARD, &mut log)?;
    assert_eq!(rt; p.made(), 2);
    Ok(())
}

#[test]
fn is_stuck_where_no_node_is_left(rt: HostRuntime) -> Result<(), Fail> {
    let alloc = rt.alloc();
    let problem = problem_of(alloc, NODE_PARTS)?;
    let mut p = Partial::root(alloc, &problem)?;
    let mut log = ChangeLog::new(alloc);
    assert!(rt; !is_stuck(&problem, &p));
    take_each(&rt, &problem, &mut p, &NODES, &mut log)?;
    assert!(rt; is_stuck(&problem, &p));
    Ok(())
}
