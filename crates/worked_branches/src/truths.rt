//! What the rules of a rack are in states on the way to a product.
ghost use Rattle.state_space.specs.State.{IsState};

use crate::walks::take;
use config_value::Literal;
use partial_state::{ChangeLog, Partial};
use prod_model::Problem;
use state_values::{Kleene, truth_at};
use std::process::Abort;
use std::test::Fail;
use worked_models::satisfying::problem_of;

/// A rack of up to two cards, with rules on their powers and kinds.
const CARD_RULES: &str = r#"{"format": "product-model 1", "root": "Rack", "instances": 3, "types": [
    {"name": "Rack", "ports": [
        {"name": "cards", "kind": "part", "target": "Card", "links": [0, 2]}]},
    {"name": "Card", "attributes": [{"name": "power", "range": [1, 20]}]},
    {"name": "Small", "parent": "Card"},
    {"name": "Big", "parent": "Card"}],
    "rules": [
        {"name": "load", "type": "Rack", "holds": ["<=", ["sum", "cards", "power"], 30]},
        {"name": "strong", "type": "Rack",
            "holds": ["all", "cards", [">=", ["attr", "power"], 10]]},
        {"name": "some_big", "type": "Rack", "holds": ["any", "cards", ["kind", "Big"]]}]}"#;

/// What each rule is at the rack.
#[derive(Clone, Copy, Debug, PartialEq, Eq)]
struct Told {
    load: Kleene,
    strong: Kleene,
    some_big: Kleene,
}

/// A literal that is taken, and what the rules are then.
type Step = (Literal, Told);

/// Nothing is known of the rules yet.
const OPEN: Told = Told {
    load: Kleene::Open,
    strong: Kleene::Open,
    some_big: Kleene::Open,
};

// Types count from `Rack` 0, `Card` 1, `Small` 2 to `Big` 3, the attribute is power 0, and the port
// is cards 0.

/// A big card with much power is enough for some card, and for all cards once no later one may be
/// linked; two cards may have too much power.
const ONE_BIG_CARD: [Step; 6] = [
    (
        Literal::NotLinked {
            instance: 0,
            port: 0,
            to: 0,
        },
        OPEN,
    ),
    (
        Literal::FreshAtLeast {
            instance: 0,
            port: 0,
            from: 1,
            count: 1,
        },
        OPEN,
    ),
    (Literal::Made { instance: 1 }, OPEN),
    (
        Literal::Kind {
            instance: 1,
            kind: 3,
        },
        Told {
            load: Kleene::Open,
            strong: Kleene::Open,
            some_big: Kleene::True,
        },
    ),
    (
        Literal::AtLeast {
            instance: 1,
            attr: 0,
            value: 10,
        },
        Told {
            load: Kleene::Open,
            strong: Kleene::Open,
            some_big: Kleene::True,
        },
    ),
    (
        Literal::FreshAtMost {
            instance: 0,
            port: 0,
            from: 2,
            count: 0,
        },
        Told {
            load: Kleene::True,
            strong: Kleene::True,
            some_big: Kleene::True,
        },
    ),
];

/// A card with little power is enough for not all cards, whatever is linked later; that no card is
/// big is known once no later one may be linked.
const ONE_SMALL_CARD: [Step; 6] = [
    (
        Literal::NotLinked {
            instance: 0,
            port: 0,
            to: 0,
        },
        OPEN,
    ),
    (
        Literal::FreshAtLeast {
            instance: 0,
            port: 0,
            from: 1,
            count: 1,
        },
        OPEN,
    ),
    (Literal::Made { instance: 1 }, OPEN),
    (
        Literal::AtMost {
            instance: 1,
            attr: 0,
            value: 9,
        },
        Told {
            load: Kleene::True,
            strong: Kleene::False,
            some_big: Kleene::Open,
        },
    ),
    (
        Literal::Kind {
            instance: 1,
            kind: 2,
        },
        Told {
            load: Kleene::True,
            strong: Kleene::False,
            some_big: Kleene::Open,
        },
    ),
    (
        Literal::FreshAtMost {
            instance: 0,
            port: 0,
            from: 2,
            count: 0,
        },
        Told {
            load: Kleene::True,
            strong: Kleene::False,
            some_big: Kleene::False,
        },
    ),
];

/// What a rule of the root type is at instance 0, if there is one of this number.
fn rule_at_root(problem: &Problem, p: &Partial, number: usize) -> Option<Kleene>
    requires { IsState problem.now p.now }
{
    let model = problem.model();
    let Some(rule) = model.rules.as_slice().get(number) else {
        return None;
    };
    if rule.kind != model.root {
        return None;
    }
    Some(truth_at(problem, p, &rule.holds, rule.kind, 0))
}

/// What each rule is at the rack.
fn told_at_root(problem: &Problem, p: &Partial) -> Option<Told>
    requires { IsState problem.now p.now }
{
    Some(Told {
        load: rule_at_root(problem, p, 0)?,
        strong: rule_at_root(problem, p, 1)?,
        some_big: rule_at_root(problem, p, 2)?,
    })
}

/// Takes each literal, after which the rules are what is expected.
fn take_each(
    rt: &impl Abort,
    problem: &Problem,
    p: &mut Partial,
    steps: &[Step],
    log: &mut ChangeLog,
) -> Result<(), Fail>
    requires { IsState problem.now p.old }
    ensures { IsState problem.now p.new }
{
    for (literal, told) in steps {
        take(problem, p, literal, log)?;
        assert_eq!(rt; told_at_root(problem, p), Some(*told));
    }
    Ok(())
}

#[test]
fn later_links_leave_rules_open(rt: HostRuntime) -> Result<(), Fail> {
    let alloc = rt.alloc();
    let problem = problem_of(alloc, CARD_RULES)?;
    let mut p = Partial::root(alloc, &problem)?;
    let mut log = ChangeLog::new(alloc);
    assert_eq!(rt; told_at_root(&problem, &p), Some(OPEN));
    take_each(&rt, &problem, &mut p, &ONE_BIG_CARD, &mut log)
}

#[test]
fn one_card_fails_a_rule_on_all(rt: HostRuntime) -> Result<(), Fail> {
    let alloc = rt.alloc();
    let problem = problem_of(alloc, CARD_RULES)?;
    let mut p = Partial::root(alloc, &problem)?;
    let mut log = ChangeLog::new(alloc);
    take_each(&rt, &problem, &mut p, &ONE_SMALL_CARD, &mut log)
}
