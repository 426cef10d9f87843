//! What the trail of a worked rack says of its instances.
ghost use Rattle.std.specs.Prelude.{◌<◌};
ghost use Rattle.state_space.specs.State.{number_made};

use config_value::Literal;
use literal_book::Literals;
use reason_trail::{Reason, Trail};
use std::alloc::{AllocError, Global};
use std::process::Abort;
use std::test::Fail;
use worked_racks::literals::{AT_MOST_100, CARD_MADE, CARD_OWED, NOT_7, RACK_MADE};
use worked_racks::racks::{NO_REQUESTS, assume_each, rack_trail};

const NOT_SMALL: Literal = Literal::NotKind {
    instance: 0,
    kind: 3,
};

const NOT_BIG: Literal = Literal::NotKind {
    instance: 0,
    kind: 4,
};

const AT_LEAST_0: Literal = Literal::AtLeast {
    instance: 0,
    attr: 0,
    value: 0,
};

const LATER_AT_LEAST_0: Literal = Literal::FreshAtLeast {
    instance: 0,
    port: 0,
    from: 1,
    count: 0,
};

const LATER_AT_MOST_4: Literal = Literal::FreshAtMost {
    instance: 0,
    port: 0,
    from: 1,
    count: 4,
};

/// The rack is no card, has a price from 0 to 100, and links up to four later cards.
const WHOLE: [Literal; 7] = [
    RACK_MADE,
    NOT_SMALL,
    NOT_BIG,
    AT_LEAST_0,
    AT_MOST_100,
    LATER_AT_LEAST_0,
    LATER_AT_MOST_4,
];

/// What of an instance is described.
#[derive(Clone, Copy, Debug)]
enum Part {
    Kinds,
    Attribute(u32),
    Port(u32),
    Counts(u32),
}

/// A part of the rack, and its description.
type Described = (Part, &'static [Literal]);

/// It has no power, so nothing is said of that. Its links are at most itself and four later ones.
const AT_FIRST: [Described; 5] = [
    (Part::Kinds, &[RACK_MADE, NOT_SMALL, NOT_BIG]),
    (Part::Attribute(0), &[AT_LEAST_0, AT_MOST_100]),
    (Part::Attribute(1), &[]),
    (Part::Port(0), &[LATER_AT_LEAST_0, LATER_AT_MOST_4]),
    (
        Part::Counts(0),
        &[
            Literal::LinksAtLeast {
                instance: 0,
                port: 0,
                count: 0,
            },
            Literal::LinksAtMost {
                instance: 0,
                port: 0,
                count: 5,
            },
        ],
    ),
];

/// A price has been ruled out, and the first card is made and linked.
const LATER: [Described; 4] = [
    (Part::Kinds, &[RACK_MADE, NOT_SMALL, NOT_BIG]),
    (Part::Attribute(0), &[AT_LEAST_0, AT_MOST_100, NOT_7]),
    (
        Part::Port(0),
        &[
            Literal::Linked {
                instance: 0,
                port: 0,
                to: 1,
            },
            Literal::FreshAtLeast {
                instance: 0,
                port: 0,
                from: 2,
                count: 0,
            },
            Literal::FreshAtMost {
                instance: 0,
                port: 0,
                from: 2,
                count: 3,
            },
        ],
    ),
    (
        Part::Counts(0),
        &[
            Literal::LinksAtLeast {
                instance: 0,
                port: 0,
                count: 1,
            },
            Literal::LinksAtMost {
                instance: 0,
                port: 0,
                count: 5,
            },
        ],
    ),
];

fn append(trail: &Trail, part: Part, into: &mut Literals) -> Result<(), AllocError>
    requires { 0 < number_made trail.now.state }
{
    match part {
        Part::Kinds => trail.describe_kinds(0, into),
        Part::Attribute(a) => trail.describe_attribute(0, a, into),
        Part::Port(p) => trail.describe_port(0, p, into),
        Part::Counts(p) => trail.describe_counts(0, p, into),
    }
}

/// The description of a part, appended to one literal.
fn appended(alloc: Global, trail: &Trail, part: Part) -> Result<Literals, Fail> {
    let mut literals = Literals::from_slice(alloc, &[CARD_MADE])?;
    if trail.state().made() == 0 {
        return Err(Fail::from("nothing is made"));
    }
    append(trail, part, &mut literals)?;
    Ok(literals)
}

fn check_parts(
    rt: &impl Abort,
    alloc: Global,
    trail: &Trail,
    parts: &[Described],
) -> Result<(), Fail> {
    for (part, want) in parts {
        let literals = appended(alloc, trail, *part)?;
        let Some((first, rest)) = literals.as_slice().split_first() else {
            return Err(Fail::from("what was there is gone"));
        };
        assert_eq!(rt; *first, CARD_MADE, "{part:?}");
        assert_eq!(rt; rest, *want, "{part:?}");
    }
    Ok(())
}

fn described(trail: &Trail) -> Result<Reason, Fail> {
    if trail.state().made() == 0 {
        return Err(Fail::from("nothing is made"));
    }
    Ok(trail.describe(0)?)
}

fn check_first(rt: &impl Abort, alloc: Global, trail: &Trail) -> Result<(), Fail> {
    let reason = described(trail)?;
    assert_eq!(rt; reason.requests, 0);
    assert!(rt; !reason.cut);
    assert_eq!(rt; reason.literals.as_slice(), WHOLE.as_slice());
    check_parts(rt, alloc, trail, &AT_FIRST)
}

#[test]
fn describes_the_first_rack(rt: HostRuntime) -> Result<(), Fail> {
    let trail = rack_trail(rt.alloc(), NO_REQUESTS)?;
    let checked = check_first(&rt, rt.alloc(), &trail);
    drop(trail);
    checked
}

fn check_later(rt: &impl Abort, alloc: Global, trail: &mut Trail) -> Result<(), Fail> {
    assume_each(trail, &[NOT_7, CARD_OWED, CARD_MADE])?;
    check_parts(rt, alloc, trail, &LATER)
}

#[test]
fn describes_a_rack_of_a_card(rt: HostRuntime) -> Result<(), Fail> {
    let mut trail = rack_trail(rt.alloc(), NO_REQUESTS)?;
    let checked = check_later(&rt, rt.alloc(), &mut trail);
    drop(trail);
    checked
}
