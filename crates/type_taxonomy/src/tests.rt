//! Small forests worked out by hand. They are made as the tests run, so they go through
//! `build_few`, whose conditions are numbers that a test can find out.
mod answers;
mod inverses;
mod literals;

use crate::fault::TaxFault;
use crate::taxonomy::build;
use answers::{answer_text, built};
use literals::{Row, formed_box, kind, linked, many, plain, sized, worded};
use model_literals::{AttributeLiteral, PortLiteral, TypeLiteral, Values, model_of, two};
use prod_model::{Items, PortKind};
use std::alloc::Global;
use std::process::Abort;
use std::test::Fail;

fn check_each(rt: &impl Abort, alloc: Global, rows: &[Row]) -> Result<(), Fail> {
    for (types, wanted) in rows {
        let text = built(alloc, types)?;
        assert_eq!(rt; text.as_str(), *wanted);
    }
    Ok(())
}

const UNKNOWN: [Row; 3] = [
    (&[kind!(Some(7), [], [])], "UnknownParent { kind: 0 }"),
    (&[], ""),
    (
        &[
            kind!(None, [], []),
            kind!(None, [], [linked!(b"door", Part, 2, 0, 1, None)]),
        ],
        "UnknownParent { kind: 1 }",
    ),
];

#[test]
fn knows_parents_and_targets(rt: HostRuntime) -> Result<(), Fail> {
    check_each(&rt, rt.alloc(), &UNKNOWN)
}

#[test]
fn builds_a_formed_model(rt: HostRuntime) -> Result<(), Fail> {
    let alloc = rt.alloc();
    let model = formed_box(alloc)?;
    let unknown = matches!(
        build(alloc, &model),
        Err(TaxFault::UnknownParent { kind: 0 })
    );
    assert!(rt; unknown);
    Ok(())
}

const CIRCLES: [([Option<u32>; 4], &str); 6] = [
    ([None, Some(1), None, None], "Cycle { kind: 1 }"),
    ([None, Some(2), Some(1), None], "Cycle { kind: 1 }"),
    // The first type is below the circle, and not in it.
    ([Some(1), Some(2), Some(3), Some(1)], "Cycle { kind: 1 }"),
    ([Some(2), Some(0), Some(3), Some(2)], "Cycle { kind: 2 }"),
    (
        [Some(1), Some(2), Some(3), None],
        "( )( )( )( )( )( )( )( )",
    ),
    (
        [Some(1), Some(0), None, Some(4)],
        "UnknownParent { kind: 3 }",
    ),
];

/// The answer at types with these parents and nothing else.
fn built_over(alloc: Global, parents: &[Option<u32>]) -> Result<String, Fail> {
    let mut types = Items::new(alloc);
    for parent in parents {
        types.push(plain(alloc, *parent)?)?;
    }
    answer_text(alloc, &model_of(alloc, 0, 1, types))
}

#[test]
fn finds_circles(rt: HostRuntime) -> Result<(), Fail> {
    for (parents, wanted) in CIRCLES {
        let text = built_over(rt.alloc(), &parents)?;
        assert_eq!(rt; text.as_str(), wanted);
    }
    Ok(())
}

const ATTRIBUTES: [Row; 3] = [
    (
        &[
            kind!(None, [sized!(b"size", 1, 9)], []),
            kind!(
                Some(0),
                [worded!(b"colour", [b"red", b"blue", b"grey"])],
                []
            ),
            kind!(
                Some(1),
                [
                    sized!(b"weight", 0, 1),
                    worded!(b"colour", [b"grey", b"red"]),
                    sized!(b"size", 2, 5),
                ],
                []
            ),
        ],
        "( 0:1..9 )( 0:1..9 1:red|blue|grey| )( 0:2..5 1:grey|red| 2:0..1 )( )( )( )",
    ),
    (
        &[
            kind!(Some(1), [sized!(b"low", 0, 1), sized!(b"size", 3, 4)], []),
            kind!(None, [sized!(b"size", 1, 9)], []),
        ],
        "( 1:3..4 0:0..1 )( 1:1..9 )( )( )",
    ),
    // Two trees.
    (
        &[
            kind!(None, [sized!(b"size", 1, 2)], []),
            kind!(None, [sized!(b"size", 5, 6)], []),
            kind!(Some(1), [sized!(b"low", 0, 0)], []),
        ],
        "( 0:1..2 )( 1:5..6 )( 1:5..6 2:0..0 )( )( )( )",
    ),
];

#[test]
fn inherits_and_narrows_attributes(rt: HostRuntime) -> Result<(), Fail> {
    check_each(&rt, rt.alloc(), &ATTRIBUTES)
}

const PORTS: [Row; 1] = [(
    &[
        kind!(None, [], [linked!(b"door", Part, 1, 0, 4, None)]),
        kind!(None, [], []),
        kind!(
            Some(0),
            [],
            [
                linked!(b"lamp", Shared, 0, 0, 1, None),
                linked!(b"door", Part, 3, 1, 2, None),
            ]
        ),
        kind!(Some(1), [], []),
    ],
    "( )( )( )( )( 0:part 1 0..4 )( )( 0:part 3 1..2 1:shared 0 0..1 )( )",
)];

#[test]
fn inherits_and_narrows_ports(rt: HostRuntime) -> Result<(), Fail> {
    check_each(&rt, rt.alloc(), &PORTS)
}

const WIDE_ATTRIBUTE: &str = "Widening { kind: 1, port: false, place: 0 }";

const SIZE: TypeLiteral<'static> = kind!(None, [sized!(b"size", 1, 9)], []);

const RANGES: [Row; 6] = [
    (
        &[SIZE, kind!(Some(0), [sized!(b"size", 0, 5)], [])],
        WIDE_ATTRIBUTE,
    ),
    (
        &[SIZE, kind!(Some(0), [sized!(b"size", 5, 10)], [])],
        WIDE_ATTRIBUTE,
    ),
    (
        &[SIZE, kind!(Some(0), [worded!(b"size", [b"red"])], [])],
        WIDE_ATTRIBUTE,
    ),
    (
        &[SIZE, kind!(Some(0), [sized!(b"size", 1, 9)], [])],
        "( 0:1..9 )( 0:1..9 )( )( )",
    ),
    (
        &[SIZE, kind!(Some(0), [sized!(b"size", 4, 4)], [])],
        "( 0:1..9 )( 0:4..4 )( )( )",
    ),
    // A type below narrows what was widened above it, and stands first in the file.
    (
        &[
            kind!(Some(1), [sized!(b"size", 2, 3)], []),
            kind!(Some(2), [sized!(b"size", 0, 9)], []),
            kind!(None, [sized!(b"size", 1, 8)], []),
        ],
        WIDE_ATTRIBUTE,
    ),
];

#[test]
fn refuses_wider_ranges(rt: HostRuntime) -> Result<(), Fail> {
    check_each(&rt, rt.alloc(), &RANGES)
}

const COLOUR: TypeLiteral<'static> = kind!(None, [worded!(b"colour", [b"red", b"blue"])], []);

const WORDS: [Row; 4] = [
    (
        &[
            COLOUR,
            kind!(Some(0), [worded!(b"colour", [b"blue", b"green"])], []),
        ],
        WIDE_ATTRIBUTE,
    ),
    (
        &[COLOUR, kind!(Some(0), [sized!(b"colour", 0, 1)], [])],
        WIDE_ATTRIBUTE,
    ),
    (
        &[COLOUR, kind!(Some(0), [worded!(b"colour", [b"blue"])], [])],
        "( 0:red|blue| )( 0:blue| )( )( )",
    ),
    (
        &[
            COLOUR,
            kind!(Some(0), [worded!(b"colour", [b"blue", b"red"])], []),
        ],
        "( 0:red|blue| )( 0:blue|red| )( )( )",
    ),
];

#[test]
fn refuses_wider_words(rt: HostRuntime) -> Result<(), Fail> {
    check_each(&rt, rt.alloc(), &WORDS)
}

/// Where a type declares a name in the other sort than its parent does, and its child narrows it,
/// it is the type that widens, and not the child, which comes first in the file.
const NEAREST: [Row; 3] = [
    (
        &[
            kind!(Some(1), [sized!(b"x", 0, 1)], []),
            kind!(Some(2), [sized!(b"x", 0, 1)], []),
            kind!(None, [], [linked!(b"x", Part, 2, 0, 1, None)]),
        ],
        WIDE_ATTRIBUTE,
    ),
    (
        &[
            kind!(Some(1), [], [linked!(b"x", Part, 2, 0, 1, None)]),
            kind!(Some(2), [], [linked!(b"x", Part, 2, 0, 1, None)]),
            kind!(None, [sized!(b"x", 0, 1)], []),
        ],
        "Widening { kind: 1, port: true, place: 0 }",
    ),
    // The grandchild is compared with the child, past a type that declares nothing.
    (
        &[
            kind!(Some(1), [sized!(b"x", 0, 5)], []),
            kind!(Some(2), [], []),
            kind!(Some(3), [sized!(b"x", 1, 5)], []),
            kind!(None, [sized!(b"x", 0, 9)], []),
        ],
        "Widening { kind: 0, port: false, place: 0 }",
    ),
];

#[test]
fn compares_with_the_nearest(rt: HostRuntime) -> Result<(), Fail> {
    check_each(&rt, rt.alloc(), &NEAREST)
}

/// A type with a door, three types below it, the last of which declares the door again, and one
/// below the first of them.
macro_rules! doors {
    ($kind:ident, $target:expr, $low:expr, $high:expr) => {
        &[
            kind!(None, [], [linked!(b"door", Part, 1, 1, 3, None)]),
            kind!(Some(0), [], []),
            kind!(Some(0), [], []),
            kind!(
                Some(0),
                [],
                [linked!(b"door", $kind, $target, $low, $high, None)]
            ),
            kind!(Some(1), [], []),
        ]
    };
}

const WIDE_PORT: &str = "Widening { kind: 3, port: true, place: 0 }";

const DOORS: [Row; 7] = [
    (doors!(Shared, 1, 1, 3), WIDE_PORT),
    (doors!(Part, 1, 0, 3), WIDE_PORT),
    (doors!(Part, 1, 1, 4), WIDE_PORT),
    (
        doors!(Part, 1, 2, 2),
        "( )( )( )( )( )( 0:part 1 1..3 )( 0:part 1 1..3 )( 0:part 1 1..3 )\
        ( 0:part 1 2..2 )( 0:part 1 1..3 )",
    ),
    // A sibling of the target, its parent, and a type under it.
    (doors!(Part, 2, 1, 3), WIDE_PORT),
    (doors!(Part, 0, 1, 3), WIDE_PORT),
    (
        doors!(Part, 4, 1, 3),
        "( )( )( )( )( )( 0:part 1 1..3 )( 0:part 1 1..3 )( 0:part 1 1..3 )\
        ( 0:part 4 1..3 )( 0:part 1 1..3 )",
    ),
];

#[test]
fn refuses_wider_ports(rt: HostRuntime) -> Result<(), Fail> {
    check_each(&rt, rt.alloc(), &DOORS)
}

const SORTS: [Row; 2] = [
    (
        &[
            kind!(None, [], [linked!(b"door", Part, 0, 1, 3, None)]),
            kind!(Some(0), [sized!(b"size", 0, 1), sized!(b"door", 0, 1)], []),
        ],
        "Widening { kind: 1, port: false, place: 1 }",
    ),
    (
        &[
            kind!(None, [sized!(b"door", 0, 1)], []),
            kind!(Some(0), [], [linked!(b"door", Part, 0, 1, 3, None)]),
        ],
        "Widening { kind: 1, port: true, place: 0 }",
    ),
];

#[test]
fn tells_attributes_from_ports(rt: HostRuntime) -> Result<(), Fail> {
    check_each(&rt, rt.alloc(), &SORTS)
}

/// The attributes and the ports of a type, and those that a type under it adds, and whether these
/// are too many.
const COUNTS: [((u8, u8), (u8, u8), bool); 10] = [
    ((20, 0), (13, 0), true),
    ((20, 0), (12, 0), false),
    ((0, 0), (33, 0), true),
    ((32, 0), (0, 0), false),
    ((0, 10), (0, 7), true),
    ((0, 10), (0, 6), false),
    ((0, 0), (0, 17), true),
    ((0, 16), (0, 0), false),
    ((32, 16), (0, 0), false),
    ((32, 10), (0, 7), true),
];

/// The answer at a type of so many attributes and ports, and one under it that adds so many.
fn built_of(alloc: Global, above: (u8, u8), below: (u8, u8)) -> Result<String, Fail> {
    let types = two(
        alloc,
        many(alloc, None, b'x', above)?,
        many(alloc, Some(0), b'y', below)?,
    )?;
    answer_text(alloc, &model_of(alloc, 0, 1, types))
}

/// Whether the second type is told crowded, and not the tables.
fn is_crowded(text: &str) -> Option<bool> {
    if text == "Crowded { kind: 1 }" {
        return Some(true);
    }
    if text.starts_with("( ") {
        Some(false)
    } else {
        None
    }
}

/// A type may have 32 attributes and 16 ports, inherited ones included.
#[test]
fn counts_inherited_entries(rt: HostRuntime) -> Result<(), Fail> {
    for (above, below, crowded) in COUNTS {
        let text = built_of(rt.alloc(), above, below)?;
        assert_eq!(rt; is_crowded(text.as_str()), Some(crowded));
    }
    Ok(())
}

/// A chain of as many types as a model may have, with as many declarations: each narrows what the
/// one before has.
#[test]
fn builds_a_long_chain(rt: HostRuntime) -> Result<(), Fail> {
    let alloc = rt.alloc();
    let mut types = Items::new(alloc);
    for t in 0..128u32 {
        types.push(many(alloc, t.checked_sub(1), b'x', (2, 0))?)?;
    }
    let text = answer_text(alloc, &model_of(alloc, 0, 1, types))?;
    assert!(rt;
        text.as_str()
            .starts_with("( 0:0..1 1:0..1 )( 0:0..1 1:0..1 )")
    );
    // So long is that row and one with no port, for each type.
    assert_eq!(rt; text.len(), 128 * (17 + 3));
    Ok(())
}
