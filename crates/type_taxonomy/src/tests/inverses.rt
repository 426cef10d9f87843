//! Ports that are each other's inverse, worked out by hand.
use super::answers::{linked_text, write_all_ports};
use super::literals::{Row, formed_peer, kind, linked};
use crate::named_inverses::inverses;
use crate::taxonomy::build;
use model_literals::{PortLiteral, TypeLiteral};
use prod_model::PortKind;
use std::alloc::Global;
use std::process::Abort;
use std::test::Fail;

fn check_each(rt: &impl Abort, alloc: Global, rows: &[Row]) -> Result<(), Fail> {
    for (types, wanted) in rows {
        let text = linked_text(alloc, types)?;
        assert_eq!(rt; text.as_str(), *wanted);
    }
    Ok(())
}

const RACK: TypeLiteral<'static> = kind!(
    None,
    [],
    [linked!(b"cards", Part, 1, 0, 2, Some(b"home"))]
);

const CARD: TypeLiteral<'static> = kind!(
    None,
    [],
    [linked!(b"home", Shared, 0, 1, 1, Some(b"cards"))]
);

const PAIRS: [Row; 4] = [
    (&[RACK, CARD], "( 0:part 1 0..2 =1 )( 1:shared 0 1..1 =0 )"),
    // The target inherits the port.
    (
        &[
            kind!(None, [], [linked!(b"cards", Part, 2, 0, 2, Some(b"home"))]),
            CARD,
            kind!(Some(1), [], []),
        ],
        "( 0:part 2 0..2 =1 )( 1:shared 0 1..1 =0 )( 1:shared 0 1..1 =0 )",
    ),
    // A narrowed port keeps its inverse.
    (
        &[
            RACK,
            CARD,
            kind!(Some(0), [], [linked!(b"cards", Part, 1, 0, 1, None)]),
        ],
        "( 0:part 1 0..2 =1 )( 1:shared 0 1..1 =0 )( 0:part 1 0..1 =1 )",
    ),
    // A narrowing names none, not even the same.
    (
        &[
            RACK,
            CARD,
            kind!(
                Some(0),
                [],
                [linked!(b"cards", Part, 1, 0, 1, Some(b"home"))]
            ),
        ],
        "Bad { kind: 2, place: 0 }( 0:part 1 0..2 )( 1:shared 0 1..1 )( 0:part 1 0..1 )",
    ),
];

#[test]
fn gives_each_port_its_inverse(rt: HostRuntime) -> Result<(), Fail> {
    check_each(&rt, rt.alloc(), &PAIRS)
}

#[test]
fn links_a_formed_model(rt: HostRuntime) -> Result<(), Fail> {
    let alloc = rt.alloc();
    let model = formed_peer(alloc)?;
    let mut text = String::new(alloc);
    if let Ok(mut tables) = build(alloc, &model) {
        assert!(rt; inverses(&model, &mut tables).is_ok());
        write_all_ports(&mut text, &tables)?;
    }
    assert_eq!(rt; text.as_str(), "( 0:shared 0 0..1 =0 )");
    Ok(())
}

const PEERS: [Row; 2] = [
    (
        &[kind!(None, [], [linked!(b"peer", Shared, 0, 0, 4, Some(b"peer"))])],
        "( 0:shared 0 0..4 =0 )",
    ),
    (
        &[kind!(None, [], [linked!(b"peer", Part, 0, 0, 4, Some(b"peer"))])],
        "Bad { kind: 0, place: 0 }( 0:part 0 0..4 )",
    ),
];

#[test]
fn links_a_shared_port_with_itself(rt: HostRuntime) -> Result<(), Fail> {
    check_each(&rt, rt.alloc(), &PEERS)
}

/// A rack with a spare port and one for cards, and a card.
macro_rules! wrong {
    ($there:expr, $kind:ident, $back:expr) => {
        &[
            kind!(
                None,
                [],
                [
                    linked!(b"spare", Shared, 1, 0, 1, None),
                    linked!(b"cards", Part, 1, 0, 2, $there),
                ]
            ),
            kind!(None, [], [linked!(b"home", $kind, 0, 1, 1, $back)]),
        ]
    };
}

/// The tables stay as they are.
const STAYS: &str = "Bad { kind: 0, place: 1 }( 0:shared 1 0..1 1:part 1 0..2 )( 2:shared 0 1..1 )";

const WRONG: [Row; 4] = [
    // No port of that name, no inverse back, another one back, and two parts.
    (wrong!(Some(b"slot"), Shared, Some(b"cards")), STAYS),
    (wrong!(Some(b"home"), Shared, None), STAYS),
    (wrong!(Some(b"home"), Shared, Some(b"spare")), STAYS),
    (
        wrong!(Some(b"home"), Part, Some(b"cards")),
        "Bad { kind: 0, place: 1 }( 0:shared 1 0..1 1:part 1 0..2 )( 2:part 0 1..1 )",
    ),
];

#[test]
fn refuses_wrong_inverses(rt: HostRuntime) -> Result<(), Fail> {
    check_each(&rt, rt.alloc(), &WRONG)
}

const FIRST_WRONG: [Row; 1] = [(
    &[
        kind!(None, [], [linked!(b"peer", Shared, 0, 0, 4, Some(b"peer"))]),
        kind!(
            None,
            [],
            [
                linked!(b"shelf", Shared, 0, 0, 1, None),
                linked!(b"lamp", Shared, 0, 0, 1, Some(b"none")),
                linked!(b"door", Shared, 0, 0, 1, Some(b"none")),
            ]
        ),
        kind!(None, [], [linked!(b"rail", Shared, 0, 0, 1, Some(b"none"))]),
    ],
    "Bad { kind: 1, place: 1 }( 0:shared 0 0..4 )\
    ( 1:shared 0 0..1 2:shared 0 0..1 3:shared 0 0..1 )( 4:shared 0 0..1 )",
)];

#[test]
fn tells_the_first_wrong_inverse(rt: HostRuntime) -> Result<(), Fail> {
    check_each(&rt, rt.alloc(), &FIRST_WRONG)
}
