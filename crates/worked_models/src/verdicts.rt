//! Verdicts on answers, worked out by hand: each test broken alone, and pairs that show the order
//! of the tests.
use crate::models::{
    BOXES, COLOURS, FEW_CARDS, HOMES, NODE_PARTS, NODE_USES, ONE_CARD, PEERS, RACKS, RULED_CARDS,
    SHARED_DRIVERS, TWO_PORTS,
};
use crate::satisfying::{answer_of, problem_of};
use answer_check::{Verdict, check};
use prod_model::Problem;
use std::alloc::Global;
use std::process::Abort;
use std::test::Fail;

/// The verdict on an answer whose lines these are.
fn verdict_of(alloc: Global, problem: &Problem, lines: &str) -> Result<Verdict, Fail> {
    let answer = answer_of(alloc, problem, lines)?;
    let told = check(problem, &answer);
    drop(answer);
    Ok(told)
}

fn verdict(alloc: Global, model: &str, lines: &str) -> Result<Verdict, Fail> {
    let problem = problem_of(alloc, model)?;
    let told = verdict_of(alloc, &problem, lines);
    drop(problem);
    told
}

/// The answer has the verdict that is wanted.
fn check_verdict(
    rt: &impl Abort,
    alloc: Global,
    model: &str,
    lines: &str,
    want: Verdict,
) -> Result<(), Fail> {
    let told = verdict(alloc, model, lines)?;
    assert_eq!(rt; told, want, "{model} {lines}");
    Ok(())
}

/// A model, the lines of an answer, and the code, the instance and the item of the test that is
/// told.
type Row = (&'static str, &'static str, u32, u32, u32);

fn check_broken(rt: &impl Abort, alloc: Global, rows: &[Row]) -> Result<(), Fail> {
    for (model, lines, code, instance, item) in rows {
        let want = Verdict::Broken {
            code: *code,
            instance: *instance,
            item: *item,
        };
        check_verdict(rt, alloc, model, lines, want)?;
    }
    Ok(())
}

const SATISFIED: [(&str, &str); 11] = [
    (BOXES, "preferred\n0 Box width=2\n"),
    (COLOURS, "preferred\n0 Blue colour=blue\n"),
    (TWO_PORTS, "preferred\n0 Rack left: right:1\n1 Card\n"),
    (
        TWO_PORTS,
        "preferred\n0 Rack left:1 right:2\n1 Card\n2 Card\n",
    ),
    (ONE_CARD, "preferred\n0 Rack left: right:1\n1 Card\n"),
    (
        SHARED_DRIVERS,
        "preferred\n0 Rack cards:1,2\n1 Card driver:3\n2 Card driver:3\n3 Driver\n",
    ),
    (NODE_USES, "preferred\n0 Node next:0\n"),
    (
        RULED_CARDS,
        "preferred\n0 Rack cards:1,2\n1 Card power=5\n2 Card power=7\n",
    ),
    (
        RACKS,
        "preferred\n0 Rack price=50 cards:1,2\n1 Big price=18 power=12\n2 Big price=18 power=12\n",
    ),
    (
        HOMES,
        "preferred\n0 Rack cards:1,2\n1 Card home:0\n2 Card home:0\n",
    ),
    (PEERS, "preferred\n0 Node peers:0,1\n1 Node peers:0\n"),
];

#[test]
fn is_satisfied(rt: HostRuntime) -> Result<(), Fail> {
    for (model, lines) in &SATISFIED {
        check_verdict(&rt, rt.alloc(), model, lines, Verdict::Satisfied)?;
    }
    Ok(())
}

const BROKEN: [Row; 21] = [
    (BOXES, "preferred\n0 Box width=2\n1 Box width=2\n", 1, 1, 0),
    (TWO_PORTS, "preferred\n0 Card\n", 2, 0, 0),
    (BOXES, "preferred\n0 Box width=4\n", 3, 0, 0),
    (BOXES, "preferred\n0 Box width=0\n", 3, 0, 0),
    (COLOURS, "preferred\n0 Blue colour=red\n", 3, 0, 0),
    (TWO_PORTS, "preferred\n0 Rack left:1 right:\n", 4, 0, 0),
    (TWO_PORTS, "preferred\n0 Rack left: right:1\n", 4, 0, 1),
    (
        TWO_PORTS,
        "preferred\n0 Rack left:1 right:\n1 Rack left: right:\n",
        5,
        0,
        0,
    ),
    (
        SHARED_DRIVERS,
        "preferred\n0 Rack cards:1\n1 Card driver:2\n2 Driver\n",
        6,
        0,
        0,
    ),
    (
        NODE_USES,
        "preferred\n0 Node next:0,1\n1 Node next:0\n",
        6,
        0,
        0,
    ),
    // Both ports hold card 2, each of them once.
    (
        TWO_PORTS,
        "preferred\n0 Rack left:1,2 right:2\n1 Card\n2 Card\n",
        7,
        2,
        0,
    ),
    (NODE_PARTS, "preferred\n0 Node next:0\n", 7, 0, 0),
    // The card links another rack than the one that holds it.
    (
        HOMES,
        "preferred\n0 Rack cards:1\n1 Card home:2\n2 Rack cards:\n",
        12,
        0,
        0,
    ),
    (
        PEERS,
        "preferred\n0 Node peers:1\n1 Node peers:\n",
        12,
        0,
        0,
    ),
    (
        TWO_PORTS,
        "preferred\n0 Rack left:2 right:1\n1 Card\n2 Card\n",
        8,
        2,
        0,
    ),
    (
        TWO_PORTS,
        "preferred\n0 Rack left:1 right:\n1 Card\n2 Card\n",
        8,
        2,
        0,
    ),
    // A higher instance alone links it.
    (
        NODE_USES,
        "preferred\n0 Node next:0\n1 Node next:2\n2 Node next:1\n",
        8,
        1,
        0,
    ),
    (ONE_CARD, "preferred\n0 Rack left: right:\n", 9, 0, 0),
    (
        ONE_CARD,
        "preferred\n0 Rack left:1 right:2\n1 Card\n2 Card\n",
        9,
        0,
        0,
    ),
    (
        RULED_CARDS,
        "preferred\n0 Rack cards:1\n1 Card power=4\n",
        10,
        1,
        0,
    ),
    (
        RACKS,
        "preferred\n0 Rack price=50 cards:1,2,3\n1 Big price=18 power=12\n\
        2 Big price=18 power=12\n3 Big price=18 power=12\n",
        10,
        0,
        0,
    ),
];

#[test]
fn breaks_one_test(rt: HostRuntime) -> Result<(), Fail> {
    check_broken(&rt, rt.alloc(), &BROKEN)
}

/// Of two tests that an answer breaks the one of the lesser code is told, but that of links back,
/// 12, between 7 and 8, wherever it is broken; then the one of the lower instance, and then of the
/// lesser item.
const FIRST_BROKEN: [Row; 15] = [
    (
        TWO_PORTS,
        "preferred\n0 Card\n1 Card\n2 Card\n3 Card\n",
        1,
        3,
        0,
    ),
    (RULED_CARDS, "preferred\n0 Card power=10\n", 2, 0, 0),
    (
        RULED_CARDS,
        "preferred\n0 Rack cards:2\n1 Card power=10\n",
        3,
        1,
        0,
    ),
    (
        TWO_PORTS,
        "preferred\n0 Rack left:1 right:\n1 Rack left: right:2\n",
        4,
        1,
        1,
    ),
    (
        SHARED_DRIVERS,
        "preferred\n0 Rack cards:1,2\n1 Card driver:2\n2 Card driver:7\n",
        4,
        2,
        0,
    ),
    (
        SHARED_DRIVERS,
        "preferred\n0 Rack cards:1\n1 Card driver:0\n",
        5,
        1,
        0,
    ),
    (
        NODE_PARTS,
        "preferred\n0 Node next:0,1\n1 Node next:1\n",
        6,
        0,
        0,
    ),
    (
        TWO_PORTS,
        "preferred\n0 Rack left:2 right:2\n1 Card\n2 Card\n",
        7,
        2,
        0,
    ),
    // Two racks hold the card, which links one of them.
    (
        HOMES,
        "preferred\n0 Rack cards:1\n1 Card home:0\n2 Rack cards:1\n",
        7,
        1,
        0,
    ),
    // The rack that the card links doesn't hold it, and so doesn't mention it.
    (HOMES, "preferred\n0 Rack cards:\n1 Card home:0\n", 12, 1, 0),
    (
        ONE_CARD,
        "preferred\n0 Rack left:2 right:1\n1 Card\n2 Card\n",
        8,
        2,
        0,
    ),
    (
        FEW_CARDS,
        "preferred\n0 Rack price=50 cards:1,2,3\n1 Big price=18 power=12\n\
        2 Big price=18 power=12\n3 Big price=18 power=12\n",
        9,
        0,
        0,
    ),
    // The first link of the port is to a card, and the other one to no instance.
    (
        TWO_PORTS,
        "preferred\n0 Rack left:1,2 right:3\n1 Card\n",
        4,
        0,
        0,
    ),
    // The lower instance breaks the later rule.
    (
        RULED_CARDS,
        "preferred\n0 Rack cards:1,2\n1 Card power=8\n2 Card power=3\n",
        10,
        1,
        1,
    ),
    (
        RULED_CARDS,
        "preferred\n0 Rack cards:1,2\n1 Card power=0\n2 Card power=10\n",
        3,
        1,
        0,
    ),
];

#[test]
fn tells_the_first_broken_test(rt: HostRuntime) -> Result<(), Fail> {
    check_broken(&rt, rt.alloc(), &FIRST_BROKEN)
}
