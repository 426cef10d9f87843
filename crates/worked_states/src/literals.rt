//! Which literals hold in a worked configuration.
use config_value::{Configuration, Literal};
use literal_book::holds_in;
use prod_model::Problem;
use std::alloc::Global;
use std::process::Abort;
use std::test::Fail;
use worked_models::models::BUSES;
use worked_models::satisfying::{answer_of, problem_of};

/// Types count from `Item` 0, `Rack` 1, `Card` 2, `Small` 3 to `Big` 4, the attributes are power 0
/// and bus 1, and the ports cards 0 and spare 1.
const RACK: &str =
    "preferred\n0 Rack cards:1,2 spare:\n1 Small power=3 bus=sata\n2 Big power=4 bus=sas\n";

/// A literal, and whether it holds.
type Row = (Literal, bool);

/// Literals of whether an instance is there, and of which types it is.
const OF_TYPES: [Row; 10] = [
    (Literal::Made { instance: 2 }, true),
    (Literal::Made { instance: 3 }, false),
    (
        Literal::Kind {
            instance: 1,
            kind: 3,
        },
        true,
    ),
    (
        Literal::Kind {
            instance: 1,
            kind: 2,
        },
        true,
    ),
    (
        Literal::Kind {
            instance: 1,
            kind: 4,
        },
        false,
    ),
    (
        Literal::Kind {
            instance: 3,
            kind: 0,
        },
        false,
    ),
    (
        Literal::Kind {
            instance: 0,
            kind: 9,
        },
        false,
    ),
    (
        Literal::NotKind {
            instance: 1,
            kind: 4,
        },
        true,
    ),
    (
        Literal::NotKind {
            instance: 1,
            kind: 2,
        },
        false,
    ),
    (
        Literal::NotKind {
            instance: 3,
            kind: 4,
        },
        false,
    ),
];

/// Literals of values, of instances that have the attribute.
const OF_VALUES: [Row; 9] = [
    (
        Literal::AtMost {
            instance: 1,
            attr: 0,
            value: 3,
        },
        true,
    ),
    (
        Literal::AtMost {
            instance: 1,
            attr: 0,
            value: 2,
        },
        false,
    ),
    (
        Literal::AtMost {
            instance: 0,
            attr: 0,
            value: 9,
        },
        false,
    ),
    (
        Literal::AtLeast {
            instance: 2,
            attr: 0,
            value: 4,
        },
        true,
    ),
    (
        Literal::AtLeast {
            instance: 2,
            attr: 0,
            value: 5,
        },
        false,
    ),
    (
        Literal::AtLeast {
            instance: 3,
            attr: 0,
            value: 0,
        },
        false,
    ),
    (
        Literal::ValueIsNot {
            instance: 2,
            attr: 1,
            value: 0,
        },
        true,
    ),
    (
        Literal::ValueIsNot {
            instance: 2,
            attr: 1,
            value: 1,
        },
        false,
    ),
    (
        Literal::ValueIsNot {
            instance: 0,
            attr: 1,
            value: 1,
        },
        false,
    ),
];

/// Literals of links to an instance, by a port that the instance has.
const OF_LINKS: [Row; 6] = [
    (
        Literal::Linked {
            instance: 0,
            port: 0,
            to: 2,
        },
        true,
    ),
    (
        Literal::Linked {
            instance: 0,
            port: 0,
            to: 3,
        },
        false,
    ),
    (
        Literal::Linked {
            instance: 1,
            port: 0,
            to: 2,
        },
        false,
    ),
    (
        Literal::NotLinked {
            instance: 0,
            port: 1,
            to: 2,
        },
        true,
    ),
    (
        Literal::NotLinked {
            instance: 0,
            port: 0,
            to: 1,
        },
        false,
    ),
    (
        Literal::NotLinked {
            instance: 1,
            port: 0,
            to: 2,
        },
        false,
    ),
];

/// Literals of numbers of links, and of those to instances from a number on.
const OF_COUNTS: [Row; 14] = [
    (
        Literal::LinksAtMost {
            instance: 0,
            port: 0,
            count: 2,
        },
        true,
    ),
    (
        Literal::LinksAtMost {
            instance: 0,
            port: 0,
            count: 1,
        },
        false,
    ),
    (
        Literal::LinksAtMost {
            instance: 1,
            port: 0,
            count: 9,
        },
        false,
    ),
    (
        Literal::LinksAtLeast {
            instance: 0,
            port: 0,
            count: 2,
        },
        true,
    ),
    (
        Literal::LinksAtLeast {
            instance: 0,
            port: 0,
            count: 3,
        },
        false,
    ),
    (
        Literal::LinksAtLeast {
            instance: 0,
            port: 1,
            count: 0,
        },
        true,
    ),
    (
        Literal::LinksAtLeast {
            instance: 1,
            port: 0,
            count: 0,
        },
        false,
    ),
    (
        Literal::FreshAtMost {
            instance: 0,
            port: 0,
            from: 2,
            count: 1,
        },
        true,
    ),
    (
        Literal::FreshAtMost {
            instance: 0,
            port: 0,
            from: 1,
            count: 1,
        },
        false,
    ),
    (
        Literal::FreshAtMost {
            instance: 1,
            port: 0,
            from: 2,
            count: 9,
        },
        false,
    ),
    (
        Literal::FreshAtLeast {
            instance: 0,
            port: 0,
            from: 2,
            count: 1,
        },
        true,
    ),
    (
        Literal::FreshAtLeast {
            instance: 0,
            port: 0,
            from: 3,
            count: 1,
        },
        false,
    ),
    (
        Literal::FreshAtLeast {
            instance: 0,
            port: 0,
            from: 3,
            count: 0,
        },
        true,
    ),
    (
        Literal::FreshAtLeast {
            instance: 1,
            port: 0,
            from: 0,
            count: 0,
        },
        false,
    ),
];

fn check_rows(rt: &impl Abort, problem: &Problem, c: &Configuration, rows: &[Row]) {
    for (literal, want) in rows {
        assert_eq!(rt; holds_in(problem, literal, c), *want, "{literal:?}");
    }
}

fn check_in_rack(
    rt: &impl Abort,
    alloc: Global,
    problem: &Problem,
    rows: &[Row],
) -> Result<(), Fail> {
    let c = answer_of(alloc, problem, RACK)?;
    check_rows(rt, problem, &c, rows);
    Ok(())
}

fn check_literals(rt: &impl Abort, alloc: Global, rows: &[Row]) -> Result<(), Fail> {
    let problem = problem_of(alloc, BUSES)?;
    let checked = check_in_rack(rt, alloc, &problem, rows);
    drop(problem);
    checked
}

#[test]
fn tells_types(rt: HostRuntime) -> Result<(), Fail> {
    check_literals(&rt, rt.alloc(), &OF_TYPES)
}

#[test]
fn tells_values(rt: HostRuntime) -> Result<(), Fail> {
    check_literals(&rt, rt.alloc(), &OF_VALUES)
}

#[test]
fn tells_links(rt: HostRuntime) -> Result<(), Fail> {
    check_literals(&rt, rt.alloc(), &OF_LINKS)
}

#[test]
fn tells_counts(rt: HostRuntime) -> Result<(), Fail> {
    check_literals(&rt, rt.alloc(), &OF_COUNTS)
}
