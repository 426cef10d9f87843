//! What is told of expressions about the small model, with values by hand.
ghost use Rattle.std.specs.Prelude.{◌<◌};

use crate::bounds_of;
use crate::formed::is_formed;
use crate::sample::Sample;
use model_literals::two;
use prod_model::{Boxed, Expr, Relation};
use std::alloc::{AllocError, Global};

/// The bounds or the first fault of an expression at a type of the small model.
fn told(alloc: Global, expr: &Expr, at: u32) -> Result<String, AllocError>
    requires { at < 3 }
{
    let sample = Sample::new(alloc)?;
    if !is_formed(expr) {
        return String::from_str(alloc, "no form");
    }
    let outcome = bounds_of(alloc, &sample.model, &sample.tables, expr, at);
    format!(in alloc; "{outcome:?}")
}

/// Whether this is told of an expression at the type Box.
fn tells(alloc: Global, expr: Result<Expr, AllocError>, want: &str) -> Result<bool, AllocError> {
    let expr = expr?;
    let text = told(alloc, &expr, 0)?;
    Ok(text.as_str() == want)
}

/// Whether this is told of an expression at the type Blue.
fn tells_at_blue(alloc: Global, expr: Expr, want: &str) -> Result<bool, AllocError> {
    let text = told(alloc, &expr, 2)?;
    Ok(text.as_str() == want)
}

fn boxed(alloc: Global, e: Result<Expr, AllocError>) -> Result<Boxed<Expr>, AllocError> {
    Boxed::new(alloc, e?)
}

fn times(alloc: Global, factor: i64, e: Result<Expr, AllocError>) -> Result<Expr, AllocError> {
    Ok(Expr::Times(factor, boxed(alloc, e)?))
}

fn sub(alloc: Global, a: Expr, b: Expr) -> Result<Expr, AllocError> {
    let a = boxed(alloc, Ok(a))?;
    Ok(Expr::Sub(a, boxed(alloc, Ok(b))?))
}

fn at_least(
    alloc: Global,
    a: Result<Expr, AllocError>,
    b: Result<Expr, AllocError>,
) -> Result<Expr, AllocError> {
    let a = boxed(alloc, a)?;
    Ok(Expr::Cmp(Relation::AtLeast, a, boxed(alloc, b)?))
}

fn add(alloc: Global, a: Expr, b: Expr) -> Result<Expr, AllocError> {
    Ok(Expr::Add(two(alloc, a, b)?))
}

fn both(alloc: Global, a: Expr, b: Expr) -> Result<Expr, AllocError> {
    Ok(Expr::And(two(alloc, a, b)?))
}

fn either(alloc: Global, a: Expr, b: Expr) -> Result<Expr, AllocError> {
    Ok(Expr::Or(two(alloc, a, b)?))
}

fn implied(alloc: Global, a: Expr, b: Expr) -> Result<Expr, AllocError> {
    let a = boxed(alloc, Ok(a))?;
    Ok(Expr::If(a, boxed(alloc, Ok(b))?))
}

fn all(alloc: Global, port: u32, e: Result<Expr, AllocError>) -> Result<Expr, AllocError> {
    Ok(Expr::All(port, boxed(alloc, e)?))
}

fn any(alloc: Global, port: u32, e: Result<Expr, AllocError>) -> Result<Expr, AllocError> {
    Ok(Expr::Any(port, boxed(alloc, e)?))
}

/// An expression below so many negations.
fn negated(alloc: Global, count: u32, e: Expr) -> Result<Expr, AllocError> {
    let mut expr = e;
    for _ in 0..count {
        expr = Expr::Not(Boxed::new(alloc, expr)?);
    }
    Ok(expr)
}

#[test]
fn tells_bounds_of_forms_without_arguments(rt: HostRuntime) -> Result<(), AllocError> {
    let alloc = rt.alloc();
    for (expr, want) in [
        (Expr::Num(7), "Ok(Number { low: 7, high: 7 })"),
        (Expr::Attr(0), "Ok(Number { low: -4, high: 1000000 })"),
        (Expr::Count(0), "Ok(Number { low: 2, high: 3 })"),
        (Expr::CountOf(0, 2), "Ok(Number { low: 0, high: 3 })"),
        (Expr::Sum(0, 2), "Ok(Number { low: -15, high: 21 })"),
        (Expr::Sum(0, 3), "Ok(Number { low: -27, high: -6 })"),
        (Expr::Total(1, 3), "Ok(Number { low: -45, high: 0 })"),
        (Expr::Number(1), "Ok(Number { low: 0, high: 5 })"),
        (Expr::Is(1, 2), "Ok(Truth)"),
        (Expr::Kind(2), "Ok(Truth)"),
    ] {
        assert!(rt; tells(alloc, Ok(expr), want)?, "{want}");
    }
    Ok(())
}

#[test]
fn tells_faults_of_forms_without_arguments(rt: HostRuntime) -> Result<(), AllocError> {
    let alloc = rt.alloc();
    for (expr, want) in [
        (Expr::Attr(2), "Err(UnknownName(Items { items: [1] }))"),
        (Expr::Attr(1), "Err(WrongKind(Items { items: [1] }))"),
        (Expr::Count(1), "Err(UnknownName(Items { items: [1] }))"),
        (
            Expr::CountOf(0, 3),
            "Err(UnknownName(Items { items: [2] }))",
        ),
        (Expr::Sum(0, 0), "Err(UnknownName(Items { items: [2] }))"),
        (Expr::Total(0, 1), "Err(WrongKind(Items { items: [2] }))"),
        (Expr::Number(3), "Err(UnknownName(Items { items: [1] }))"),
        (Expr::Is(1, 3), "Err(UnknownName(Items { items: [2] }))"),
        (Expr::Is(0, 0), "Err(WrongKind(Items { items: [1] }))"),
        (
            Expr::Num(1_000_000_000_000_001),
            "Err(Wide(Items { items: [] }))",
        ),
    ] {
        assert!(rt; tells(alloc, Ok(expr), want)?, "{want}");
    }
    Ok(())
}

#[test]
fn tells_what_a_type_narrows(rt: HostRuntime) -> Result<(), AllocError> {
    let alloc = rt.alloc();
    assert!(rt; tells_at_blue(alloc, Expr::Count(0), "Ok(Number { low: 2, high: 2 })")?);
    assert!(rt; tells_at_blue(alloc, Expr::Is(1, 0), "Ok(Truth)")?);
    Ok(())
}

#[test]
fn tells_bounds_of_numbers(rt: HostRuntime) -> Result<(), AllocError> {
    let alloc = rt.alloc();
    let minus = times(alloc, -2, Ok(Expr::Count(0)));
    assert!(rt; tells(alloc, minus, "Ok(Number { low: -6, high: -4 })")?);
    let far = times(alloc, 1_000_000_000, Ok(Expr::Attr(0)));
    assert!(rt;
        tells(
            alloc,
            far,
            "Ok(Number { low: -4000000000, high: 1000000000000000 })"
        )?
    );
    let sum = add(alloc, Expr::Attr(0), Expr::Count(0));
    assert!(rt; tells(alloc, sum, "Ok(Number { low: -2, high: 1000003 })")?);
    let less = sub(alloc, Expr::Count(0), Expr::Attr(0));
    assert!(rt; tells(alloc, less, "Ok(Number { low: -999998, high: 7 })")?);
    Ok(())
}

#[test]
fn tells_truths(rt: HostRuntime) -> Result<(), AllocError> {
    let alloc = rt.alloc();
    let power = all(
        alloc,
        0,
        at_least(alloc, Ok(Expr::Attr(2)), Ok(Expr::Num(1))),
    );
    assert!(rt; tells(alloc, power, "Ok(Truth)")?);
    let width = any(
        alloc,
        0,
        at_least(alloc, Ok(Expr::Attr(0)), Ok(Expr::Num(1))),
    );
    assert!(rt; tells(alloc, width, "Err(UnknownName(Items { items: [2, 1, 1] }))")?);
    assert!(rt;
        tells(
            alloc,
            both(alloc, Expr::Kind(0), Expr::Is(1, 2)),
            "Ok(Truth)"
        )?
    );
    assert!(rt;
        tells(
            alloc,
            implied(alloc, Expr::Kind(0), Expr::Kind(1)),
            "Ok(Truth)"
        )?
    );
    Ok(())
}

#[test]
fn tells_the_first_fault(rt: HostRuntime) -> Result<(), AllocError> {
    let alloc = rt.alloc();
    let number = either(alloc, Expr::Kind(0), Expr::Count(0));
    assert!(rt; tells(alloc, number, "Err(WrongKind(Items { items: [2] }))")?);
    let inside = negated(alloc, 2, Expr::Kind(9));
    assert!(rt;
        tells(
            alloc,
            inside,
            "Err(UnknownName(Items { items: [1, 1, 1] }))"
        )?
    );
    let unknown_later = both(alloc, Expr::Count(0), Expr::Kind(9));
    assert!(rt;
        tells(
            alloc,
            unknown_later,
            "Err(UnknownName(Items { items: [2, 1] }))"
        )?
    );
    Ok(())
}

#[test]
fn tells_what_is_wide(rt: HostRuntime) -> Result<(), AllocError> {
    let alloc = rt.alloc();
    let wide = times(alloc, 1_000_000_001, Ok(Expr::Attr(0)));
    let compared = at_least(alloc, wide, Ok(Expr::Num(1)));
    assert!(rt; tells(alloc, compared, "Err(Wide(Items { items: [1] }))")?);
    let wide = times(alloc, 1_000_000_001, Ok(Expr::Attr(0)));
    let wrong_later = at_least(alloc, wide, Ok(Expr::Kind(0)));
    assert!(rt; tells(alloc, wrong_later, "Err(WrongKind(Items { items: [2] }))")?);
    Ok(())
}

#[test]
fn tells_what_nests_too_deep(rt: HostRuntime) -> Result<(), AllocError> {
    let alloc = rt.alloc();
    let path = "Items { items: [1, 1, 1, 1, 1, 1, 1, 1, 1, 1, 1, 1, 1, 1, 1, 1] }";
    let unknown = format!(in alloc; "Err(UnknownName({path}))")?;
    assert!(rt; tells(alloc, negated(alloc, 15, Expr::Kind(9)), unknown.as_str())?);
    let deep = format!(in alloc; "Err(Deep({path}))")?;
    assert!(rt; tells(alloc, negated(alloc, 16, Expr::Kind(9)), deep.as_str())?);
    assert!(rt; tells(alloc, negated(alloc, 17, Expr::Kind(9)), deep.as_str())?);
    Ok(())
}
