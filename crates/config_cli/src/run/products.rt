//! Products that are configured: what is preferred, and what clashes.
use super::examples::card_rack::MODEL as RACK;
use super::tests::{BOX, NO_CRITERIA, Row, check_row};
use crate::status::Status;
use std::alloc::{AllocError, Global};
use std::process::Abort;
use std::test::Fail;

/// A model, an order, and the answer.
pub(super) type Answered = (&'static str, &'static str, &'static str);

/// What is preferred.
const PREFERRED: [Answered; 6] = [
    (
        r#"{"format":"product-model 1","root":"Box","instances":1,
            "types":[{"name":"Box"},{"name":"Lid"}]}"#,
        NO_CRITERIA,
        "preferred\n0 Box\n",
    ),
    (
        r#"{"format":"product-model 1","root":"Box","instances":1,
            "types":[{"name":"Box","ports":[{"name":"lid","kind":"part","target":"Box",
            "links":[0,1]}]}]}"#,
        NO_CRITERIA,
        "preferred\n0 Box lid:\n",
    ),
    (
        r#"{"format":"product-model 1","root":"Box","instances":1,"types":[{"name":"Box",
            "attributes":[{"name":"colour","words":["red"]}]}],
            "bounds":[{"type":"Box","count":[1,1]}]}"#,
        NO_CRITERIA,
        "preferred\n0 Box colour=red\n",
    ),
    (
        BOX,
        r#"{"format":"order 1","requests":[{"name":"q","holds":["<",0,1]}],
            "criteria":[{"name":"c","minimise":["+",1,2]}]}"#,
        "preferred\n0 Box\n",
    ),
    (
        RACK,
        r#"{"format":"order 1",
            "requests":[{"name":"many","holds":[">=",["sum","cards","channels"],17]}],
            "criteria":[{"name":"few","minimise":["count","cards"]}]}"#,
        "preferred\n0 Rack price_eur=50 cards:1,2\n1 Small price_eur=10 channels=5\n\
            2 Big price_eur=18 channels=12\n",
    ),
    (
        RACK,
        r#"{"format":"order 1",
            "criteria":[{"name":"channels","maximise":["sum","cards","channels"]}]}"#,
        "preferred\n0 Rack price_eur=50 cards:1,2,3\n1 Small price_eur=10 channels=5\n\
            2 Big price_eur=18 channels=12\n3 Big price_eur=18 channels=12\n",
    ),
];

/// What clashes.
const CLASHES: [Answered; 3] = [
    (
        RACK,
        r#"{"format":"order 1","requests":[
            {"name":"few","holds":["<=",["count","cards"],1]},
            {"name":"small","holds":[">=",["number","Small"],2]},
            {"name":"many","holds":[">=",["sum","cards","channels"],20]}]}"#,
        "conflict 2\n1 few\n2 small\n",
    ),
    (
        RACK,
        r#"{"format":"order 1","requests":[
            {"name":"many","holds":[">=",["sum","cards","channels"],31]}]}"#,
        "conflict 1\n1 many\n",
    ),
    (
        r#"{"format":"product-model 1","root":"Box","instances":1,"types":[{"name":"Box"}],
            "rules":[{"name":"never","type":"Box","holds":["<",1,0]}]}"#,
        r#"{"format":"order 1","requests":[{"name":"q","holds":["<",0,1]}]}"#,
        "conflict 0\n",
    ),
];

/// Each is answered with its status and text.
pub(super) fn check_answered(
    rt: &impl Abort,
    alloc: Global,
    rows: &[Answered],
    status: Status,
) -> Result<(), AllocError> {
    for (model, order, text) in rows {
        let row = Row {
            shows: text,
            model,
            order,
            failing_read: None,
            failing_write: None,
            status,
            written: text,
        };
        check_row(rt, alloc, "configure model order", &row)?;
    }
    Ok(())
}

#[test]
fn prefers_the_least(rt: HostRuntime) -> Result<(), Fail> {
    Ok(check_answered(&rt, rt.alloc(), &PREFERRED, Status::Preferred)?)
}

#[test]
fn tells_which_requests_clash(rt: HostRuntime) -> Result<(), Fail> {
    Ok(check_answered(&rt, rt.alloc(), &CLASHES, Status::Conflict)?)
}
