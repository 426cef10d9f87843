//! Stores of nogoods of a worked rack, all of its first request, which no configuration meets.
ghost use Rattle.std.specs.Prelude.{◌≡◌, IfOk};
ghost use Rattle.worked_stores.specs.steps.Stores.{IsStoreOf};

use literal_book::{Literal, Literals, Nogood};
use nogood_store::{Added, Store};
use reason_trail::Trail;
use std::alloc::Global;
use std::process::Abort;
use std::test::Fail;
use worked_racks::literals::{AT_MOST_100, RACK_MADE};
use worked_racks::racks::{TOO_STRONG, is_unmet, rack_trail};

/// The first state entails none of these: the price may be greater, and there may be no card or
/// four of them.
const OPEN: [Literal; 3] = [
    Literal::AtMost {
        instance: 0,
        attr: 0,
        value: 49,
    },
    Literal::LinksAtLeast {
        instance: 0,
        port: 0,
        count: 1,
    },
    Literal::LinksAtMost {
        instance: 0,
        port: 0,
        count: 3,
    },
];

/// It entails all of these.
const ENTAILED: [Literal; 3] = [
    RACK_MADE,
    Literal::Kind {
        instance: 0,
        kind: 1,
    },
    AT_MOST_100,
];

/// A store for the job of a trail, if no configuration meets its first request.
fn store_for(alloc: Global, trail: &Trail) -> Result<Store, Fail>
    ensures { IfOk result (IsStoreOf trail.now.job) }
{
    if !is_unmet(alloc, trail) {
        return Err(Fail::from("the first request may be met"));
    }
    let job = trail.job();
    Ok(Store::new(alloc, job.problem(), job.order())?)
}

/// Adds a nogood of the first request and of literals.
#[tactic(auto, using(crate::proofs::StoreLaws::still_of))]
fn add(alloc: Global, trail: &Trail, store: &mut Store, literals: &[Literal]) -> Result<Added, Fail>
    requires { IsStoreOf trail.now.job store.old }
    ensures { IsStoreOf trail.now.job store.new }
{
    let nogood = Nogood {
        requests: 1,
        literals: Literals::from_slice(alloc, literals)?,
    };
    Ok(store.add(nogood)?)
}

/// Adds so many of them.
fn add_many(
    alloc: Global,
    trail: &Trail,
    store: &mut Store,
    literals: &[Literal],
    count: u32,
) -> Result<(), Fail>
    requires { IsStoreOf trail.now.job store.old }
    ensures { IsStoreOf trail.now.job store.new }
{
    let mut left = count;
    while left > 0 {
        if add(alloc, trail, store, literals)? != Added::Added {
            return Err(Fail::from("it was not added"));
        }
        left -= 1;
    }
    Ok(())
}

/// The last nogood's literals, if there is one.
fn last(store: &Store) -> Result<&[Literal], Fail> {
    let len = store.len();
    if len == 0 {
        return Err(Fail::from("it is empty"));
    }
    Ok(store.get(len - 1).literals.as_slice())
}

fn check_long(rt: &impl Abort, alloc: Global, trail: &Trail, store: &mut Store) -> Result<(), Fail>
    requires { IsStoreOf trail.now.job store.old }
{
    add_many(alloc, trail, store, &OPEN, 1)?;
    let long = [RACK_MADE; 33];
    assert_eq!(rt; add(alloc, trail, store, &long)?, Added::TooLong);
    assert_eq!(rt; store.len(), 1);
    assert_eq!(rt; last(store)?, OPEN.as_slice());
    Ok(())
}

fn check_long_of(rt: &impl Abort, alloc: Global, trail: &Trail) -> Result<(), Fail> {
    let mut store = store_for(alloc, trail)?;
    let checked = check_long(rt, alloc, trail, &mut store);
    drop(store);
    checked
}

#[test]
fn adds_no_long_nogood(rt: HostRuntime) -> Result<(), Fail> {
    let trail = rack_trail(rt.alloc(), TOO_STRONG)?;
    let checked = check_long_of(&rt, rt.alloc(), &trail);
    drop(trail);
    checked
}

fn check_most(rt: &impl Abort, alloc: Global, trail: &Trail, store: &mut Store) -> Result<(), Fail>
    requires { IsStoreOf trail.now.job store.old }
{
    let pair = [OPEN[0], OPEN[1]];
    add_many(alloc, trail, store, &pair, 19_999)?;
    let other = [OPEN[1], OPEN[2]];
    assert_eq!(rt; add(alloc, trail, store, &other)?, Added::Added);
    assert_eq!(rt; store.len(), 20_000);
    assert_eq!(rt; last(store)?, other.as_slice());
    assert_eq!(rt; add(alloc, trail, store, &pair)?, Added::Full);
    assert_eq!(rt; store.len(), 20_000);
    assert_eq!(rt; last(store)?, other.as_slice());
    Ok(())
}

fn check_most_of(rt: &impl Abort, alloc: Global, trail: &Trail) -> Result<(), Fail> {
    let mut store = store_for(alloc, trail)?;
    let checked = check_most(rt, alloc, trail, &mut store);
    drop(store);
    checked
}

#[test]
fn adds_up_to_20000(rt: HostRuntime) -> Result<(), Fail> {
    let trail = rack_trail(rt.alloc(), TOO_STRONG)?;
    let checked = check_most_of(&rt, rt.alloc(), &trail);
    drop(trail);
    checked
}

/// Both ways of looking answer the same.
#[tactic(auto, using(crate::proofs::StoreLaws::still_of))]
fn check_found(rt: &impl Abort, trail: &Trail, store: &mut Store, keep: &[bool], want: Option<u32>)
    requires { IsStoreOf trail.now.job store.old }
    ensures { IsStoreOf trail.now.job store.new }
{
    assert_eq!(rt; store.scan(trail, keep), want, "{keep:?}");
    assert_eq!(rt; store.find(trail, keep), want, "{keep:?}");
}

fn check_last(rt: &impl Abort, alloc: Global, trail: &Trail, store: &mut Store) -> Result<(), Fail>
    requires { IsStoreOf trail.now.job store.old }
{
    add_many(alloc, trail, store, &OPEN, 999)?;
    add_many(alloc, trail, store, &ENTAILED, 1)?;
    check_found(rt, trail, store, &[true], Some(999));
    assert_eq!(rt; store.looked(), 1);
    check_found(rt, trail, store, &[false], None);
    Ok(())
}

fn check_last_of(rt: &impl Abort, alloc: Global, trail: &Trail) -> Result<(), Fail> {
    let mut store = store_for(alloc, trail)?;
    let checked = check_last(rt, alloc, trail, &mut store);
    drop(store);
    checked
}

#[test]
fn finds_the_last_of_1000(rt: HostRuntime) -> Result<(), Fail> {
    let trail = rack_trail(rt.alloc(), TOO_STRONG)?;
    let checked = check_last_of(&rt, rt.alloc(), &trail);
    drop(trail);
    checked
}

/// Where a nogood of a store is watched, if there is one.
fn watched(store: &Store, n: u32) -> Result<Option<(u32, u32)>, Fail> {
    if n >= store.len() {
        return Err(Fail::from("there is no such nogood"));
    }
    Ok(store.watched(n))
}

fn check_empty(rt: &impl Abort, alloc: Global, trail: &Trail, store: &mut Store) -> Result<(), Fail>
    requires { IsStoreOf trail.now.job store.old }
{
    add_many(alloc, trail, store, &[], 1)?;
    assert_eq!(rt; watched(store, 0)?, None);
    check_found(rt, trail, store, &[true], Some(0));
    check_found(rt, trail, store, &[false], None);
    assert_eq!(rt; store.looked(), 0);
    Ok(())
}

fn check_empty_of(rt: &impl Abort, alloc: Global, trail: &Trail) -> Result<(), Fail> {
    let mut store = store_for(alloc, trail)?;
    let checked = check_empty(rt, alloc, trail, &mut store);
    drop(store);
    checked
}

#[test]
fn finds_a_nogood_of_no_literals(rt: HostRuntime) -> Result<(), Fail> {
    let trail = rack_trail(rt.alloc(), TOO_STRONG)?;
    let checked = check_empty_of(&rt, rt.alloc(), &trail);
    drop(trail);
    checked
}

fn check_single(
    rt: &impl Abort,
    alloc: Global,
    trail: &Trail,
    store: &mut Store,
) -> Result<(), Fail>
    requires { IsStoreOf trail.now.job store.old }
{
    add_many(alloc, trail, store, &[AT_MOST_100], 1)?;
    assert_eq!(rt; watched(store, 0)?, Some((0, 0)));
    Ok(())
}

fn check_single_of(rt: &impl Abort, alloc: Global, trail: &Trail) -> Result<(), Fail> {
    let mut store = store_for(alloc, trail)?;
    let checked = check_single(rt, alloc, trail, &mut store);
    drop(store);
    checked
}

#[test]
fn watches_one_literal_twice(rt: HostRuntime) -> Result<(), Fail> {
    let trail = rack_trail(rt.alloc(), TOO_STRONG)?;
    let checked = check_single_of(&rt, rt.alloc(), &trail);
    drop(trail);
    checked
}
