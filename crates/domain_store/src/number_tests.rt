//! The calls on all small sets of numbers against their meaning, counted by hand, and on the ends.
//! Where memory runs out nothing is compared.
use crate::{Change, IntDomain};
use std::alloc::{AllocError, Global};

/// A call that narrows a set.
#[derive(Clone, Copy)]
enum Call {
    AtMost(i64),
    AtLeast(i64),
    Keep(i64),
    Remove(i64),
}

const NUMBERS: [i64; 7] = [-1, 0, 1, 2, 3, 4, 5];

/// The numbers 0 to 4 of a set, by bits.
fn small(domain: &IntDomain) -> u64 {
    let mut mask = 0;
    for n in 0..5u32 {
        if domain.contains(i64::from(n)) {
            mask |= 1u64 << n;
        }
    }
    mask
}

fn passes(call: Call, number: i64) -> bool {
    match call {
        Call::AtMost(n) => number <= n,
        Call::AtLeast(n) => n <= number,
        Call::Keep(n) => number == n,
        Call::Remove(n) => number != n,
    }
}

/// The numbers 0 to 4 of the mask that a call names.
fn named(mask: u64, call: Call) -> u64 {
    let mut left = 0;
    for n in 0..5u32 {
        if (mask >> n) & 1 == 1 && passes(call, i64::from(n)) {
            left |= 1u64 << n;
        }
    }
    left
}

fn answer(domain: &mut IntDomain, call: Call) -> Result<Change, AllocError> {
    match call {
        Call::AtMost(n) => Ok(domain.at_most(n)),
        Call::AtLeast(n) => Ok(domain.at_least(n)),
        Call::Keep(n) => Ok(domain.keep(n)),
        Call::Remove(n) => domain.remove(n),
    }
}

/// The set of the numbers 0 to 4 whose bits are set.
fn made(alloc: Global, mask: u64) -> Result<IntDomain, AllocError> {
    let mut domain = IntDomain::from_range(alloc, 0, 4)?;
    for n in 0..5u32 {
        if (mask >> n) & 1 == 0 {
            domain.remove(i64::from(n))?;
        }
    }
    Ok(domain)
}

/// Whether a call on a small set answers and leaves what it must.
fn narrows(alloc: Global, mask: u64, call: Call) -> Result<bool, AllocError> {
    let mut domain = made(alloc, mask)?;
    let change = answer(&mut domain, call)?;
    let left = named(mask, call);
    if domain.contains(-1) || domain.contains(5) {
        return Ok(false);
    }
    if left == 0 {
        return Ok(change == Change::Empty && small(&domain) == mask);
    }
    if left == mask {
        return Ok(change == Change::Same && small(&domain) == mask);
    }
    Ok(change == Change::Smaller && small(&domain) == left)
}

fn narrows_by_each(alloc: Global, mask: u64, n: i64) -> Result<bool, AllocError> {
    Ok(
        narrows(alloc, mask, Call::AtMost(n))?
            && narrows(alloc, mask, Call::AtLeast(n))?
            && narrows(alloc, mask, Call::Keep(n))?
            && narrows(alloc, mask, Call::Remove(n))?,
    )
}

fn narrows_at_each(alloc: Global, mask: u64) -> bool {
    NUMBERS
        .iter()
        .all(|&n| narrows_by_each(alloc, mask, n).unwrap_or(true))
}

#[test]
fn narrows_all_small_sets_of_numbers(rt: HostRuntime) {
    for mask in 1..32u64 {
        assert!(rt; narrows_at_each(rt.alloc(), mask));
    }
}

fn is_narrowed_in_turn(alloc: Global) -> Result<bool, AllocError> {
    let mut domain = IntDomain::from_range(alloc, 1, 10)?;
    let up_to_four = domain.at_most(4) == Change::Smaller && small(&domain) == 0b11110;
    let without_two = domain.remove(2)? == Change::Smaller && small(&domain) == 0b11010;
    let refused = domain.at_least(5) == Change::Empty && small(&domain) == 0b11010;
    let kept = domain.keep(3) == Change::Smaller && small(&domain) == 0b01000;
    Ok(up_to_four && without_two && refused && kept && domain.low() == domain.high())
}

#[test]
fn refuses_to_lose_its_last_numbers(rt: HostRuntime) {
    assert!(rt; is_narrowed_in_turn(rt.alloc()).unwrap_or(true));
}

fn is_cut_at_both_ends(alloc: Global) -> Result<bool, AllocError> {
    let mut domain = IntDomain::from_range(alloc, i64::MIN, i64::MAX)?;
    let ends = domain.remove(i64::MIN)? == Change::Smaller
        && domain.remove(i64::MAX)? == Change::Smaller
        && domain.remove(0)? == Change::Smaller;
    let left = domain.low() == -9223372036854775807 && domain.high() == 9223372036854775806;
    let around = domain.contains(-1) && !domain.contains(0) && domain.contains(1);
    Ok(ends && left && around && domain.at_most(i64::MIN) == Change::Empty)
}

#[test]
fn removes_the_outermost_numbers(rt: HostRuntime) {
    assert!(rt; is_cut_at_both_ends(rt.alloc()).unwrap_or(true));
}

/// What is removed from the numbers 0 to 9, where a search begins, and the first gap from there on.
type GapCase<'a> = (&'a [i64], i64, Option<i64>);

const GAPS: [GapCase<'static>; 12] = [
    (&[], -5, Some(-5)),
    (&[], 0, None),
    (&[], 10, None),
    (&[3, 4, 6], -1, Some(-1)),
    (&[3, 4, 6], 0, Some(3)),
    (&[3, 4, 6], 3, Some(3)),
    (&[3, 4, 6], 4, Some(4)),
    (&[3, 4, 6], 5, Some(6)),
    (&[3, 4, 6], 7, None),
    (&[0, 1], 0, Some(0)),
    (&[8, 9], 2, None),
    (&[1, 8], 2, Some(8)),
];

fn gap_without(alloc: Global, removed: &[i64], from: i64) -> Result<Option<i64>, AllocError> {
    let mut domain = IntDomain::from_range(alloc, 0, 9)?;
    for n in removed {
        domain.remove(*n)?;
    }
    Ok(domain.gap_from(from))
}

#[test]
fn finds_the_next_gap(rt: HostRuntime) {
    for (removed, from, gap) in &GAPS {
        assert!(rt; gap_without(rt.alloc(), removed, *from).unwrap_or(*gap) == *gap);
    }
}

fn has_gaps_between_the_ends(alloc: Global) -> Result<bool, AllocError> {
    let mut domain = IntDomain::from_range(alloc, i64::MIN, i64::MAX)?;
    domain.remove(0)?;
    let one = domain.gap_from(i64::MIN) == Some(0) && domain.gap_from(1).is_none();
    domain.remove(i64::MIN)?;
    domain.remove(i64::MAX)?;
    let ends = domain.gap_from(i64::MIN) == Some(i64::MIN) && domain.gap_from(i64::MAX).is_none();
    Ok(one && ends)
}

#[test]
fn finds_gaps_between_the_outermost_numbers(rt: HostRuntime) {
    assert!(rt; has_gaps_between_the_ends(rt.alloc()).unwrap_or(true));
}
