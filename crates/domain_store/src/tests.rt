//! The calls on all small sets of words against their meaning, counted by hand, and on the ends.
use crate::{Change, IntDomain, WordDomain};

/// A call that narrows a set.
#[derive(Clone, Copy)]
enum Call {
    AtMost(u32),
    AtLeast(u32),
    Keep(u32),
    Remove(u32),
}

const NUMBERS: [u32; 6] = [0, 1, 2, 3, 4, 5];

/// The words 0 to 4 of a set, by bits.
fn small(domain: WordDomain) -> u64 {
    let mut mask = 0;
    for n in 0..5u32 {
        if domain.contains(n) {
            mask |= 1u64 << n;
        }
    }
    mask
}

fn passes(call: Call, word: u32) -> bool {
    match call {
        Call::AtMost(n) => word <= n,
        Call::AtLeast(n) => n <= word,
        Call::Keep(n) => word == n,
        Call::Remove(n) => word != n,
    }
}

/// The words 0 to 4 of the mask that a call names.
fn named(mask: u64, call: Call) -> u64 {
    let mut left = 0;
    for n in 0..5u32 {
        if (mask >> n) & 1 == 1 && passes(call, n) {
            left |= 1u64 << n;
        }
    }
    left
}

fn answer(domain: &mut WordDomain, call: Call) -> Change {
    match call {
        Call::AtMost(n) => domain.at_most(n),
        Call::AtLeast(n) => domain.at_least(n),
        Call::Keep(n) => domain.keep(n),
        Call::Remove(n) => domain.remove(n),
    }
}

/// Whether a call on a small set answers and leaves what it must.
fn narrows(mask: u64, call: Call) -> bool {
    if mask == 0 {
        return true;
    }
    let mut domain = WordDomain::from_mask(mask);
    let change = answer(&mut domain, call);
    let left = named(mask, call);
    if left == 0 {
        return change == Change::Empty && small(domain) == mask;
    }
    if left == mask {
        return change == Change::Same && small(domain) == mask;
    }
    change == Change::Smaller && small(domain) == left
}

fn narrows_by_each(mask: u64, n: u32) -> bool {
    narrows(mask, Call::AtMost(n))
        && narrows(mask, Call::AtLeast(n))
        && narrows(mask, Call::Keep(n))
        && narrows(mask, Call::Remove(n))
}

#[test]
fn narrows_all_small_sets_of_words(rt: HostRuntime) {
    for mask in 1..32u64 {
        assert!(rt; NUMBERS.iter().all(|&n| narrows_by_each(mask, n)));
    }
}

#[test]
fn keeps_its_last_word(rt: HostRuntime) {
    let mut domain = WordDomain::from_mask(6);
    assert!(rt; domain.remove(1) == Change::Smaller);
    assert!(rt; domain.keep(1) == Change::Empty);
    assert!(rt; domain == WordDomain::from_mask(4));
}

#[test]
fn has_words_at_both_ends(rt: HostRuntime) {
    let mut domain = WordDomain::from_mask(u64::MAX);
    assert!(rt; domain.low() == 0 && domain.high() == 63);
    assert!(rt; domain.contains(63) && !domain.contains(64));
    assert!(rt; domain.at_most(63) == Change::Same && domain.at_least(0) == Change::Same);
    assert!(rt; domain.at_least(64) == Change::Empty && domain.remove(64) == Change::Same);
    assert!(rt; domain.at_least(63) == Change::Smaller);
    assert!(rt; domain.low() == 63 && domain.high() == 63);
}

#[test]
fn has_the_numbers_of_a_range(rt: HostRuntime) {
    if let Ok(domain) = IntDomain::from_range(rt.alloc(), -3, 10) {
        assert!(rt; domain.low() == -3 && domain.high() == 10);
        assert!(rt; domain.contains(-3) && domain.contains(0) && domain.contains(10));
        assert!(rt; !domain.contains(-4) && !domain.contains(11));
    }
}
