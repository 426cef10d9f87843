//! The calls on small ports against what they allow, counted by hand, and ports of many instances.
use crate::{Change, InstanceSet, PortDomain};

/// A call that narrows a port.
#[derive(Clone, Copy)]
enum Call {
    Require(u32),
    Exclude(u32),
    AtMost(u32),
    AtLeast(u32),
    Close,
}

const CALLS: [Call; 17] = [
    Call::Require(0),
    Call::Require(1),
    Call::Require(2),
    Call::Exclude(0),
    Call::Exclude(1),
    Call::Exclude(2),
    Call::AtMost(0),
    Call::AtMost(1),
    Call::AtMost(2),
    Call::AtMost(3),
    Call::AtMost(4),
    Call::AtLeast(0),
    Call::AtLeast(1),
    Call::AtLeast(2),
    Call::AtLeast(3),
    Call::AtLeast(4),
    Call::Close,
];

/// A port over instances 0 to 2, whose sets have instance j where bit j is set.
#[derive(Clone, Copy)]
struct Small {
    required: u32,
    possible: u32,
    low: u32,
    high: u32,
}

fn has(links: u32, j: u32) -> bool {
    match j {
        0 => links & 1 == 1,
        1 => links & 2 == 2,
        _ => links & 4 == 4,
    }
}

fn with(links: u32, j: u32) -> u32 {
    match j {
        0 => links | 1,
        1 => links | 2,
        _ => links | 4,
    }
}

fn without(links: u32, j: u32) -> u32 {
    match j {
        0 => links & 6,
        1 => links & 5,
        _ => links & 3,
    }
}

/// One of the 1024 choices of two sets and two bounds, unless it is no port.
fn state_from(k: u32) -> Option<Small> {
    let state = Small {
        required: k % 8,
        possible: k / 8 % 8,
        low: k / 64 % 4,
        high: k / 256 % 4,
    };
    if state.required & state.possible != state.required || state.high < state.low {
        return None;
    }
    Some(state)
}

fn set_of(links: u32) -> InstanceSet {
    let mut set = InstanceSet::empty();
    for j in 0..3u32 {
        if has(links, j) {
            set.insert(j);
        }
    }
    set
}

fn port_of(state: Small) -> PortDomain {
    PortDomain {
        required: set_of(state.required),
        possible: set_of(state.possible),
        fresh_low: state.low,
        fresh_high: state.high,
    }
}

/// Whether the small port allows the links to made instances and the number of later ones.
fn allows(state: Small, links: u32, later: u32) -> bool {
    links & state.required == state.required
        && links & state.possible == links
        && state.low <= later
        && later <= state.high
}

/// The small port that a port is, read instance by instance.
fn state_of(port: &PortDomain) -> Small {
    let mut state = Small {
        required: 0,
        possible: 0,
        low: port.fresh_low,
        high: port.fresh_high,
    };
    for j in 0..3u32 {
        if port.required.contains(j) {
            state.required = with(state.required, j);
        }
        if port.possible.contains(j) {
            state.possible = with(state.possible, j);
        }
    }
    state
}

fn is_port(port: &PortDomain) -> bool {
    port.required.is_within(port.possible) && port.fresh_low <= port.fresh_high
}

/// The answer of a call, unless its condition fails.
fn answer(port: &mut PortDomain, call: Call) -> Option<Change> {
    if !port.required.is_within(port.possible) || port.fresh_high < port.fresh_low {
        return None;
    }
    match call {
        Call::Require(j) => { if j < 256 { Some(port.require(j)) } else { None } }
        Call::Exclude(j) => { if j < 256 { Some(port.exclude(j)) } else { None } }
        Call::AtMost(n) => Some(port.fresh_at_most(n)),
        Call::AtLeast(n) => Some(port.fresh_at_least(n)),
        Call::Close => Some(port.close()),
    }
}

fn passes(call: Call, links: u32, later: u32) -> bool {
    match call {
        Call::Require(j) => has(links, j),
        Call::Exclude(j) => !has(links, j),
        Call::AtMost(n) => later <= n,
        Call::AtLeast(n) => n <= later,
        Call::Close => later == 0,
    }
}

/// Whether a call on a small port answers and leaves what it must, by all links and up to four
/// later ones.
fn narrows(before: Small, call: Call) -> bool {
    let mut port = port_of(before);
    let change = answer(&mut port, call);
    let after = state_of(&port);
    let mut some_pass = false;
    let mut all_pass = true;
    let mut exact = true;
    let mut unchanged = true;
    for k in 0..40u32 {
        let allowed = allows(before, k % 8, k / 8);
        let left = allowed && passes(call, k % 8, k / 8);
        some_pass = some_pass || left;
        all_pass = all_pass && left == allowed;
        exact = exact && left == allows(after, k % 8, k / 8);
        unchanged = unchanged && allowed == allows(after, k % 8, k / 8);
    }
    if !some_pass {
        change == Some(Change::Empty) && unchanged && port == port_of(before)
    } else if all_pass {
        change == Some(Change::Same) && exact && port == port_of(before)
    } else {
        change == Some(Change::Smaller) && exact && is_port(&port)
    }
}

#[test]
fn narrows_small_ports_exactly(rt: HostRuntime) {
    let mut states = 0u32;
    for k in 0..1024u32 {
        if let Some(state) = state_from(k) {
            states = states.saturating_add(1);
            assert!(rt; CALLS.iter().all(|&call| narrows(state, call)));
        }
    }
    assert!(rt; states == 270);
}

/// The port after instance `j` is made for it, unless a condition of the call fails.
fn made_here(state: Small, j: u32) -> Option<PortDomain> {
    let mut port = port_of(state);
    if !port.required.is_within(port.possible) || port.fresh_high < port.fresh_low {
        return None;
    }
    if port.fresh_high == 0 || 256 <= j {
        return None;
    }
    port.made_here(j);
    Some(port)
}

/// The port after instance `j` is made for another, unless a condition of the call fails.
fn made_elsewhere(state: Small, j: u32) -> Option<PortDomain> {
    let mut port = port_of(state);
    if !port.required.is_within(port.possible) || port.fresh_high < port.fresh_low || 256 <= j {
        return None;
    }
    port.made_elsewhere(j);
    Some(port)
}

/// Whether exactly the links with instance j are allowed that had, with it or without, one more
/// later link before.
fn turns_a_later_link(before: Small, after: Small, j: u32) -> bool {
    let mut right = true;
    for k in 0..40u32 {
        let links = k % 8;
        let more = k / 8 + 1;
        let was = allows(before, links, more) || allows(before, without(links, j), more);
        right = right && allows(after, links, k / 8) == (has(links, j) && was);
    }
    right
}

/// Whether what was allowed still is, with one later link that leads to instance j too, and
/// nothing that differs from it more.
fn may_gain(before: Small, after: Small, j: u32) -> bool {
    let mut right = true;
    for k in 0..40u32 {
        let links = k % 8;
        let later = k / 8;
        let was = allows(before, links, later);
        let gained = later == 0 || allows(after, with(links, j), later - 1);
        let near = was
            || allows(before, without(links, j), later)
            || allows(before, links, later + 1)
            || allows(before, without(links, j), later + 1);
        right = right && (!was || (allows(after, links, later) && gained));
        right = right && (near || !allows(after, links, later));
    }
    right
}

/// Whether small ports are right after instance j is made.
fn makes(state: Small, j: u32) -> bool {
    let here = match made_here(state, j) {
        None => state.high == 0,
        Some(port) => is_port(&port) && turns_a_later_link(state, state_of(&port), j),
    };
    let elsewhere = match made_elsewhere(state, j) {
        None => false,
        Some(port) => {
            is_port(&port)
                && may_gain(state, state_of(&port), j)
                && (state.high > 0 || port == port_of(state))
        }
    };
    here && elsewhere
}

#[test]
fn makes_instances_at_small_ports(rt: HostRuntime) {
    for k in 0..1024u32 {
        if let Some(state) = state_from(k) {
            assert!(rt; makes(state, 0) && makes(state, 1) && makes(state, 2));
            let port = port_of(state);
            assert!(rt; port.is_closed() == (state.high == 0));
            assert!(rt; port.is_whole() == (state.high == 0 && state.required == state.possible));
        }
    }
}

#[test]
fn narrows_until_nothing_would_be_left(rt: HostRuntime) {
    let mut port = port_of(Small {
        required: 2,
        possible: 6,
        low: 0,
        high: 2,
    });
    assert!(rt; answer(&mut port, Call::Require(2)) == Some(Change::Smaller));
    assert!(rt; port.required_count() == 2 && port.required.contains(1));
    assert!(rt; answer(&mut port, Call::Exclude(1)) == Some(Change::Empty));
    assert!(rt; port.required_count() == 2 && port.possible_count() == 2);
    assert!(rt; answer(&mut port, Call::AtLeast(1)) == Some(Change::Smaller));
    assert!(rt; port.fresh_low == 1 && port.fresh_high == 2);
    assert!(rt; answer(&mut port, Call::Close) == Some(Change::Empty));
    assert!(rt; port.fresh_low == 1 && port.fresh_high == 2);
}

#[test]
fn narrows_a_port_of_256_instances(rt: HostRuntime) {
    let mut possible = InstanceSet::empty();
    possible.insert(63);
    possible.insert(64);
    possible.insert(255);
    let mut port = PortDomain {
        required: InstanceSet::empty(),
        possible,
        fresh_low: 0,
        fresh_high: 0,
    };
    assert!(rt; answer(&mut port, Call::Require(64)) == Some(Change::Smaller));
    assert!(rt; port.required_count() == 1 && port.required.contains(64));
    assert!(rt; answer(&mut port, Call::Exclude(255)) == Some(Change::Smaller));
    assert!(rt; port.possible_count() == 2 && !port.possible.contains(255));
    let before = port;
    assert!(rt; answer(&mut port, Call::Exclude(64)) == Some(Change::Empty));
    assert!(rt; port == before && !port.is_whole());
    assert!(rt; answer(&mut port, Call::Exclude(63)) == Some(Change::Smaller));
    assert!(rt; port.is_closed() && port.is_whole());
}
