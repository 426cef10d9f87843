//! The key start of a state, read number by number.
ghost use Rattle.std.specs.Prelude.{◌≡◌, ◌≢◌, ◌∷◌, [], MatchOption};
ghost use Rattle.state_space.specs.State.{IsState};
ghost use Rattle.state_space.specs.Whole.{is_settled_port};
ghost use Rattle.partial_state.specs.Masks.{kinds_of};
ghost use Rattle.partial_state.specs.Views.{state_of_port};
ghost use Rattle.partial_state.specs.steps.Openings.{sole_of};
ghost use Rattle.state_values.specs.KeyStart.{key_start};

use instance_set::InstanceSet;
use partial_state::Partial;
use port_wildcards::PortDomain;
use prod_model::{AttrAt, PortAt, Problem};
use std::marker::Model;

/// What is left of a key start, seen as the list of its numbers: the attributes of the instance
/// that is read, the links of its port that is read, its ports to come, and the instances from a
/// number on.
#[derive(Drop)]
pub(crate) struct KeyStartCursor<'a> {
    problem: &'a Problem,
    state: &'a Partial,
    instance: u32,
    attributes: &'a [AttrAt],
    links: InstanceSet,
    ports: &'a [PortAt],
    next: u32,
}

impl<'a> Model for KeyStartCursor<'a> {
    ghost use Rattle.std.specs.Prelude.{ℤ, List};
    ghost use Rattle.partial_state.specs.Masks.{instances_of};
    ghost use Rattle.state_values.specs.steps.KeyStartLeft.{start_left, HasLeft};

    ghost Value = { List ℤ };

    ghost view = { λ k. start_left k.problem.now k.state.now k.instance k.attributes.now
        (instances_of k.links) k.ports.now k.next };

    ghost invariant = { λ k.
        HasLeft k.problem.now k.state.now k.instance k.attributes.now k.ports.now };
}

impl<'a> KeyStartCursor<'a> {
    pub(crate) fn at_start(problem: &'a Problem, state: &'a Partial) -> KeyStartCursor<'a>
        requires { IsState problem.now state.now }
        ensures { result ≡ key_start problem.now state.now }
    {
        KeyStartCursor {
            problem,
            state,
            instance: 0,
            attributes: &[],
            links: InstanceSet::empty(),
            ports: &[],
            next: 0,
        }
    }

    /// Takes the first number that is left.
    pub(crate) fn next(&mut self) -> Option<i64>
        ensures { MatchOption result (self.old ≡ []) (λ n. self.old ≡ n ∷ self.new) }
    {
        if let Some((attribute, rest)) = self.attributes.split_first() {
            self.attributes = rest;
            return Some(self.state.low(self.instance, attribute.id));
        }
        if let Some(link) = self.links.least_from(0) {
            self.links.remove(link);
            return Some(i64::from(link));
        }
        if let Some((port, rest)) = self.ports.split_first() {
            let links = self.state.port(self.instance, port.id);
            if !is_settled(links) {
                return None;
            }
            self.ports = rest;
            self.links = links.required;
            return Some(i64::from(links.required.count()));
        }
        if self.state.made() <= self.next {
            return None;
        }
        let kinds = self.state.kinds(self.next);
        match sole(kinds) {
            Some(kind) => {
                self.instance = self.next;
                self.next += 1;
                self.attributes = self.problem.attrs_of(kind);
                self.ports = self.problem.ports_of(kind);
                Some(i64::from(kind))
            }
            None => {
                // Nothing can be told after an instance of several types.
                self.next = self.state.made();
                Some(i64::from(kinds.trailing_zeros()))
            }
        }
    }
}

/// Whether all links of a port are known: no later instance is linked, and each possible one is.
fn is_settled(links: PortDomain) -> bool
    ensures { result ≡ is_settled_port (state_of_port links) }
{
    links.is_whole()
}

/// The type of a mask that has one alone.
fn sole(kinds: u128) -> Option<u32>
    requires { kinds ≢ 0 }
    ensures { result ≡ sole_of (kinds_of kinds) }
{
    let first = kinds.trailing_zeros();
    if kinds == 1u128 << first {
        Some(first)
    } else {
        None
    }
}
