//! The key of a configuration, read number by number.
ghost use Rattle.std.specs.Prelude.{◌≡◌, ◌≤◌, ◌∷◌, [], length, MatchOption};
ghost use Rattle.config_value.specs.Rank.{key};

use config_value::Configuration;
use prod_model::Items;
use std::marker::Model;

/// What is left of a key, seen as the list of its numbers: the values of the instance that is read,
/// the links of its port that is read, its ports to come, and the instances from a number on.
#[derive(Drop)]
pub(crate) struct KeyCursor<'a> {
    configuration: &'a Configuration,
    values: &'a [i64],
    links: &'a [u32],
    ports: &'a [Items<u32>],
    next: u32,
}

impl<'a> Model for KeyCursor<'a> {
    ghost use Rattle.std.specs.Prelude.{◌≤◌, ℤ, List, ◌++◌, length, map, pos};
    ghost use Rattle.std.specs.List.{flat_map};
    ghost use Rattle.config_value.specs.Rank.{port_key};
    ghost use Rattle.state_values.specs.steps.KeyStartLeft.{key_from};

    ghost Value = { List ℤ };

    ghost view = { λ k. k.values.now ++ (map pos k.links.now
        ++ (flat_map port_key k.ports.now ++ key_from k.next k.configuration.now)) };

    ghost invariant = { λ k. length k.configuration.now ≤ 256 };
}

impl<'a> KeyCursor<'a> {
    #[tactic(auto, unfolding(config_value::specs::Rank::key))]
    pub(crate) fn at_start(configuration: &'a Configuration) -> KeyCursor<'a>
        requires { length configuration.now ≤ 256 }
        ensures { result ≡ key configuration.now }
    {
        KeyCursor {
            configuration,
            values: &[],
            links: &[],
            ports: &[],
            next: 0,
        }
    }

    /// Takes the first number that is left.
    pub(crate) fn next(&mut self) -> Option<i64>
        ensures { MatchOption result (self.old ≡ []) (λ n. self.old ≡ n ∷ self.new) }
    {
        if let Some((value, rest)) = self.values.split_first() {
            self.values = rest;
            return Some(*value);
        }
        if let Some((link, rest)) = self.links.split_first() {
            self.links = rest;
            return Some(i64::from(*link));
        }
        if let Some((links, rest)) = self.ports.split_first() {
            self.ports = rest;
            self.links = links.as_slice();
            return Some(self.links.len() as i64);
        }
        if self.configuration.len() <= self.next as usize {
            return None;
        }
        let instance = self.configuration.get(self.next);
        self.next += 1;
        self.values = instance.values.as_slice();
        self.ports = instance.links.as_slice();
        Some(i64::from(instance.kind))
    }
}
