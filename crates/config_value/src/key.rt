//! The key of a configuration, read number by number.
ghost use Rattle.std.specs.Prelude.{◌≡◌, ◌∷◌, [], MatchOption};
ghost use Rattle.config_value.specs.Rank.{key, key_order};

use crate::configuration::Instance;
use prod_model::Items;
use std::cmp::Ordering;
use std::marker::Model;

/// What is left of a key, seen as the list of its numbers: the values of the instance that is read,
/// the links of its port that is read, its ports to come, and the instances to come.
#[derive(Drop)]
struct KeyCursor<'a> {
    values: &'a [i64],
    links: &'a [u32],
    ports: &'a [Items<u32>],
    instances: &'a [Instance],
}

impl<'a> Model for KeyCursor<'a> {
    ghost use Rattle.std.specs.Prelude.{ℤ, List, ◌++◌, map, pos};
    ghost use Rattle.std.specs.List.{flat_map};

    ghost Value = { List ℤ };

    ghost use Rattle.config_value.specs.Rank.{port_key, instance_key};

    ghost view = { λ k. k.values.now ++ (map pos k.links.now
        ++ (flat_map port_key k.ports.now ++ flat_map instance_key k.instances.now)) };
}

impl<'a> KeyCursor<'a> {
    #[tactic(auto, unfolding(crate::specs::Rank::key))]
    fn at_start(instances: &'a [Instance]) -> KeyCursor<'a>
        ensures { result ≡ key instances.now }
    {
        KeyCursor {
            values: &[],
            links: &[],
            ports: &[],
            instances,
        }
    }

    /// Takes the first number that is left.
    fn next(&mut self) -> Option<i64>
        ensures { MatchOption result (self.old ≡ []) (λ n. self.old ≡ n ∷ self.new) }
    {
        if let Some((value, rest)) = self.values.split_first() {
            self.values = rest;
            return Some(*value);
        }
        if let Some((link, rest)) = self.links.split_first() {
            self.links = rest;
            return Some(i64::from(*link));
        }
        if let Some((links, rest)) = self.ports.split_first() {
            self.ports = rest;
            self.links = links.as_slice();
            return Some(self.links.len() as i64);
        }
        let (instance, rest) = self.instances.split_first()?;
        self.instances = rest;
        self.values = instance.values.as_slice();
        self.ports = instance.links.as_slice();
        Some(i64::from(instance.kind))
    }
}

/// Compares two keys, number by number. A proper prefix comes first.
pub fn cmp(instances: &[Instance], others: &[Instance]) -> Ordering
    ensures { result ≡ key_order instances.now others.now }
{
    let mut ours = KeyCursor::at_start(instances);
    let mut theirs = KeyCursor::at_start(others);
    loop {
        match (ours.next(), theirs.next()) {
            (None, None) => return Ordering::Equal,
            (None, Some(_)) => return Ordering::Less,
            (Some(_), None) => return Ordering::Greater,
            (Some(a), Some(b)) => {
                if a != b {
                    return a.cmp(&b);
                }
            }
        }
    }
}
