//! A configuration, seen as the list of its instances.
ghost use Rattle.std.specs.Prelude.{◌≡◌, ◌↔◌, ◌<◌, length, slice_get, IsTrue, IfOk};

use crate::{key, same, turn};
use prod_model::Items;
use std::alloc::{AllocError, Global};
use std::cmp::Ordering;
use std::marker::Model;

/// A component of a product.
#[derive(Drop)]
pub struct Instance {
    /// The number of its type.
    pub kind: u32,
    /// A value for each attribute of the type, in order: a whole number, or the place of a word in
    /// the first declaration.
    pub values: Items<i64>,
    /// For each port of the type, in order, the numbers of the linked instances.
    pub links: Items<Items<u32>>,
}

impl Instance {
    /// An instance of the same type, with the same values and links.
    pub fn copy(&self, alloc: Global) -> Result<Instance, AllocError>
        ensures { IfOk result (λ c. c ≡ self.now) }
    {
        Ok(Instance {
            kind: self.kind,
            values: Items::from_slice(alloc, self.values.as_slice())?,
            links: copy_links(alloc, self.links.as_slice())?,
        })
    }
}

fn copy_links(alloc: Global, ports: &[Items<u32>]) -> Result<Items<Items<u32>>, AllocError>
    ensures { IfOk result (λ c. c ≡ ports.now) }
{
    let mut copies = Items::new(alloc);
    for links in ports {
        copies.push(Items::from_slice(alloc, links.as_slice())?)?;
    }
    Ok(copies)
}

/// A list of instances, numbered from 0. Instance 0 is the root product.
#[derive(Drop)]
pub struct Configuration {
    instances: Items<Instance>,
}

impl Model for Configuration {
    ghost use Rattle.std.specs.Prelude.{List};
    ghost use Rattle.config_value.specs.declared.configuration.Instance.{Instance};

    ghost Value = { List Instance };

    ghost view = { λ c. c.instances };
}

impl Configuration {
    ghost use Rattle.config_value.specs.Rank.{key_order};
    ghost use Rattle.config_value.specs.Numbered.{is_numbered};

    /// The configuration of these instances, in order.
    pub fn from_list(list: Items<Instance>) -> Configuration
        ensures { result ≡ list }
    {
        Configuration { instances: list }
    }

    /// The number of instances.
    pub fn len(&self) -> usize
        ensures { result ≡ length self.now }
    {
        self.instances.len()
    }

    /// The instance of a number, which is in range.
    pub fn get(&self, i: u32) -> &Instance
        requires { i < length self.now }
        ensures { slice_get self.now i ≡ Some result.now }
    {
        &self.instances.as_slice()[i as usize]
    }

    /// A configuration with the same instances, in one pass over them.
    pub fn copy(&self, alloc: Global) -> Result<Configuration, AllocError>
        ensures { IfOk result (λ c. c ≡ self.now) }
    {
        let instances = copy_instances(alloc, self.instances.as_slice())?;
        Ok(Configuration { instances })
    }

    /// Whether both have the same instances, in order. It takes no memory.
    pub fn same(&self, other: &Configuration) -> bool
        ensures { IsTrue result ↔ (self.now ≡ other.now) }
    {
        same::same_instances(self.instances.as_slice(), other.instances.as_slice())
    }

    /// Compares the keys of two configurations number by number, whatever their shapes. A proper
    /// prefix comes first. It reads both in one pass, and takes no memory.
    pub fn key_cmp(&self, other: &Configuration) -> Ordering
        ensures { result ≡ key_order self.now other.now }
    {
        key::cmp(self.instances.as_slice(), other.instances.as_slice())
    }

    /// Whether the instances are numbered in the order in which they are first mentioned, each by a
    /// lower one. It reads the links in one pass, and takes no memory.
    pub fn is_numbered(&self) -> bool
        ensures { result ≡ is_numbered self.now }
    {
        turn::is_numbered(self.instances.as_slice())
    }
}

fn copy_instances(alloc: Global, instances: &[Instance]) -> Result<Items<Instance>, AllocError>
    ensures { IfOk result (λ c. c ≡ instances.now) }
{
    let mut copies = Items::new(alloc);
    for instance in instances {
        copies.push(instance.copy(alloc)?)?;
    }
    Ok(copies)
}

#[cfg(test)]
mod tests;
