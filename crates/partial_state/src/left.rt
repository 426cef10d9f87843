//! The instance that is left of a made one, where nothing of it is open.
ghost use Rattle.std.specs.Prelude.{◌≡◌, ◌<◌, length, map, slice_index_or, IfOk};
ghost use Rattle.state_space.specs.Whole.{value_left, links_left, instance_left};
ghost use Rattle.partial_state.specs.Masks.{instances_of};

use crate::row::InstanceRow;
use config_value::Instance;
use instance_set::InstanceSet;
use prod_model::{AttrAt, Items, PortAt, Problem};
use std::alloc::{AllocError, Global};

impl InstanceRow {
    /// An instance of the first possible type, with the least value of each of its attributes and
    /// the links that each of its ports must have. `AllocError` where memory runs out.
    pub(crate) fn instance_left(
        &self,
        alloc: Global,
        problem: &Problem,
    ) -> Result<Instance, AllocError>
        requires { slice_index_or self.now.kinds 0 0 < length problem.now.types }
        ensures { IfOk result (λ y. y ≡ instance_left problem.now self.now) }
    {
        let kind = self.kinds.first();
        Ok(Instance {
            kind,
            values: self.values_left(alloc, problem.attrs_of(kind))?,
            links: self.links_of(alloc, problem.ports_of(kind))?,
        })
    }

    fn values_left(&self, alloc: Global, attributes: &[AttrAt]) -> Result<Items<i64>, AllocError>
        ensures { IfOk result (λ vs. vs ≡ map (λ a. value_left self.now a.id) attributes.now) }
    {
        let mut values = Vec::with_capacity(alloc, attributes.len())?;
        for attribute in attributes {
            values.push(self.value_left(attribute.id))?;
        }
        Ok(Items::from_vec(values))
    }

    fn value_left(&self, attr: u32) -> i64
        ensures { result ≡ value_left self.now attr }
    {
        match self.domain(attr) {
            Some(values) => values.low(),
            None => 0,
        }
    }

    fn links_of(&self, alloc: Global, ports: &[PortAt]) -> Result<Items<Items<u32>>, AllocError>
        ensures { IfOk result (λ ls. ls ≡ map (λ p. links_left self.now p.id) ports.now) }
    {
        let mut links = Vec::with_capacity(alloc, ports.len())?;
        for port in ports {
            links.push(self.links_left(alloc, port.id)?)?;
        }
        Ok(Items::from_vec(links))
    }

    fn links_left(&self, alloc: Global, port: u32) -> Result<Items<u32>, AllocError>
        ensures { IfOk result (λ js. js ≡ links_left self.now port) }
    {
        match self.port(port) {
            Some(port) => members(alloc, &port.links().required),
            None => Ok(Items::new(alloc)),
        }
    }
}

/// The members, ascending, in memory taken once. Each takes a few instructions.
fn members(alloc: Global, set: &InstanceSet) -> Result<Items<u32>, AllocError>
    ensures { IfOk result (λ js. js ≡ instances_of set.now) }
{
    let mut members = Vec::with_capacity(alloc, set.count() as usize)?;
    let mut from = 0;
    while let Some(j) = set.least_from(from) {
        members.push(j)?;
        from = j + 1;
    }
    Ok(Items::from_vec(members))
}
