//! Whole states, and the configuration of each.
ghost use Rattle.std.specs.Prelude.{◌≡◌, IsTrue, IfOk, not, ◌||◌, false};
ghost use Rattle.std.specs.Option.{option_map_or};
ghost use Rattle.std.specs.List.{list_all, zip};
ghost use Rattle.state_space.specs.Sets.{has_number};
ghost use Rattle.state_space.specs.State.{IsState};
ghost use Rattle.state_space.specs.Covers.{Covers};
ghost use Rattle.state_space.specs.Whole.{has_one_value, is_settled_port, is_whole_of, is_whole, whole_configuration};
ghost use Rattle.partial_state.specs.Masks.{kinds_of};

use crate::partial::Partial;
use crate::ports::MadePort;
use crate::row::InstanceRow;
use crate::values::AttributeDomain;
use config_value::{Configuration, Instance};
use prod_model::{Items, Problem};
use std::alloc::{AllocError, Global};

impl Partial {
    /// Whether nothing is left open: each made instance is of one type, with one value for each
    /// attribute of the type and with settled ports. It takes a few instructions for each attribute
    /// and port id of each instance, and no memory.
    pub fn is_whole(&self) -> bool
        ensures { result ≡ is_whole self.now }
    {
        self.made.iter().all(|row| self.is_whole_row(row))
    }

    /// The configuration of a whole state: the type of each made instance, its only values and all
    /// its links. No other one with just the made instances is covered. `AllocError` where memory
    /// runs out.
    pub fn to_configuration(&self, problem: &Problem) -> Result<Configuration, AllocError>
        requires state { IsState problem.now self.now }
        requires whole { IsTrue (is_whole self.now) }
        ensures left { IfOk result (λ c. c ≡ whole_configuration problem.now self.now) }
        ensures covered { IfOk result (λ c. Covers problem.now self.now c) }
    {
        // The model is valid.
        let _ = problem.model();
        let instances = self.instances_left(problem)?;
        Ok(Configuration::from_list(instances))
    }

    fn instances_left(&self, problem: &Problem) -> Result<Items<Instance>, AllocError>
        requires { IsState problem.now self.now }
        ensures { IfOk result (λ ys. ys ≡ whole_configuration problem.now self.now) }
    {
        let mut instances = Vec::with_capacity(self.alloc, self.made.len())?;
        for row in &self.made {
            instances.push(row.instance_left(self.alloc, problem)?)?;
        }
        Ok(Items::from_vec(instances))
    }

    fn is_whole_row(&self, row: &InstanceRow) -> bool
        ensures { result ≡ is_whole_of self.now row.now row.now.kinds }
    {
        match row.kinds.sole() {
            Some(t) => {
                has_one_value_each(t, self.attribute_types.as_slice(), row.domains.as_slice())
                    && has_settled_ports(t, self.port_types.as_slice(), row.ports.as_slice())
            }
            None => false,
        }
    }
}

/// Whether there is one value for each attribute of the type. Beside them stand the masks of the
/// types that have each attribute.
fn has_one_value_each(t: u32, types: &[u128], domains: &[Option<AttributeDomain>]) -> bool
    ensures { result ≡ list_all (λ e. not (has_number (kinds_of e.0) t)
        || option_map_or has_one_value e.1 false) (zip types.now domains.now) }
{
    types
        .iter()
        .zip(domains)
        .all(|(mask, values)| lacks_or_has_one_value(t, *mask, values))
}

/// Whether each port of the type is settled. Beside them stand the masks of the types that have
/// each port.
fn has_settled_ports(t: u32, types: &[u128], ports: &[Option<MadePort>]) -> bool
    ensures { result ≡ list_all (λ e. not (has_number (kinds_of e.0) t)
        || option_map_or is_settled_port e.1 false) (zip types.now ports.now) }
{
    types
        .iter()
        .zip(ports)
        .all(|(mask, port)| lacks_or_is_settled(t, *mask, port))
}

/// Whether a type of the mask has one value. Other types lack the attribute.
fn lacks_or_has_one_value(t: u32, mask: u128, slot: &Option<AttributeDomain>) -> bool
    ensures { result
        ≡ (not (has_number (kinds_of mask) t) || option_map_or has_one_value slot.now false) }
{
    if !has_type(mask, t) {
        return true;
    }
    match slot {
        Some(values) => values.has_one(),
        None => false,
    }
}

/// Whether the port is settled for a type of the mask. Other types lack it.
fn lacks_or_is_settled(t: u32, mask: u128, slot: &Option<MadePort>) -> bool
    ensures { result
        ≡ (not (has_number (kinds_of mask) t) || option_map_or is_settled_port slot.now false) }
{
    if !has_type(mask, t) {
        return true;
    }
    match slot {
        Some(port) => port.is_settled(),
        None => false,
    }
}

fn has_type(mask: u128, t: u32) -> bool
    ensures { result ≡ has_number (kinds_of mask) t }
{
    t < 128 && (mask >> t) & 1 == 1
}
