//! Whether types have too many attributes or ports.
ghost use Rattle.std.specs.Prelude.{◌≡◌, ◌<◌, ◌&&◌, ◌^◌, nat_le, length};
ghost use Rattle.prod_model.specs.Limits.{most_attributes_of_type, most_ports_of_type};
ghost use Rattle.prod_model.specs.Valid.{has_room_at};
ghost use Rattle.type_taxonomy.specs.steps.Built.{IsBuilt};
ghost use Rattle.type_taxonomy.specs.steps.FirstFailing.{IsFirstFailing};

use crate::forest::Forest;
use prod_model::limits::{MOST_ATTRIBUTES_OF_TYPE, MOST_PORTS_OF_TYPE};

/// The first type with too many attributes or ports, inherited ones included.
pub(crate) fn first_crowded(forest: &Forest) -> Option<u32>
    requires built { IsBuilt forest.now }
    requires few { length forest.now.model.now.types < 2 ^ 32 }
    ensures { IsFirstFailing (has_room_at forest.now.model.now) (length forest.now.model.now.types)
        result }
{
    for t in 0..forest.model.types.len() {
        if !has_room(forest, t as u32) {
            return Some(t as u32);
        }
    }
    None
}

fn has_room(forest: &Forest, t: u32) -> bool
    requires built { IsBuilt forest.now }
    requires known { t < length forest.now.model.now.types }
    ensures { result ≡ has_room_at forest.now.model.now t }
{
    let attributes = forest.attributes.as_slice()[t as usize].len();
    let ports = forest.ports.as_slice()[t as usize].len();
    has_room_for(attributes, ports)
}

fn has_room_for(attributes: usize, ports: usize) -> bool
    ensures { result ≡ (nat_le attributes most_attributes_of_type
        && nat_le ports most_ports_of_type) }
{
    attributes <= MOST_ATTRIBUTES_OF_TYPE && ports <= MOST_PORTS_OF_TYPE
}
