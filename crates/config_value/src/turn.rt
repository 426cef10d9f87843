//! Whose turn it is to be mentioned, as the links of a configuration are read in order.
ghost use Rattle.std.specs.Prelude.{◌≡◌};
ghost use Rattle.config_value.specs.Numbered.{is_numbered};
ghost use Rattle.config_value.specs.steps.Turn.{turn_after, turn_after_link, port_links, instance_links, links_from};

use crate::configuration::Instance;
use prod_model::Items;

/// Whether instances are numbered in the order in which they are first mentioned.
///
/// It keeps the lowest instance from 1 on that no link so far leads to, whose turn it is. All below
/// have been mentioned, so the next link to an instance from there on has to lead to this one, and
/// to come from a lower one. In the end every instance must have had its turn.
pub fn is_numbered(instances: &[Instance]) -> bool
    ensures { result ≡ is_numbered instances.now }
{
    let count = instances.len();
    after_instances(count, instances).is_some_and(|turn| count <= turn)
}

fn after_instances(count: usize, instances: &[Instance]) -> Option<usize>
    ensures { result ≡ turn_after count 1 (links_from 0 instances.now) }
{
    let mut turn = 1;
    for (i, instance) in instances.iter().enumerate() {
        turn = after_ports(count, turn, i, instance.links.as_slice())?;
    }
    Some(turn)
}

fn after_ports(count: usize, start: usize, from: usize, ports: &[Items<u32>]) -> Option<usize>
    ensures { result ≡ turn_after count start (instance_links from ports.now) }
{
    let mut turn = start;
    for links in ports {
        turn = after_links(count, turn, from, links.as_slice())?;
    }
    Some(turn)
}

fn after_links(count: usize, start: usize, from: usize, links: &[u32]) -> Option<usize>
    ensures { result ≡ turn_after count start (port_links from links.now) }
{
    let mut turn = start;
    for to in links {
        turn = after_link(count, turn, from, *to as usize)?;
    }
    Some(turn)
}

fn after_link(count: usize, turn: usize, from: usize, to: usize) -> Option<usize>
    ensures { result ≡ turn_after_link count turn (record { from = from; to = to }) }
{
    if to < turn || count <= to {
        return Some(turn);
    }
    if to == turn && from < turn {
        return Some(turn + 1);
    }
    None
}
