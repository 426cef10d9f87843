//! Instances that more than one part link leads to, or any to instance 0.
ghost use Rattle.std.specs.Prelude.{◌≡◌, ◌≤◌, [], ◌∷◌, IsTrue, length, if◌then◌else◌};
ghost use Rattle.config_value.specs.Shaped.{is_part, part_links};
ghost use Rattle.config_value.specs.Spelled.{is_spelled};
ghost use Rattle.answer_check.specs.Codes.{shared_part_code};
ghost use Rattle.answer_check.specs.steps.Finds.{BreaksAt, FindsPlace};
ghost use Rattle.answer_check.specs.steps.Seen.{HasSeen, SeesMore, part_links_of, is_overfull as is_overfull_of};

use crate::place::Place;
use crate::types::ports_of;
use config_value::{Configuration, Instance};
use instance_set::InstanceSet;
use prod_model::{PortAt, PortKind, Problem};

/// Which instances part links were seen to lead to.
#[derive(Clone, Copy)]
pub(crate) struct Seen {
    /// The instances that at least one leads to.
    once: InstanceSet,
    /// The instances that at least two lead to.
    twice: InstanceSet,
}

impl Seen {
    fn add_link(&mut self, j: u32)
        ensures { SeesMore self.old (j ∷ []) self.new }
    {
        if 256 <= j {
            return;
        }
        if self.once.contains(j) {
            self.twice.insert(j);
        } else {
            self.once.insert(j);
        }
    }

    fn add_links(&mut self, links: &[u32])
        ensures { SeesMore self.old links.now self.new }
    {
        for j in links {
            self.add_link(*j);
        }
    }

    fn add_port(&mut self, port: &PortAt, links: &[u32])
        ensures { SeesMore self.old (if is_part port.now then links.now else []) self.new }
    {
        match port.kind {
            PortKind::Part => self.add_links(links),
            PortKind::Shared => {}
        }
    }

    fn add_instance(&mut self, problem: &Problem, instance: &Instance)
        ensures { SeesMore self.old (part_links_of problem.now instance.now) self.new }
    {
        let ports = ports_of(problem, instance.kind);
        for (port, links) in ports.iter().zip(instance.links.as_slice()) {
            self.add_port(port, links.as_slice());
        }
    }

    fn is_overfull(&self, j: u32) -> bool
        ensures { result ≡ is_overfull_of self.now j }
    {
        if j == 0 {
            self.once.contains(j)
        } else {
            self.twice.contains(j)
        }
    }
}

/// The first instance that more than one part link leads to, or any to instance 0. One pass over
/// all links, and one over the instances.
pub(crate) fn shared_part(problem: &Problem, c: &Configuration) -> Option<Place>
    requires { IsTrue (is_spelled problem.now c.now) }
    ensures { FindsPlace (BreaksAt problem.now c.now shared_part_code) result }
{
    let seen = seen_in(problem, c);
    for j in 0..c.len() as u32 {
        if seen.is_overfull(j) {
            return Some(Place {
                instance: j,
                item: 0,
            });
        }
    }
    None
}

fn seen_in(problem: &Problem, c: &Configuration) -> Seen
    requires { length c.now ≤ 256 }
    ensures { HasSeen result (part_links problem.now c.now) }
{
    let mut seen = Seen {
        once: InstanceSet::empty(),
        twice: InstanceSet::empty(),
    };
    for i in 0..c.len() as u32 {
        seen.add_instance(problem, c.get(i));
    }
    seen
}
