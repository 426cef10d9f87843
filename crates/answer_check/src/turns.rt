//! Instances that are out of turn: a lower one doesn't mention them first, or not after the one
//! before them.
ghost use Rattle.std.specs.Prelude.{◌≡◌, ◌≤◌, [], ◌∷◌, IsTrue, length};
ghost use Rattle.std.specs.List.{flat_map};
ghost use Rattle.config_value.specs.Numbered.{all_links};
ghost use Rattle.config_value.specs.Spelled.{is_spelled};
ghost use Rattle.answer_check.specs.Codes.{misnumbered_code};
ghost use Rattle.answer_check.specs.steps.Finds.{BreaksAt, FindsPlace};
ghost use Rattle.answer_check.specs.steps.Turns.{HasTurns, ReadsMore, links_from, comes_in_turn as comes_in_turn_of};

use crate::place::Place;
use config_value::{Configuration, Instance};
use instance_set::InstanceSet;
use prod_model::Problem;

/// Which instances are mentioned, and which of them in turn.
///
/// The first link to an instance settles its turn: later ones change nothing. By then the instance
/// before it has been mentioned earlier, or is mentioned later or never. So one pass settles all,
/// and an instance may be in turn after others that are not.
#[derive(Clone, Copy)]
pub(crate) struct Turns {
    mentioned: InstanceSet,
    in_turn: InstanceSet,
}

impl Turns {
    fn add_link(&mut self, from: u32, j: u32)
        ensures { ReadsMore self.old (record { from = from; to = j } ∷ []) self.new }
    {
        if 256 <= j {
            return;
        }
        if self.mentioned.contains(j) {
            return;
        }
        let in_turn = self.comes_in_turn(from, j);
        self.mentioned.insert(j);
        if in_turn {
            self.in_turn.insert(j);
        }
    }

    fn comes_in_turn(&self, from: u32, j: u32) -> bool
        ensures { result ≡ comes_in_turn_of self.now from j }
    {
        from < j && (j == 1 || self.mentioned.contains(j - 1))
    }

    fn add_port(&mut self, from: u32, links: &[u32])
        ensures { ReadsMore self.old (links_from from links.now) self.new }
    {
        for j in links {
            self.add_link(from, *j);
        }
    }

    fn add_instance(&mut self, from: u32, instance: &Instance)
        ensures { ReadsMore self.old (flat_map (links_from from) instance.now.links) self.new }
    {
        for links in instance.links.as_slice() {
            self.add_port(from, links.as_slice());
        }
    }
}

/// The first instance that is out of turn. One pass over all links, and one over the instances.
pub(crate) fn out_of_turn(problem: &Problem, c: &Configuration) -> Option<Place>
    requires { IsTrue (is_spelled problem.now c.now) }
    ensures { FindsPlace (BreaksAt problem.now c.now misnumbered_code) result }
{
    let turns = turns_in(c);
    for j in 1..c.len() as u32 {
        if !turns.in_turn.contains(j) {
            return Some(Place {
                instance: j,
                item: 0,
            });
        }
    }
    None
}

fn turns_in(c: &Configuration) -> Turns
    requires { length c.now ≤ 256 }
    ensures { HasTurns result (all_links c.now) }
{
    let mut turns = Turns {
        mentioned: InstanceSet::empty(),
        in_turn: InstanceSet::empty(),
    };
    for i in 0..c.len() as u32 {
        turns.add_instance(i, c.get(i));
    }
    turns
}
