//! The next instance, made for the first open port.
ghost use Rattle.std.specs.Prelude.{◌≡◌, ◌≤◌, ◌<◌, ◌+◌, length, map, IsTrue, IsSome, IfOk, OnOk, OnErr};
ghost use Rattle.std.specs.Option.{option_copied, option_map, ForSome};
ghost use Rattle.state_space.specs.Ports.{made_elsewhere};
ghost use Rattle.state_space.specs.State.{IsState, number_made, kinds_at, port_at};
ghost use Rattle.state_space.specs.Generation.{can_generate, generated};
ghost use Rattle.partial_state.specs.steps.Generated.{IsFirst, port_of_instance, port_of_sole, target_of_sole, first_changed, instance_elsewhere, instance_for, extended_for};
ghost use Rattle.partial_state.specs.steps.Openings.{sole_of};

use crate::partial::Partial;
use crate::ports::MadePort;
use crate::row::InstanceRow;
use prod_model::{PortAt, Problem};
use std::alloc::AllocError;

/// Generations.
impl Partial {
    /// Makes the next instance, for the first open port. That port must link it, and every other
    /// port that is not closed may. It takes memory for the new instance alone, and where that runs
    /// out nothing has changed. It goes over all ports once.
    pub fn generate(&mut self, problem: &Problem) -> Result<(), AllocError>
        requires state { IsState problem.now self.old }
        requires room { IsTrue (can_generate problem.now self.old) }
        ensures made { OnOk result (self.new ≡ generated problem.now self.old) }
        ensures unchanged { OnErr result (self.new ≡ self.old) }
        ensures state { IsState problem.now self.new }
    {
        let _model = problem.model();
        let Some((i, port)) = self.first_open(problem) else {
            return Ok(());
        };
        let row = self.next_row(problem, i, port)?;
        self.make_for(i, port, row)?;
        Ok(())
    }

    /// The next instance, as it is made for the first open port.
    fn next_row(&self, problem: &Problem, i: u32, port: u32) -> Result<InstanceRow, AllocError>
        requires state { IsState problem.now self.now }
        requires room { IsTrue (can_generate problem.now self.now) }
        requires first { IsFirst problem.now self.now i port }
        ensures { IfOk result (λ x.
            x ≡ instance_for problem.now self.now (port_of_instance i port)) }
    {
        let _model = problem.model();
        let kinds = problem.leaves_under(self.target(problem, i, port));
        let row = InstanceRow::new_of(
            self.alloc,
            problem,
            self.attribute_types.as_slice(),
            self.port_types.as_slice(),
            kinds,
            self.made() + 1,
        )?;
        Ok(row)
    }

    /// The type under which a port of an instance of one type links, and 0 where there is none.
    fn target(&self, problem: &Problem, i: u32, port: u32) -> u32
        ensures { result ≡ target_of_sole problem.now self.now i port }
    {
        match self.port_declared(problem, i, port) {
            Some(found) => found.target,
            None => 0,
        }
    }

    fn port_declared<'a>(&self, problem: &'a Problem, i: u32, port: u32) -> Option<&'a PortAt>
        ensures { option_copied result ≡ port_of_sole problem.now self.now i port }
    {
        match self.sole_kind(i) {
            Some(t) => problem.port_of(t, port),
            None => None,
        }
    }

    fn sole_kind(&self, i: u32) -> Option<u32>
        ensures { result ≡ sole_of (kinds_at self.now i) }
    {
        match self.made.get(i as usize) {
            Some(row) => row.kinds.sole(),
            None => None,
        }
    }

    /// Puts the next instance behind the others, made for a port that may link it.
    fn make_for(&mut self, i: u32, port: u32, row: InstanceRow) -> Result<(), AllocError>
        requires room { number_made self.old < 256 }
        requires has { IsSome (port_at self.old i port) }
        requires open { ForSome (port_at self.old i port) (λ q. 1 ≤ q.fresh_high) }
        ensures made { OnOk result
            (self.new ≡ extended_for (port_of_instance i port) row self.old) }
        ensures unchanged { OnErr result (self.new ≡ self.old) }
    {
        let next = self.made();
        let mut links = MadePort::from_links(self.port(i, port));
        self.made.push(row)?;
        make_rows_elsewhere(&mut self.made, next);
        links.made_here(next);
        self.put_port(i, port, links);
        Ok(())
    }
}

/// The ports of the first `n` instances, where instance `n` is made for none of them.
fn make_rows_elsewhere(rows: &mut Vec<InstanceRow>, n: u32)
    requires below { n < 256 }
    requires within { n ≤ length rows.old.items }
    ensures { rows.new.items ≡ first_changed n (instance_elsewhere n) rows.old.items }
{
    let count = n as usize;
    for i in 0..count {
        rows[i].make_elsewhere(n);
    }
}

impl InstanceRow {
    /// Its ports, where instance `n` is made for none of them.
    fn make_elsewhere(&mut self, n: u32)
        requires { n < 256 }
        ensures { self.new ≡ instance_elsewhere n self.old }
    {
        make_slots_elsewhere(&mut self.ports, n);
    }
}

fn make_slots_elsewhere(slots: &mut Vec<Option<MadePort>>, n: u32)
    requires { n < 256 }
    ensures { slots.new.items ≡ map (option_map (made_elsewhere n)) slots.old.items }
{
    for i in 0..slots.len() {
        make_slot_elsewhere(&mut slots[i], n);
    }
}

fn make_slot_elsewhere(slot: &mut Option<MadePort>, n: u32)
    requires { n < 256 }
    ensures { slot.new ≡ option_map (made_elsewhere n) slot.old }
{
    if let Some(links) = slot {
        links.made_elsewhere(n);
    }
}
