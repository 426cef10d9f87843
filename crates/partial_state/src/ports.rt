//! What a port of a made instance may link.
ghost use Rattle.std.specs.Prelude.{◌≡◌, ◌≤◌, ◌<◌, nat_le, not};
ghost use Rattle.port_wildcards.specs.Ports.{IsPort};
ghost use Rattle.state_space.specs.Sets.{has_number};
ghost use Rattle.state_space.specs.Ports.{made_here, made_elsewhere};
ghost use Rattle.state_space.specs.Whole.{is_settled_port};
ghost use Rattle.partial_state.specs.Views.{state_of_port};
ghost use Rattle.partial_state.specs.steps.InForm.{NarrowsInPort};

use port_wildcards::{Change, PortDomain};
use std::marker::Model;

/// A port whose required links are possible, with its bounds in order.
#[derive(Drop)]
pub(crate) struct MadePort {
    pub(crate) links: PortDomain,
}

impl Model for MadePort {
    ghost use Rattle.state_space.specs.Ports.{PortState};
    ghost use Rattle.partial_state.specs.Views.{state_of_port};
    ghost use Rattle.port_wildcards.specs.Ports.{IsPort};

    ghost Value = { PortState };

    ghost view = { λ p. state_of_port p.links };

    ghost invariant = { λ p. IsPort p.links };
}

impl MadePort {
    pub(crate) fn from_links(links: PortDomain) -> MadePort
        requires { IsPort links }
        ensures { result ≡ state_of_port links }
    {
        MadePort { links }
    }

    /// What the port may link.
    pub(crate) fn links(&self) -> PortDomain
        ensures links { state_of_port result ≡ self.now }
        ensures formed { IsPort result }
    {
        self.links
    }

    /// Whether nothing is left open: it links no later instance, and each possible one.
    pub(crate) fn is_settled(&self) -> bool
        ensures { result ≡ is_settled_port self.now }
    {
        self.links.is_whole()
    }

    /// Made instance `j` must be linked.
    pub(crate) fn require(&mut self, j: u32) -> Change
        requires { j < 256 }
        ensures { NarrowsInPort (λ l. has_number l.to_made j) result self.old self.new }
    {
        self.links.require(j)
    }

    /// Made instance `j` may not be linked.
    pub(crate) fn exclude(&mut self, j: u32) -> Change
        requires { j < 256 }
        ensures { NarrowsInPort (λ l. not (has_number l.to_made j)) result self.old self.new }
    {
        self.links.exclude(j)
    }

    /// At most `n` links lead to later instances.
    pub(crate) fn fresh_at_most(&mut self, n: u32) -> Change
        ensures { NarrowsInPort (λ l. nat_le l.later n) result self.old self.new }
    {
        self.links.fresh_at_most(n)
    }

    /// At least `n` links lead to later instances.
    pub(crate) fn fresh_at_least(&mut self, n: u32) -> Change
        ensures { NarrowsInPort (λ l. nat_le n l.later) result self.old self.new }
    {
        self.links.fresh_at_least(n)
    }

    /// Instance `j` is made for this port, which must link it.
    pub(crate) fn made_here(&mut self, j: u32)
        requires below { j < 256 }
        requires open { 1 ≤ self.old.fresh_high }
        ensures { self.new ≡ made_here j self.old }
    {
        self.links.made_here(j);
    }

    /// Instance `j` is made for another port. Unless this one is closed, it may link it.
    pub(crate) fn made_elsewhere(&mut self, j: u32)
        requires { j < 256 }
        ensures { self.new ≡ made_elsewhere j self.old }
    {
        self.links.made_elsewhere(j);
    }
}
