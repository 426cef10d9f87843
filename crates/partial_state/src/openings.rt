//! What an instance tells of the first open port.
ghost use Rattle.std.specs.Prelude.{◌≡◌, ℕ, not, IsTrue};
ghost use Rattle.std.specs.declared.option.Option.{Option};
ghost use Rattle.std.specs.List.{list_all, list_any};
ghost use Rattle.prod_model.specs.Forest.{is_leaf};
ghost use Rattle.state_space.specs.Ports.{is_closed};
ghost use Rattle.state_space.specs.Generation.{PortOf, is_open, has_no_ports, open_port_or};
ghost use Rattle.partial_state.specs.Masks.{kinds_of};
ghost use Rattle.partial_state.specs.steps.Openings.{sole_of, first_opening, opened_or};

use crate::kinds::KindSet;
use crate::ports::MadePort;
use crate::row::InstanceRow;
use prod_model::{PortAt, Problem};

/// What an instance tells of the first open port.
#[derive(Clone, Copy)]
pub(crate) enum Opening {
    /// The instance is of one type, and this port is the first of it that is open.
    Here(u32),
    /// None of its ports is open.
    Later,
    /// It may be of several types, and one of them has ports.
    Unsettled,
}

impl InstanceRow {
    /// What it tells of the first open port.
    pub(crate) fn opening(&self, problem: &Problem) -> Opening
        requires { IsTrue (list_all (is_leaf problem.now) self.now.kinds) }
        ensures { (i : ℕ) (later : Option PortOf)
            → open_port_or problem.now i self.now later self.now.kinds ≡ opened_or i result later }
    {
        match self.kinds.sole() {
            Some(t) => self.first_open(problem.ports_of(t)),
            None => {
                if self.kinds.have_ports(problem) {
                    Opening::Unsettled
                } else {
                    Opening::Later
                }
            }
        }
    }

    /// The first of the ports that is open.
    fn first_open(&self, ports: &[PortAt]) -> Opening
        ensures { result ≡ first_opening self.now ports.now }
    {
        match ports.split_first() {
            None => Opening::Later,
            Some((first, rest)) => {
                if self.opens(first.id) {
                    Opening::Here(first.id)
                } else {
                    self.first_open(rest)
                }
            }
        }
    }

    /// Whether the port may link later instances.
    fn opens(&self, port: u32) -> bool
        ensures { result ≡ is_open self.now port }
    {
        match self.port(port) {
            Some(links) => !links.is_closed(),
            None => false,
        }
    }
}

impl MadePort {
    /// Whether no link leads to a later instance.
    pub(crate) fn is_closed(&self) -> bool
        ensures { result ≡ is_closed self.now }
    {
        self.links.is_closed()
    }
}

impl KindSet {
    /// The type, where there is one alone.
    pub(crate) fn sole(&self) -> Option<u32>
        ensures { result ≡ sole_of self.now }
    {
        let first = self.mask.trailing_zeros();
        if self.mask == 1u128 << first {
            Some(first)
        } else {
            None
        }
    }

    /// Whether one of the types has ports.
    fn have_ports(&self, problem: &Problem) -> bool
        requires { IsTrue (list_all (is_leaf problem.now) self.now) }
        ensures { result ≡ list_any (λ t. not (has_no_ports problem.now t)) self.now }
    {
        have_ports(self.mask, problem)
    }
}

/// Whether one of the types of a mask has ports. A few instructions for each type.
fn have_ports(mask: u128, problem: &Problem) -> bool
    requires { IsTrue (list_all (is_leaf problem.now) (kinds_of mask)) }
    ensures { result ≡ list_any (λ t. not (has_no_ports problem.now t)) (kinds_of mask) }
{
    let mut rest = mask;
    while rest != 0 {
        let t = rest.trailing_zeros();
        if !problem.ports_of(t).is_empty() {
            return true;
        }
        rest &= !(1u128 << t);
    }
    false
}
