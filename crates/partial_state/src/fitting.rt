//! Which literals a state can be narrowed by.
ghost use Rattle.std.specs.Prelude.{◌≡◌, nat_le};
ghost use Rattle.std.specs.Option.{option_copied};
ghost use Rattle.state_space.specs.State.{IsState};
ghost use Rattle.state_space.specs.Entails.{fits as fits_of};
ghost use Rattle.state_space.specs.Generation.{can_generate as can_generate_of, owes_instance as owes_instance_of};
ghost use Rattle.partial_state.specs.steps.OpenPort.{open_port as open_port_of};

use crate::partial::Partial;
use crate::ports::MadePort;
use config_value::Literal;
use prod_model::Problem;

impl Partial {
    /// Whether the state can be narrowed by the literal: it speaks of what every possible type of a
    /// made instance has, of links to made instances, and of later ones as all that are not made.
    /// `Made` of the next number fits where that instance has to be made and can be. It takes no
    /// memory, and constant time, but that `Made` looks for the first open port.
    #[tactic(auto, unfolding(state_space::specs::Entails::fits), using(crate::proofs::SharedLaws::all_have_domain, crate::proofs::SharedLaws::all_have_links))]
    pub fn fits(&self, problem: &Problem, l: &Literal) -> bool
        requires { IsState problem.now self.now }
        ensures { result ≡ fits_of problem.now self.now l.now }
    {
        match *l {
            Literal::Made { instance } => {
                instance == self.made() && self.can_generate(problem) && self.owes_instance(problem)
            }
            Literal::Kind { instance, .. } => instance < self.made(),
            Literal::NotKind { instance, .. } => instance < self.made(),
            Literal::AtMost { instance, attr, .. } => self.shared_domain(instance, attr).is_some(),
            Literal::AtLeast { instance, attr, .. } => self.shared_domain(instance, attr).is_some(),
            Literal::ValueIsNot { instance, attr, .. } => {
                self.shared_domain(instance, attr).is_some()
            }
            Literal::Linked { instance, port, to } => {
                self.shared_port(instance, port).is_some() && to < self.made()
            }
            Literal::NotLinked { instance, port, to } => {
                self.shared_port(instance, port).is_some() && to < self.made()
            }
            Literal::LinksAtMost { .. } => false,
            Literal::LinksAtLeast { .. } => false,
            Literal::FreshAtMost {
                instance,
                port,
                from,
                ..
            } => self.shared_port(instance, port).is_some() && from == self.made(),
            Literal::FreshAtLeast {
                instance,
                port,
                from,
                ..
            } => self.shared_port(instance, port).is_some() && from == self.made(),
        }
    }

    /// Whether an instance may be made for the first open port.
    #[tactic(auto, using(crate::proofs::OpenPortLaws::open_that))]
    pub(crate) fn can_generate(&self, problem: &Problem) -> bool
        requires { IsState problem.now self.now }
        ensures { result ≡ can_generate_of problem.now self.now }
    {
        self.made() < problem.model().instances
            && self.open_port(problem).is_some_and(|q| q.links_later())
    }

    /// Whether an instance has to be made for it.
    #[tactic(auto, using(crate::proofs::OpenPortLaws::open_that))]
    pub(crate) fn owes_instance(&self, problem: &Problem) -> bool
        requires { IsState problem.now self.now }
        ensures { result ≡ owes_instance_of problem.now self.now }
    {
        self.open_port(problem).is_some_and(|q| q.owes_later())
    }

    /// What the first open port may link.
    fn open_port(&self, problem: &Problem) -> Option<&MadePort>
        requires { IsState problem.now self.now }
        ensures { option_copied result ≡ open_port_of problem.now self.now }
    {
        match self.first_open(problem) {
            Some((i, port)) => self.made_port(i, port),
            None => None,
        }
    }
}

impl MadePort {
    /// Whether a later instance may be linked.
    fn links_later(&self) -> bool
        ensures { result ≡ nat_le 1 self.now.fresh_high }
    {
        1 <= self.links.fresh_high
    }

    /// Whether one must be.
    fn owes_later(&self) -> bool
        ensures { result ≡ nat_le 1 self.now.fresh_low }
    {
        1 <= self.links.fresh_low
    }
}
