//! Which literals a state entails.
ghost use Rattle.std.specs.Prelude.{◌≡◌};
ghost use Rattle.state_space.specs.State.{IsState};
ghost use Rattle.state_space.specs.Entails.{entails as entails_of};

use crate::partial::Partial;
use config_value::Literal;
use prod_model::Problem;

impl Partial {
    /// Whether what is left open forces the literal. An id that not every possible type has, or an
    /// instance that isn't made, forces none. It takes no memory, and constant time, but that links
    /// from a number on are counted one by one.
    #[tactic(auto, unfolding(state_space::specs::Entails::entails), using(crate::proofs::SharedLaws::domain_that, crate::proofs::SharedLaws::port_that))]
    pub fn entails(&self, problem: &Problem, l: &Literal) -> bool
        requires { IsState problem.now self.now }
        ensures { result ≡ entails_of problem.now self.now l.now }
    {
        match *l {
            Literal::Made { instance } => instance < self.made(),
            Literal::Kind { instance, kind } => self.is_all_under(problem, instance, kind),
            Literal::NotKind { instance, kind } => self.is_none_under(problem, instance, kind),
            Literal::AtMost {
                instance,
                attr,
                value,
            } => {
                self.shared_domain(instance, attr)
                    .is_some_and(|d| d.high() <= value)
            }
            Literal::AtLeast {
                instance,
                attr,
                value,
            } => {
                match self.shared_domain(instance, attr) {
                    Some(values) => value <= values.low(),
                    None => false,
                }
            }
            Literal::ValueIsNot {
                instance,
                attr,
                value,
            } => {
                self.shared_domain(instance, attr)
                    .is_some_and(|d| !d.contains(value))
            }
            Literal::Linked { instance, port, to } => {
                self.shared_port(instance, port)
                    .is_some_and(|q| q.links_always(to))
            }
            Literal::NotLinked { instance, port, to } => {
                let made = self.made();
                self.shared_port(instance, port)
                    .is_some_and(|q| q.links_never(to, made))
            }
            Literal::LinksAtMost {
                instance,
                port,
                count,
            } => {
                self.shared_port(instance, port)
                    .is_some_and(|q| q.has_at_most(count))
            }
            Literal::LinksAtLeast {
                instance,
                port,
                count,
            } => {
                self.shared_port(instance, port)
                    .is_some_and(|q| q.has_at_least(count))
            }
            Literal::FreshAtMost {
                instance,
                port,
                from,
                count,
            } => {
                match self.shared_port(instance, port) {
                    Some(links) => links.has_at_most_from(from, count),
                    None => false,
                }
            }
            Literal::FreshAtLeast {
                instance,
                port,
                from,
                count,
            } => {
                match self.shared_port(instance, port) {
                    Some(links) => links.has_at_least_from(from, count, self.made()),
                    None => false,
                }
            }
        }
    }
}
