//! Changes of a partial state by a literal, with their log.
ghost use Rattle.std.specs.Prelude.{◌≡◌, ◌≢◌, IsTrue, IfOk, OnOk, OnErr, Ok};
ghost use Rattle.domain_store.specs.declared.change.Change.TheVariants.{Smaller};
ghost use Rattle.state_space.specs.State.{IsState};
ghost use Rattle.state_space.specs.Entails.{fits};
ghost use Rattle.state_space.specs.Generation.{can_generate, generated};
ghost use Rattle.state_space.specs.Changes.{ChangesBy};
ghost use Rattle.state_space.specs.Undo.{Logs};

use crate::bounds::{LinkBound, ValueCut};
use crate::change_log::ChangeLog;
use crate::partial::Partial;
use config_value::Literal;
use domain_store::Change;
use prod_model::Problem;
use std::alloc::AllocError;

/// Changes by a literal.
impl Partial {
    /// Narrows by a literal that fits, or makes the next instance for `Made`, and logs what was
    /// replaced. Where nothing would be left, and after `AllocError`, the state and the log are as
    /// they were. A narrowing copies what it replaces; a generation goes over all ports.
    pub fn change(
        &mut self,
        problem: &Problem,
        l: &Literal,
        log: &mut ChangeLog,
    ) -> Result<Change, AllocError>
        requires state { IsState problem.now self.old }
        requires fits { IsTrue (fits problem.now self.old l.now) }
        ensures changed { IfOk result (λ r. ChangesBy problem.now l.now r self.old self.new) }
        ensures logged { Logs self.old self.new log.old log.new }
        ensures same { (result ≢ Ok Smaller) → log.new ≡ log.old }
        ensures unchanged { OnErr result (self.new ≡ self.old) }
        ensures state { IsState problem.now self.new }
    {
        let _ = &self.made;
        match *l {
            Literal::Made { .. } => self.change_made(problem, log),
            Literal::Kind { instance, kind } => self.change_kind(problem, instance, kind, log),
            Literal::NotKind { instance, kind } => {
                self.change_other_kinds(problem, instance, kind, log)
            }
            Literal::AtMost {
                instance,
                attr,
                value,
            } => self.change_domain(instance, attr, ValueCut::UpTo(value), log),
            Literal::AtLeast {
                instance,
                attr,
                value,
            } => self.change_domain(instance, attr, ValueCut::From(value), log),
            Literal::ValueIsNot {
                instance,
                attr,
                value,
            } => self.change_domain(instance, attr, ValueCut::Without(value), log),
            Literal::Linked { instance, port, to } => {
                self.change_port(instance, port, LinkBound::Requires(to), log)
            }
            Literal::NotLinked { instance, port, to } => {
                self.change_port(instance, port, LinkBound::Excludes(to), log)
            }
            Literal::FreshAtMost {
                instance,
                port,
                count,
                ..
            } => self.change_port(instance, port, LinkBound::FreshAtMost(count), log),
            Literal::FreshAtLeast {
                instance,
                port,
                count,
                ..
            } => self.change_port(instance, port, LinkBound::FreshAtLeast(count), log),
            Literal::LinksAtMost { .. } | Literal::LinksAtLeast { .. } => unreachable!(),
        }
    }

    /// Makes the next instance.
    fn change_made(&mut self, problem: &Problem, log: &mut ChangeLog) -> Result<Change, AllocError>
        requires state { IsState problem.now self.old }
        requires room { IsTrue (can_generate problem.now self.old) }
        ensures smaller { IfOk result (λ r. r ≡ Smaller) }
        ensures made { OnOk result (self.new ≡ generated problem.now self.old) }
        ensures logged { Logs self.old self.new log.old log.new }
        ensures kept { OnErr result (log.new ≡ log.old) }
        ensures unchanged { OnErr result (self.new ≡ self.old) }
        ensures state { IsState problem.now self.new }
    {
        self.generate_logged(problem, log)?;
        Ok(Change::Smaller)
    }
}
