//! Changes of the possible types of an instance, with their log.
ghost use Rattle.std.specs.Prelude.{◌≡◌, ◌<◌, ◌==◌, ◌&&◌, not, ℕ, IfOk, OnErr};
ghost use Rattle.std.specs.Int.{bit_at};
ghost use Rattle.prod_model.specs.Forest.{is_a, is_leaf};
ghost use Rattle.prod_model.specs.TypeMasks.{IsMask};
ghost use Rattle.state_space.specs.State.{IsState, number_made, kinds_at};
ghost use Rattle.partial_state.specs.steps.Logged.{ChangesKinds};

use crate::change_log::{ChangeLog, LogEntry};
use crate::kinds::KindSet;
use crate::partial::Partial;
use domain_store::Change;
use prod_model::Problem;
use std::alloc::AllocError;

/// Changes of the possible types.
impl Partial {
    /// Leaves the possible types that are type `t` or under it, unless there is none, and logs
    /// those that there were. A number that is no type has none under it. After `AllocError`
    /// nothing has changed.
    pub(crate) fn change_kind(
        &mut self,
        problem: &Problem,
        i: u32,
        t: u32,
        log: &mut ChangeLog,
    ) -> Result<Change, AllocError>
        requires state { IsState problem.now self.old }
        requires made { i < number_made self.old }
        ensures changed { IfOk result (λ r.
            ChangesKinds i (λ u. is_a problem.now u t) r self.old self.new log.old log.new) }
        ensures unchanged { OnErr result (self.new ≡ self.old) }
        ensures logged { OnErr result (log.new ≡ log.old) }
    {
        let mask = leaves_under(problem, t);
        let change = self.change_kinds(i, mask, log)?;
        Ok(change)
    }

    /// Leaves the possible types that are neither type `t` nor under it, in the same way.
    pub(crate) fn change_other_kinds(
        &mut self,
        problem: &Problem,
        i: u32,
        t: u32,
        log: &mut ChangeLog,
    ) -> Result<Change, AllocError>
        requires state { IsState problem.now self.old }
        requires made { i < number_made self.old }
        ensures changed { IfOk result (λ r.
            ChangesKinds i (λ u. not (is_a problem.now u t)) r self.old self.new log.old log.new) }
        ensures unchanged { OnErr result (self.new ≡ self.old) }
        ensures logged { OnErr result (log.new ≡ log.old) }
    {
        let mask = leaves_under(problem, t);
        let change = self.change_kinds(i, !mask, log)?;
        Ok(change)
    }

    /// Leaves the possible types of the mask, unless there is none, and logs those that there were.
    /// The entry takes memory.
    pub(crate) fn change_kinds(
        &mut self,
        i: u32,
        mask: u128,
        log: &mut ChangeLog,
    ) -> Result<Change, AllocError>
        requires { i < number_made self.old }
        ensures changed { IfOk result (λ r.
            ChangesKinds i (λ t. bit_at mask t == 1) r self.old self.new log.old log.new) }
        ensures unchanged { OnErr result (self.new ≡ self.old) }
        ensures logged { OnErr result (log.new ≡ log.old) }
    {
        let kinds = self.kind_set(i);
        let mut next = kinds.copy();
        match next.keep(mask) {
            Change::Smaller => {
                log.push(LogEntry::of_kinds(i, kinds))?;
                self.put_kinds(i, next);
                Ok(Change::Smaller)
            }
            Change::Same => Ok(Change::Same),
            Change::Empty => Ok(Change::Empty),
        }
    }

    fn kind_set(&self, i: u32) -> KindSet
        requires { i < number_made self.now }
        ensures { result ≡ kinds_at self.now i }
    {
        self.made[i as usize].kinds.copy()
    }
}

/// The leaves that are type `t` or under it, as a mask. A number that is no type has none.
pub(crate) fn leaves_under(problem: &Problem, t: u32) -> u128
    ensures { IsMask result (λ u. is_leaf problem.now u && is_a problem.now u t) }
{
    if problem.model().is_type(t) {
        return problem.leaves_under(t);
    }
    0
}
