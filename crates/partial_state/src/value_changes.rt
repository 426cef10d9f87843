//! Changes of the values of an attribute, with their log.
ghost use Rattle.std.specs.Prelude.{◌≡◌, not, int_le, IsSome, IfOk, OnOk, OnErr};
ghost use Rattle.std.specs.Option.{ForSome};
ghost use Rattle.std.specs.Ordering.{int_eq};
ghost use Rattle.state_space.specs.State.{domain_at};
ghost use Rattle.state_space.specs.Changes.{NarrowsDomain};
ghost use Rattle.state_space.specs.Undo.{Logs};
ghost use Rattle.partial_state.specs.steps.Answered.{AnswersNarrowing};
ghost use Rattle.partial_state.specs.steps.Bounds.{is_left};
ghost use Rattle.partial_state.specs.steps.Logged.{ChangesDomain};

use crate::bounds::ValueCut;
use crate::change_log::{ChangeLog, LogEntry};
use crate::partial::Partial;
use crate::values::AttributeDomain;
use domain_store::Change;
use std::alloc::AllocError;

/// Changes of the values of an attribute.
impl Partial {
    /// Narrows the values of an attribute by a cut, and logs those that it had. Only where some go
    /// and some stay they are copied, which takes memory where they have many intervals.
    pub(crate) fn change_domain(
        &mut self,
        i: u32,
        attr: u32,
        cut: ValueCut,
        log: &mut ChangeLog,
    ) -> Result<Change, AllocError>
        requires { IsSome (domain_at self.old i attr) }
        ensures changed { IfOk result (λ r.
            ChangesDomain i attr (is_left cut) r self.old self.new log.old log.new) }
        ensures unchanged { OnErr result (self.new ≡ self.old) }
        ensures logged { OnErr result (log.new ≡ log.old) }
    {
        match self.answer(i, attr, cut) {
            Change::Smaller => {
                let change = self.cut_logged(i, attr, cut, log)?;
                Ok(change)
            }
            Change::Same => Ok(Change::Same),
            Change::Empty => Ok(Change::Empty),
        }
    }

    /// What a narrowing by a cut would do.
    fn answer(&self, i: u32, attr: u32, cut: ValueCut) -> Change
        requires { IsSome (domain_at self.now i attr) }
        ensures { ForSome (domain_at self.now i attr) (λ d.
            AnswersNarrowing (is_left cut) result d) }
    {
        match self.domain(i, attr) {
            Some(values) => values.answer(cut),
            None => unreachable!(),
        }
    }

    /// Logs the values of an attribute and then narrows them in their place.
    fn cut_logged(
        &mut self,
        i: u32,
        attr: u32,
        cut: ValueCut,
        log: &mut ChangeLog,
    ) -> Result<Change, AllocError>
        requires { IsSome (domain_at self.old i attr) }
        ensures narrowed { IfOk result (λ r.
            NarrowsDomain i attr (is_left cut) r self.old self.new) }
        ensures logs { OnOk result (Logs self.old self.new log.old log.new) }
        ensures unchanged { OnErr result (self.new ≡ self.old) }
        ensures logged { OnErr result (log.new ≡ log.old) }
    {
        let values = self.copied_domain(i, attr)?;
        log.push(LogEntry::of_domain(i, attr, values))?;
        match self.cut(i, attr, cut) {
            Ok(change) => Ok(change),
            Err(error) => {
                let _ = log.pop();
                Err(error)
            }
        }
    }

    /// Narrows the values of an attribute by a cut.
    fn cut(&mut self, i: u32, attr: u32, cut: ValueCut) -> Result<Change, AllocError>
        requires { IsSome (domain_at self.old i attr) }
        ensures narrowed { IfOk result (λ r.
            NarrowsDomain i attr (is_left cut) r self.old self.new) }
        ensures unchanged { OnErr result (self.new ≡ self.old) }
    {
        match cut {
            ValueCut::UpTo(n) => Ok(self.at_most(i, attr, n)),
            ValueCut::From(n) => Ok(self.at_least(i, attr, n)),
            ValueCut::Without(n) => self.remove(i, attr, n),
        }
    }

    fn copied_domain(&self, i: u32, attr: u32) -> Result<AttributeDomain, AllocError>
        requires { IsSome (domain_at self.now i attr) }
        ensures { IfOk result (λ d. domain_at self.now i attr ≡ Some d) }
    {
        match self.domain(i, attr) {
            Some(values) => Ok(values.copy(self.alloc)?),
            None => unreachable!(),
        }
    }
}

/// What narrowings of values would do, told from the least and the greatest one.
impl AttributeDomain {
    /// What a narrowing by a cut would do.
    fn answer(&self, cut: ValueCut) -> Change
        ensures { AnswersNarrowing (is_left cut) result self.now }
    {
        match cut {
            ValueCut::UpTo(n) => self.answer_up_to(n),
            ValueCut::From(n) => self.answer_from(n),
            ValueCut::Without(n) => self.answer_without(n),
        }
    }

    fn answer_up_to(&self, n: i64) -> Change
        ensures { AnswersNarrowing (λ v. int_le v n) result self.now }
    {
        let low = self.low();
        let high = self.high();
        if high <= n {
            return Change::Same;
        }
        if n < low {
            return Change::Empty;
        }
        Change::Smaller
    }

    fn answer_from(&self, n: i64) -> Change
        ensures { AnswersNarrowing (λ v. int_le n v) result self.now }
    {
        let low = self.low();
        let high = self.high();
        if n <= low {
            return Change::Same;
        }
        if high < n {
            return Change::Empty;
        }
        Change::Smaller
    }

    fn answer_without(&self, n: i64) -> Change
        ensures { AnswersNarrowing (λ v. not (int_eq v n)) result self.now }
    {
        let low = self.low();
        let high = self.high();
        if !self.contains(n) {
            return Change::Same;
        }
        if low == high {
            return Change::Empty;
        }
        Change::Smaller
    }
}
