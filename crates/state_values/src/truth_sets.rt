//! Of sets of instances, those where a truth holds, and those where it fails.
ghost use Rattle.std.specs.Prelude.{◌≡◌, ℕ, ◌<◌, ◌==◌, ◌&&◌, ◌||◌, false, if◌then◌else◌};
ghost use Rattle.instance_set.specs.InstanceSets.{is_member};
ghost use Rattle.state_values.specs.steps.Truths.{is_told_true, is_told_false};

use crate::kleene::Kleene;
use instance_set::InstanceSet;

/// Where a truth is true, and where it is false. It is open at all others.
#[derive(Clone, Copy)]
pub struct Truths {
    pub holding: InstanceSet,
    pub failing: InstanceSet,
}

impl Truths {
    pub(crate) fn open() -> Truths
        ensures holding { (i : ℕ) → is_member result.holding i ≡ false }
        ensures failing { (i : ℕ) → is_member result.failing i ≡ false }
    {
        Truths {
            holding: InstanceSet::empty(),
            failing: InstanceSet::empty(),
        }
    }

    /// A truth of each member.
    pub(crate) fn of_all(among: InstanceSet) -> Truths
        ensures holding { result.holding ≡ among }
        ensures failing { (i : ℕ) → is_member result.failing i ≡ false }
    {
        Truths {
            holding: among,
            failing: InstanceSet::empty(),
        }
    }

    pub(crate) fn negated(self) -> Truths
        ensures { result ≡ record { holding = self.failing; failing = self.holding } }
    {
        Truths {
            holding: self.failing,
            failing: self.holding,
        }
    }

    /// Whether both are true.
    pub(crate) fn both(self, other: Truths) -> Truths
        ensures holding { (i : ℕ) → is_member result.holding i
            ≡ (is_member self.holding i && is_member other.holding i) }
        ensures failing { (i : ℕ) → is_member result.failing i
            ≡ (is_member self.failing i || is_member other.failing i) }
    {
        Truths {
            holding: self.holding.intersection(other.holding),
            failing: self.failing.union(other.failing),
        }
    }

    /// Whether one is true.
    pub(crate) fn either(self, other: Truths) -> Truths
        ensures holding { (i : ℕ) → is_member result.holding i
            ≡ (is_member self.holding i || is_member other.holding i) }
        ensures failing { (i : ℕ) → is_member result.failing i
            ≡ (is_member self.failing i && is_member other.failing i) }
    {
        self.negated().both(other.negated()).negated()
    }

    /// With what the truth is at one more instance.
    pub(crate) fn with(self, i: u32, truth: Kleene) -> Truths
        requires { i < 256 }
        ensures holding { (k : ℕ) → is_member result.holding k
            ≡ (is_member self.holding k || ((k == i) && is_told_true truth)) }
        ensures failing { (k : ℕ) → is_member result.failing k
            ≡ (is_member self.failing k || ((k == i) && is_told_false truth)) }
    {
        let mut more = self;
        match truth {
            Kleene::True => more.holding.insert(i),
            Kleene::False => more.failing.insert(i),
            Kleene::Open => {}
        }
        more
    }

    /// What the truth is at an instance.
    pub(crate) fn at(self, i: u32) -> Kleene
        ensures { result ≡ (if is_member self.holding i then Kleene.True
            else (if is_member self.failing i then Kleene.False else Kleene.Open)) }
    {
        if self.holding.contains(i) {
            Kleene::True
        } else if self.failing.contains(i) {
            Kleene::False
        } else {
            Kleene::Open
        }
    }
}
