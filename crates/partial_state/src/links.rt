//! What a port says of its links, whichever of the possible ones they are.
ghost use Rattle.std.specs.Prelude.{◌≡◌, ◌+◌, ◌-◌, ◌≤◌, not, nat_le, nat_lt, length, if◌then◌else◌};
ghost use Rattle.std.specs.List.{count_by};
ghost use Rattle.state_space.specs.Sets.{has_number};
ghost use Rattle.state_space.specs.Ports.{is_closed as is_closed_of};
ghost use Rattle.partial_state.specs.Masks.{instances_of};

use crate::ports::MadePort;
use port_wildcards::InstanceSet;

impl MadePort {
    /// Whether made instance `j` is linked.
    #[tactic(auto, using(crate::proofs::PortNarrowings::has_instance))]
    pub(crate) fn links_always(&self, j: u32) -> bool
        ensures { result ≡ has_number self.now.required j }
    {
        self.links.required.contains(j)
    }

    /// Whether instance `j` is not linked, where so many are made.
    #[tactic(auto, using(crate::proofs::PortNarrowings::has_instance))]
    pub(crate) fn links_never(&self, j: u32, made: u32) -> bool
        ensures { result ≡ (if nat_lt j made then not (has_number self.now.possible j)
            else is_closed_of self.now) }
    {
        if j < made {
            !self.links.possible.contains(j)
        } else {
            self.links.fresh_high == 0
        }
    }

    /// Whether there are `n` links at most.
    #[tactic(auto, unfolding(crate::specs::Masks::instances_of))]
    pub(crate) fn has_at_most(&self, n: u32) -> bool
        ensures { result ≡ nat_le (length self.now.possible + self.now.fresh_high) n }
    {
        most(self.links.possible.count(), self.links.fresh_high, n)
    }

    /// Whether there are `n` links at least.
    #[tactic(auto, unfolding(crate::specs::Masks::instances_of))]
    pub(crate) fn has_at_least(&self, n: u32) -> bool
        ensures { result ≡ nat_le n (length self.now.required + self.now.fresh_low) }
    {
        least(self.links.required.count(), self.links.fresh_low, n)
    }

    /// Whether `n` links at most lead to made instances numbered `from` or more and to later ones.
    pub(crate) fn has_at_most_from(&self, from: u32, n: u32) -> bool
        ensures { result ≡ nat_le
            (count_by (nat_le from) self.now.possible + self.now.fresh_high) n }
    {
        most(
            count_from(&self.links.possible, from),
            self.links.fresh_high,
            n,
        )
    }

    /// Whether `n` links at least lead to instances numbered `from` or more, where so many are
    /// made.
    pub(crate) fn has_at_least_from(&self, from: u32, n: u32, made: u32) -> bool
        ensures { result ≡ nat_le n (count_by (nat_le from) self.now.required
            + (if nat_le from made then self.now.fresh_low else 0)) }
    {
        let later = if from <= made {
            self.links.fresh_low
        } else {
            0
        };
        least(count_from(&self.links.required, from), later, n)
    }
}

/// Whether the sum is `n` at most. It may be more than 2^32.
fn most(made: u32, later: u32, n: u32) -> bool
    ensures { result ≡ nat_le (made + later) n }
{
    u64::from(made) + u64::from(later) <= u64::from(n)
}

/// Whether it is `n` at least.
fn least(made: u32, later: u32, n: u32) -> bool
    ensures { result ≡ nat_le n (made + later) }
{
    u64::from(n) <= u64::from(made) + u64::from(later)
}

/// How many instances of a set are numbered `from` or more. A few instructions for each of them.
fn count_from(set: &InstanceSet, from: u32) -> u32
    ensures counted { result ≡ count_by (nat_le from) (instances_of set.now) }
    ensures few { result ≤ 256 - from }
{
    match set.least_from(from) {
        Some(j) => 1 + count_from(set, j + 1),
        None => 0,
    }
}
