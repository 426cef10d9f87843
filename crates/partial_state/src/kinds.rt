//! Sets of types.
ghost use Rattle.std.specs.Prelude.{◌≡◌, ◌≢◌, ◌<◌, ◌^◌, ℕ, IsTrue, length, not, slice_index_or, if◌then◌else◌};
ghost use Rattle.std.specs.Int.{bit_at};
ghost use Rattle.std.specs.List.{list_all};
ghost use Rattle.prod_model.specs.Limits.{most_types};
ghost use Rattle.domain_store.specs.Words.{has_word, NarrowsWords};
ghost use Rattle.state_space.specs.Sets.{has_number, is_set_below, Reduces};
ghost use Rattle.partial_state.specs.Masks.{kinds_of};

use domain_store::Change;
use std::marker::Model;

/// A set of types that has one, seen as the ascending list of their numbers.
#[derive(Drop)]
pub(crate) struct KindSet {
    /// Bit t stands for the type of number t.
    pub(crate) mask: u128,
}

impl Model for KindSet {
    ghost use Rattle.std.specs.Prelude.{◌≢◌, ◌<◌, ◌^◌, ℕ, List};
    ghost use Rattle.partial_state.specs.Masks.{kinds_of};

    ghost Value = { List ℕ };

    ghost view = { λ s. kinds_of s.mask };

    ghost invariant = { λ s. (s.mask ≢ 0) × (s.mask < 2 ^ 128) };
}

impl KindSet {
    /// The types as a mask.
    pub(crate) fn mask(&self) -> u128
        ensures { (t : ℕ) → bit_at result t ≡ (if has_number self.now t then 1 else 0) }
    {
        self.mask
    }

    /// The first type.
    pub(crate) fn first(&self) -> u32
        ensures { result ≡ slice_index_or self.now 0 0 }
    {
        self.mask.trailing_zeros()
    }

    /// The same types.
    pub(crate) fn copy(&self) -> KindSet
        ensures { result ≡ self.now }
    {
        KindSet { mask: self.mask }
    }

    /// Whether each of the types is one of the mask.
    pub(crate) fn is_within(&self, mask: u128) -> bool
        ensures { result ≡ list_all (has_number (kinds_of mask)) self.now }
    {
        self.mask & mask == self.mask
    }

    /// Whether none of them is.
    pub(crate) fn is_apart(&self, mask: u128) -> bool
        ensures { result ≡ list_all (λ t. not (has_number (kinds_of mask) t)) self.now }
    {
        self.mask & mask == 0
    }

    /// Leaves the types of the mask, unless there is none.
    pub(crate) fn keep(&mut self, mask: u128) -> Change
        ensures narrowed { Reduces has_number length (has_word mask) result self.old self.new }
        ensures formed { IsTrue (is_set_below most_types self.new) }
    {
        keep(&mut self.mask, mask)
    }
}

/// Leaves the bits of a mask that another has, unless there is none.
fn keep(kinds: &mut u128, mask: u128) -> Change
    requires { kinds.old ≢ 0 }
    ensures narrowed { NarrowsWords (has_word mask) result kinds.old kinds.new }
    ensures some { kinds.new ≢ 0 }
    ensures fits { kinds.new < 2 ^ 128 }
{
    let left = *kinds & mask;
    if left == 0 {
        return Change::Empty;
    }
    if left == *kinds {
        return Change::Same;
    }
    *kinds = left;
    Change::Smaller
}
