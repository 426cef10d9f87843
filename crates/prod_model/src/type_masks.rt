//! The forest of types as masks, in which bit t stands for the type of number t.
ghost use Rattle.std.specs.Prelude.{◌≡◌, ℕ, ◌<◌, ◌≤◌, ◌↔◌, bit_and, nat_lt, length, slice_index, IsTrue, if◌then◌else◌, ◌==◌, ◌&&◌};
ghost use Rattle.std.specs.Int.{bit_at};
ghost use Rattle.prod_model.specs.Forest.{line_within, line};
ghost use Rattle.prod_model.specs.TypeMasks.{AreMasks, IsMask};
ghost use Rattle.prod_model.specs.steps.TypeMasks.{SetsBit, is_on, has_no_child, has_small_parents};
ghost use Rattle.prod_model.specs.Valid.{IsValid};

use crate::model::{Model, TypeDecl};

/// Which types are under which, and which are leaves. A bit for each pair of types takes 2 KiB, and
/// a question is then one test of a bit, where a walk would pass through up to 128 types. Making it
/// walks the line of each type once.
#[derive(Clone, Copy)]
pub(crate) struct TypeMasks {
    /// Bit t of the mask at u: t is u, or u is an ancestor of t.
    under: [u128; 128],
    /// Bit t: no type has t as its parent.
    leaves: u128,
}

impl TypeMasks {
    /// The masks of a valid model.
    #[tactic(auto, using(crate::proofs::ValidModels::few_types, crate::proofs::ValidModels::known_parents), unfolding(crate::specs::Forest::is_a, crate::specs::Forest::is_leaf))]
    pub(crate) fn of(model: &Model) -> TypeMasks
        requires { IsValid model.now }
        ensures { AreMasks model.now result }
    {
        TypeMasks::of_types(model.types.as_slice())
    }

    /// The masks of a list of types, of which no more is asked here than that parents are places in
    /// a mask.
    pub(crate) fn of_types(types: &[TypeDecl]) -> TypeMasks
        requires few { length types.now ≤ 128 }
        requires known { IsTrue (has_small_parents types.now) }
        ensures under { (u : ℕ)
            → IsMask (slice_index result.under u) (λ t. is_on (line types.now t) u) }
        ensures leaves { IsMask result.leaves
            (λ t. nat_lt t (length types.now) && has_no_child types.now t) }
    {
        TypeMasks {
            under: types_under(types),
            leaves: leaves(types),
        }
    }

    /// Whether type `t` is the type `of` or under it.
    pub(crate) fn is_a(&self, t: u32, of: u32) -> bool
        requires within { t < 128 }
        requires known { of < 128 }
        ensures { IsTrue result ↔ (bit_at (slice_index self.now.under of) t ≡ 1) }
    {
        is_set(self.under[of as usize], t)
    }

    pub(crate) fn is_leaf(&self, t: u32) -> bool
        requires { t < 128 }
        ensures { IsTrue result ↔ (bit_at self.now.leaves t ≡ 1) }
    {
        is_set(self.leaves, t)
    }

    /// The leaves that are type `t` or under it.
    pub(crate) fn leaves_under(&self, t: u32) -> u128
        requires { t < 128 }
        ensures { result ≡ bit_and self.now.leaves (slice_index self.now.under t) }
    {
        self.leaves & self.under[t as usize]
    }
}

/// The mask of each type: itself, and the types that it is an ancestor of.
#[tactic(auto, using(base_laws::proofs::Masks128::bit_at_zeros, crate::proofs::ValidModels::line_outside))]
fn types_under(types: &[TypeDecl]) -> [u128; 128]
    requires { length types.now ≤ 128 }
    ensures { (u : ℕ) → IsMask (slice_index result u) (λ t. is_on (line types.now t) u) }
{
    let mut under = [0; 128];
    for t in 0..types.len() {
        let t = t as u32;
        mark_line(&mut under, types, t, t, types.len() + 1);
    }
    under
}

/// Puts type t under `from`, its parent, that one's parent and so on, at most so many of them.
fn mark_line(under: &mut [u128; 128], types: &[TypeDecl], t: u32, from: u32, most: usize)
    requires few { length types.now ≤ 128 }
    requires within { t < 128 }
    ensures { SetsBit t (is_on (line_within most types.now from)) under.old under.new }
{
    if most == 0 {
        return;
    }
    let Some(found) = sqlite_items::at(types, from as usize) else {
        return;
    };
    put_under(under, t, from);
    if let Some(parent) = found.parent {
        mark_line(under, types, t, parent, most - 1);
    }
}

/// Puts type t under type u.
fn put_under(under: &mut [u128; 128], t: u32, u: u32)
    requires within { t < 128 }
    requires known { u < 128 }
    ensures { SetsBit t (λ v. v == u) under.old under.new }
{
    under[u as usize] = with_bit(under[u as usize], t);
}

/// The types that are no type's parent.
fn leaves(types: &[TypeDecl]) -> u128
    requires few { length types.now ≤ 128 }
    requires known { IsTrue (has_small_parents types.now) }
    ensures { IsMask result (λ t. nat_lt t (length types.now) && has_no_child types.now t) }
{
    let mut leaves = first_bits(types.len());
    for decl in types {
        if let Some(parent) = decl.parent {
            leaves = without_bit(leaves, parent);
        }
    }
    leaves
}

#[tactic(auto, using(base_laws::proofs::Masks128::bit_at_with))]
fn with_bit(mask: u128, t: u32) -> u128
    requires { t < 128 }
    ensures { (i : ℕ) → bit_at result i ≡ (if i == t then 1 else bit_at mask i) }
{
    mask | (1u128 << t)
}

#[tactic(auto, using(base_laws::proofs::Masks128::bit_at_without))]
fn without_bit(mask: u128, t: u32) -> u128
    requires { t < 128 }
    ensures { (i : ℕ) → bit_at result i ≡ (if i == t then 0 else bit_at mask i) }
{
    mask & !(1u128 << t)
}

/// The mask of the first types, so many of them.
fn first_bits(count: usize) -> u128
    requires { count ≤ 128 }
    ensures { IsMask result (λ i. nat_lt i count) }
{
    if count == 128 {
        u128::MAX
    } else {
        (1u128 << count) - 1
    }
}

fn is_set(mask: u128, t: u32) -> bool
    requires { t < 128 }
    ensures { IsTrue result ↔ (bit_at mask t ≡ 1) }
{
    (mask >> t) & 1 == 1
}
