//! What a nogood excludes, and where it applies.
ghost use Rattle.std.specs.Prelude.{◌≡◌, ◌↔◌, ◌||◌, ℕ, not, IsTrue, slice_index_or, false, true};
ghost use Rattle.std.specs.List.{list_all, range_with_len};
ghost use Rattle.base_laws.specs.Places.{IsAt};
ghost use Rattle.prod_model.specs.declared.model.Request.{Request};
ghost use Rattle.config_value.specs.declared.literal.Literal.{Literal};
ghost use Rattle.config_value.specs.Satisfies.{meets};
ghost use Rattle.literal_book.specs.Nogoods.{excludes as excludes_of, asks_for as asks_for_of, has_literals, AreKept, IsWithin};

use crate::holding::holds_in;
use crate::nogood::Nogood;
use config_value::{Configuration, Literal};
use prod_model::{Order, Problem};

/// Whether the nogood excludes a configuration: that meets each of its requests, and all its
/// literals hold there. Bit k of `met` says whether the configuration meets request k. Requests that
/// the order lacks are passed over. No memory is taken.
pub fn excludes(problem: &Problem, order: &Order, n: &Nogood, met: u64, c: &Configuration) -> bool
    requires { (k : ℕ) (r : Request) → IsAt order.now.requests k r
        → asks_for_of met k ≡ meets problem.now c.now r }
    ensures { result ≡ excludes_of problem.now order.now n.now c.now }
{
    are_met(n.requests, met, order.requests.len()) && all_hold(problem, n.literals.as_slice(), c)
}

/// Whether of the first requests each that is asked for is met.
fn are_met(asked: u64, met: u64, count: usize) -> bool
    ensures { result ≡ list_all (λ k. not (asks_for_of asked k) || asks_for_of met k)
        (range_with_len 0 count) }
{
    (0..count).all(|k| !asks_for(asked, k) || asks_for(met, k))
}

/// Whether all of the literals hold.
fn all_hold(problem: &Problem, literals: &[Literal], c: &Configuration) -> bool
    ensures { result ≡ has_literals problem.now c.now literals.now }
{
    literals.iter().all(|l| holds_in(problem, l, c))
}

/// Whether bit k of the mask is set. A mask has none from 64 on.
fn asks_for(mask: u64, k: usize) -> bool
    ensures { result ≡ asks_for_of mask k }
{
    k < 64 && (mask >> k) & 1 == 1
}

/// Whether each literal of the nogood is among the given ones, and each of its requests is kept:
/// `keep` tells of the request at each place, and a request at no place is not kept. It compares
/// each literal with the given ones in turn, and takes no memory.
pub fn within(n: &Nogood, literals: &[Literal], keep: &[bool]) -> bool
    ensures { IsTrue result ↔ IsWithin n.now literals.now keep.now }
{
    are_among(n.literals.as_slice(), literals) && are_kept(n.requests, keep)
}

/// Whether each of some literals is among others.
fn are_among(some: &[Literal], literals: &[Literal]) -> bool
    ensures { IsTrue result
        ↔ ((k : ℕ) (l : Literal) → IsAt some.now k l → (j : ℕ) × IsAt literals.now j l) }
{
    some.iter().all(|l| is_among(l, literals))
}

/// Whether the literal is among others.
fn is_among(l: &Literal, literals: &[Literal]) -> bool
    ensures { IsTrue result ↔ ((j : ℕ) × IsAt literals.now j l.now) }
{
    literals.iter().any(|k| is_same(k, l))
}

/// Whether they are the same literal.
fn is_same(k: &Literal, l: &Literal) -> bool
    ensures { IsTrue result ↔ (k.now ≡ l.now) }
{
    *k == *l
}

/// Whether each request of the mask is kept: `keep` tells of the request at each place, and a
/// request at no place is not kept. It takes no memory.
pub fn are_kept(requests: u64, keep: &[bool]) -> bool
    ensures { IsTrue result ↔ AreKept keep.now requests }
{
    first_are_kept(requests, keep, 64)
}

/// Whether of the first requests each that the mask has is kept.
fn first_are_kept(requests: u64, keep: &[bool], count: usize) -> bool
    ensures { result
        ≡ list_all (λ k. not (asks_for_of requests k) || slice_index_or keep.now k false)
        (range_with_len 0 count) }
{
    (0..count).all(|k| !asks_for(requests, k) || is_kept(keep, k))
}

fn is_kept(keep: &[bool], k: usize) -> bool
    ensures { result ≡ slice_index_or keep.now k false }
{
    k < keep.len() && keep[k]
}
