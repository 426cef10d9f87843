//! A test of sets of requests, which counts how often it is asked.
ghost use Rattle.std.specs.Prelude.{◌≡◌, ◌↔◌, ◌+◌, ◌-◌, ◌^◌, min};
ghost use Rattle.std.specs.Prelude.{ℕ, Bool, List, length, IfOk, IsTrue};
ghost use Rattle.quickxplain.specs.Testers.{IsClosedUnderParts, IsSameTest};

use std::alloc::AllocError;

/// Tells which sets of requests are consistent. What it keeps determines the test, and no call
/// changes it.
pub trait Tester {
    /// How many requests there are.
    ghost requests: { Self → ℕ };

    /// The requests of a set, which has a truth for each request, are consistent.
    ghost consistent: { Self → List Bool → Type 0 };

    /// How often it was asked.
    ghost asked: { Self → ℕ };

    /// Whether the requests of a set are consistent. `AllocError` where memory runs out. Each call
    /// is counted, whatever it answers; the count stays at its greatest value.
    fn consistent(&mut self, keep: &[bool]) -> Result<bool, AllocError>
        requires { length keep.now ≡ requests self.old }
        ensures answer { IfOk result (λ b. IsTrue b ↔ consistent self.old keep.now) }
        ensures test { IsSameTest (consistent self.new) (consistent self.old) }
        ensures same_requests { requests self.new ≡ requests self.old }
        ensures counted { asked self.new ≡ min (asked self.old + 1) (2 ^ 64 - 1) };

    /// A part of a consistent set is consistent.
    ghost closed: { (t : Self) → IsClosedUnderParts (consistent t) };
}
