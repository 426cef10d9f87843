//! Questions to a solver: whether requests can be met together.
ghost use Rattle.std.specs.Prelude.{◌≡◌, length};
ghost use Rattle.config_cli.specs.steps.Clashes.{CanBeMet};

use criteria_order::Solver;
use quickxplain::Tester;
use std::alloc::AllocError;

/// Finds requests consistent where some configuration satisfies the model and meets them all. It
/// counts its questions.
#[derive(Drop)]
pub struct Asking<S: Solver> {
    solver: S,
    asked: u64,
}

impl<S: Solver + Drop> Asking<S> {
    /// One that was not asked yet.
    pub fn new(solver: S) -> Asking<S>
        ensures { result ≡ record { solver = solver; asked = 0 } }
    {
        Asking { solver, asked: 0 }
    }
}

impl<S: Solver + Drop> Tester for Asking<S> {
    ghost use Rattle.config_cli.specs.steps.Clashes.{parts_are_met};

    ghost requests = { λ t. length (S.order t.solver).requests };

    ghost consistent = { λ t. CanBeMet (S.problem t.solver) (S.order t.solver) };

    ghost asked = { λ t. t.asked };

    fn consistent(&mut self, keep: &[bool]) -> Result<bool, AllocError> {
        self.asked = self.asked.saturating_add(1);
        Ok(self.solver.exists(keep, &[])?)
    }

    ghost closed = { λ t. parts_are_met (S.problem t.solver) (S.order t.solver) };
}
