//! What narrows a trail by what follows.
ghost use Rattle.std.specs.Prelude.{◌≡◌, IfOk};
ghost use Rattle.state_space.specs.State.{State};
ghost use Rattle.reason_trail.specs.Jobs.{Task};
ghost use Rattle.reason_trail.specs.Propagators.{Filters, IsStep};

use crate::reason::Reason;
use crate::trail::Trail;
use std::alloc::AllocError;

/// What filtering comes to.
#[derive(Drop)]
pub enum Step {
    /// Nothing more follows.
    Stable,
    /// Nothing is left, for this reason.
    Failed(Reason),
}

/// What narrows a trail by what follows from the model, the kept requests and the cut.
pub trait Propagate {
    /// The job that it was made for.
    ghost job: { Self → Task };

    /// In which states of a job nothing more follows.
    ghost settled: { Task → State → Type 0 };

    /// Adds entries to a trail of its job until nothing more follows, or nothing is left. Nothing
    /// that is wanted is lost. After `AllocError` the trail has some entries more, and lost nothing
    /// either.
    fn run(&mut self, trail: &mut Trail) -> Result<Step, AllocError>
        requires { trail.old.job ≡ job self.old }
        ensures same_job { job self.new ≡ job self.old }
        ensures filters { Filters trail.old trail.new }
        ensures step { IfOk result (IsStep settled trail.new) };
}
