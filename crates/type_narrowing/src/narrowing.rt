//! What narrows the trails of a job by the types of instances.
ghost use Rattle.std.specs.Prelude.{◌≡◌, IfOk};

use crate::instances::narrow_instance;
use reason_trail::{Job, Propagate, Reason, Step, Trail};
use std::alloc::{AllocError, Global};
use std::marker::Model;

/// Narrows each instance of one possible type to what that type has, and its ports to the instances
/// that are left. Contracts see it as its job.
#[derive(Drop)]
pub struct TypeNarrowing {
    alloc: Global,
    job: Job,
}

impl Model for TypeNarrowing {
    ghost use Rattle.reason_trail.specs.Jobs.{Task};
    ghost use Rattle.prod_model.specs.contracts.expr.Expr as e;
    ghost use Rattle.std.specs.Coded.{codes};

    ghost Value = { Task };

    ghost coded = { Prim.hlevel (codes, e.the_row.coded) };

    ghost view = { λ p. p.job };
}

impl TypeNarrowing {
    /// What narrows trails of the job. It keeps a copy of that. `AllocError` where memory runs out.
    pub fn new(alloc: Global, job: &Job) -> Result<TypeNarrowing, AllocError>
        ensures { IfOk result (λ p. p ≡ job.now) }
    {
        Ok(TypeNarrowing {
            alloc,
            job: job.copy(alloc)?,
        })
    }
}

impl Propagate for TypeNarrowing {
    ghost job = { λ p. p };

    // Nothing is promised of the states in which it ends.
    ghost settled = { λ j s. Unit {0} };

    fn run(&mut self, trail: &mut Trail) -> Result<Step, AllocError> {
        for i in 0..trail.state().made() {
            if let Some(reason) = narrow_instance(self.alloc, trail, self.job.problem(), i)? {
                return Ok(Step::Failed(reason));
            }
        }
        Ok(Step::Stable)
    }
}
