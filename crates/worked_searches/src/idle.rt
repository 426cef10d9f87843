//! Filtering that adds nothing.
use reason_trail::{Job, Propagate, Step, Trail};
use seq_search::MakeProps;
use std::alloc::{AllocError, Global};

/// Adds nothing to a trail: what a search finds then is its own work.
#[derive(Drop)]
pub struct Idle {
    job: Job,
}

impl Propagate for Idle {
    ghost job = { λ p. p.job };

    ghost settled = { λ j s. Unit {0} };

    fn run(&mut self, trail: &mut Trail) -> Result<Step, AllocError> {
        Ok(Step::Stable)
    }
}

impl MakeProps for Idle {
    fn make(alloc: Global, job: &Job) -> Result<Idle, AllocError> {
        Ok(Idle {
            job: job.copy(alloc)?,
        })
    }
}
