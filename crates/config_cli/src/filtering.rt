//! The filtering of the program's searches.
use reason_trail::{Job, Propagate, Step, Trail};
use seq_search::MakeProps;
use std::alloc::{AllocError, Global};
use type_narrowing::TypeNarrowing;

/// Narrows each instance of one possible type to what that type has, and each port to the instances
/// that are left.
#[derive(Drop)]
pub struct Filtering {
    narrowing: TypeNarrowing,
}

impl Propagate for Filtering {
    ghost job = { λ p. p.narrowing };

    ghost settled = { λ j s. Unit {0} };

    fn run(&mut self, trail: &mut Trail) -> Result<Step, AllocError> {
        self.narrowing.run(trail)
    }
}

impl MakeProps for Filtering {
    fn make(alloc: Global, job: &Job) -> Result<Filtering, AllocError> {
        Ok(Filtering {
            narrowing: TypeNarrowing::new(alloc, job)?,
        })
    }
}
