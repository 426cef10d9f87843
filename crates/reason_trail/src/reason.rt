//! Why a literal holds, or why nothing is left.
ghost use Rattle.std.specs.Prelude.{◌≡◌, IfOk};

use literal_book::Literals;
use std::alloc::{AllocError, Global};

/// What something rests on. Of the configurations that satisfy the model, a reason speaks of those
/// that meet its requests, have all its literals, and, where `cut` is set, pass the cut: all else
/// that is wanted. Bit k of `requests` stands for the request at place k.
#[derive(Drop)]
pub struct Reason {
    pub requests: u64,
    pub literals: Literals,
    pub cut: bool,
}

/// Why an entry of a trail was added.
#[derive(Drop)]
pub enum Why {
    /// It was assumed.
    Assumed,
    /// For a reason that is written out.
    Written(Reason),
    /// Because of all that the state said of its instances, with these requests and this mark of
    /// the cut. What that is can be asked for later, at the length that the trail had.
    Here { requests: u64, cut: bool },
}

impl Reason {
    /// The same reason in memory of its own. `AllocError` where memory runs out.
    pub fn copy(&self, alloc: Global) -> Result<Reason, AllocError>
        ensures { IfOk result (λ r. r ≡ self.now) }
    {
        Ok(Reason {
            requests: self.requests,
            literals: self.literals.copy(alloc)?,
            cut: self.cut,
        })
    }
}

impl Why {
    /// The same in memory of its own. `AllocError` where memory runs out.
    pub fn copy(&self, alloc: Global) -> Result<Why, AllocError>
        ensures { IfOk result (λ w. w ≡ self.now) }
    {
        match self {
            Why::Assumed => Ok(Why::Assumed),
            Why::Written(reason) => Ok(Why::Written(reason.copy(alloc)?)),
            Why::Here { requests, cut } => Ok(Why::Here {
                requests: *requests,
                cut: *cut,
            }),
        }
    }
}
