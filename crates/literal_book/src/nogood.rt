//! What no configuration that satisfies a model does together, and parts of all configurations.
ghost use Rattle.std.specs.Prelude.{◌≡◌, IfOk};

use crate::literals::Literals;
use std::alloc::{AllocError, Global};

/// Requests and literals. A sound nogood says that no configuration that satisfies the model meets
/// all the requests and has all the literals. Bit k of `requests` stands for the request at place k
/// of an order, from 0 to 63.
#[derive(Drop)]
pub struct Nogood {
    pub requests: u64,
    pub literals: Literals,
}

/// The configurations in which all its literals hold.
#[derive(Drop)]
pub struct Piece {
    pub literals: Literals,
}

impl Nogood {
    /// A nogood of the same requests and literals. `AllocError` where memory runs out.
    pub fn copy(&self, alloc: Global) -> Result<Nogood, AllocError>
        ensures { IfOk result (λ n. n ≡ self.now) }
    {
        Ok(Nogood {
            requests: self.requests,
            literals: self.literals.copy(alloc)?,
        })
    }
}

impl Piece {
    /// A piece of the same literals. `AllocError` where memory runs out.
    pub fn copy(&self, alloc: Global) -> Result<Piece, AllocError>
        ensures { IfOk result (λ p. p ≡ self.now) }
    {
        Ok(Piece {
            literals: self.literals.copy(alloc)?,
        })
    }
}
