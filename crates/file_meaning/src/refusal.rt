//! Why a file, or an expression of a file, is refused.
use file_values::Fault;
use std::alloc::AllocError;
use thiserror::Error;

/// Why a file, or an expression of a file, is refused.
#[derive(Debug, Drop, Error)]
pub enum Refusal {
    /// The first fault.
    #[error("a fault")]
    Fault(Fault),
    /// Memory ran out.
    #[error("out of memory")]
    Memory(AllocError),
}
