//! Reads one file of a shelf.
ghost use Rattle.std.specs.Prelude.{◌≡◌, ◌≢◌, ℕ, ◌≤◌, List, IfOk};
ghost use Rattle.std.specs.Option.{ForSome};
ghost use Rattle.cfg_io.specs.Causes.{Rose};
ghost use Rattle.config_cli.specs.steps.Calls.{status_of};
ghost use Rattle.config_cli.specs.steps.Fetched.{IsFetchAt, IsShort};

use crate::outcome::Fetched;
use crate::status::Status;
use cfg_io::{ReadError, Shelf};

/// Why there is no outcome.
#[derive(Drop)]
pub enum Stop {
    /// A read failed.
    Failed,
    /// Memory ran out.
    Memory,
}

impl Stop {
    /// The status of a run that stops so.
    pub fn status(self) -> Status
        ensures { result ≡ status_of self }
    {
        match self {
            Stop::Failed => Status::ReadFailed,
            Stop::Memory => Status::OutOfMemory,
        }
    }
}

/// Reads a file, as far as the limit.
pub fn fetch<S: Shelf>(shelf: &mut S, name: &str, limit: usize) -> Result<Fetched, Stop>
    ensures same { S.files shelf.new ≡ S.files shelf.old }
    ensures fetched { IfOk result (λ found.
        ForSome (S.files shelf.old) (λ fs. IsFetchAt limit fs name.now found)) }
    ensures short { IfOk result (IsShort limit) }
    ensures failed { result ≡ Err Stop.Failed
        → Rose (S.faults shelf.old name.now) (S.faults shelf.new name.now) }
    ensures uncounted { result ≢ Err Stop.Failed
        → (n : List ℕ) → S.faults shelf.new n ≡ S.faults shelf.old n }
    ensures later { (n : List ℕ) → S.faults shelf.old n ≤ S.faults shelf.new n }
    ensures others { (n : List ℕ) → n ≢ name.now → S.faults shelf.new n ≡ S.faults shelf.old n }
{
    match shelf.read(name, limit) {
        Ok(bytes) => Ok(Fetched::Bytes(bytes)),
        Err(ReadError::TooLong) => Ok(Fetched::TooLong),
        Err(ReadError::Failed) => Err(Stop::Failed),
        Err(ReadError::Memory(_)) => Err(Stop::Memory),
    }
}
