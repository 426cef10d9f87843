// What text is written to, as a caller sees it: what a write adds, and what stands behind an error.
ghost use Rattle.std.specs.Prelude.{◌≡◌, ℕ, ◌-◌, ◌^◌, ◌≤◌, List, OnOk};
ghost use Rattle.std.specs.declared.option.Option.{Option};
ghost use Rattle.std.specs.Result.{IsErrOf};
ghost use Rattle.cfg_io.specs.declared.sink.WriteError.TheVariants.{Memory};
ghost use Rattle.cfg_io.specs.Causes.{Rose};
ghost use Rattle.cfg_io.specs.Sinks.{TellsFront, TellsWhole};

use std::alloc::AllocError;
use thiserror::Error;

/// Why a piece was not written whole.
#[derive(Debug, Drop, Error)]
pub enum WriteError {
    /// The sink failed, and may have taken a part of the piece. The fault is counted.
    #[error("the text could not be written")]
    Failed,
    /// Memory ran out, and nothing was written.
    #[error(transparent)]
    Memory(AllocError),
}

impl From<AllocError> for WriteError {
    ghost from_gives = { λ error e. e ≡ Memory error };

    fn from(error: AllocError) -> Self {
        WriteError::Memory(error)
    }
}

/// What text is written to.
pub trait Sink {
    /// The bytes so far, where the sink tells them.
    ghost written: { Self → Option (List ℕ) };

    /// How often a write has failed.
    ghost faults: { Self → ℕ };

    /// Writes the whole piece.
    ///
    /// `Failed` comes only where the count of faults rose, after a part of the piece, from its
    /// front on, was written. `Memory` comes before anything was written. The count rises with no
    /// answer but `Failed`.
    fn write(&mut self, piece: &[u8]) -> Result<(), WriteError>
        // What is written.
        ensures whole { OnOk result (TellsWhole (written self.old) piece.now (written self.new)) }
        ensures front { IsErrOf result WriteError.Failed
            → TellsFront (written self.old) piece.now (written self.new) }
        ensures nothing { (e : _) → IsErrOf result (WriteError.Memory e)
            → written self.new ≡ written self.old }

        // The count of faults.
        ensures failed { IsErrOf result WriteError.Failed
            → Rose (faults self.old) (faults self.new) }
        ensures uncounted { ¬ IsErrOf result WriteError.Failed
            → faults self.new ≡ faults self.old }
        ensures later { faults self.old ≤ faults self.new }
        ensures bounded { faults self.new ≤ 2 ^ 64 - 1 };
}
