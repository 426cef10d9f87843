// Named files as a caller sees them: what a read gives, and what stands behind each error.
ghost use Rattle.std.specs.Prelude.{◌≡◌, ◌≢◌, ℕ, ◌-◌, ◌^◌, ◌≤◌, ◌<◌, List, length, Some, IfOk};
ghost use Rattle.std.specs.declared.option.Option.{Option};
ghost use Rattle.std.specs.Option.{ForSome};
ghost use Rattle.std.specs.Result.{IsErrOf};
ghost use Rattle.cfg_io.specs.declared.shelf.ReadError.TheVariants.{Memory};
ghost use Rattle.cfg_io.specs.Causes.{Rose};
ghost use Rattle.cfg_io.specs.Shelves.{TellsBytes, TellsMore};

use std::alloc::{AllocError, AllocFailed};
use thiserror::Error;

/// Why a file was not read.
#[derive(Debug, Drop, Error)]
pub enum ReadError {
    /// The shelf failed, or it has no file of that name. The fault is counted.
    #[error("the file could not be read")]
    Failed,
    /// The file has more bytes than the caller allows.
    #[error("the file is longer than its limit")]
    TooLong,
    /// Memory ran out.
    #[error(transparent)]
    Memory(AllocError),
}

impl From<AllocError> for ReadError {
    ghost from_gives = { λ error e. e ≡ Memory error };

    fn from(error: AllocError) -> Self {
        ReadError::Memory(error)
    }
}

/// Named files.
pub trait Shelf {
    /// The names and bytes, where the shelf tells them. Of two files of one name the first counts.
    ghost files: { Self → Option (List (List ℕ × List ℕ)) };

    /// How often a read of the name has failed.
    ghost faults: { Self → List ℕ → ℕ };

    /// Reads the file of that name, if it has at most `limit` bytes.
    ///
    /// `Failed` comes only where the name's count of faults rose, and no count rises with another
    /// answer. `TooLong` comes where the file has more than `limit` bytes. Where the shelf tells
    /// its files, a file that is there and no longer than `limit` gives its bytes, unless the call
    /// fails or memory runs out.
    fn read(&mut self, name: &str, limit: usize) -> Result<Vec<u8>, ReadError>
        ensures same { files self.new ≡ files self.old }

        // What is answered.
        ensures short { IfOk result (λ bytes. length bytes.items ≤ limit) }
        ensures found { IfOk result (λ bytes. TellsBytes (files self.old) name.now bytes.items) }
        ensures too_long { IsErrOf result ReadError.TooLong
            → TellsMore (files self.old) name.now limit }
        ensures failed { IsErrOf result ReadError.Failed
            → Rose (faults self.old name.now) (faults self.new name.now) }

        // The counts of faults.
        ensures uncounted { ¬ IsErrOf result ReadError.Failed
            → (n : List ℕ) → faults self.new n ≡ faults self.old n }
        ensures later { (n : List ℕ) → faults self.old n ≤ faults self.new n }
        ensures others { (n : List ℕ) → n ≢ name.now → faults self.new n ≡ faults self.old n }
        ensures bounded { (n : List ℕ) → faults self.new n ≤ 2 ^ 64 - 1 };
}
