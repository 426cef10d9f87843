//! Configures products: reads a product model and an order, and prints the preferred configuration
//! or the preferred conflict.
#![tactic(auto)]

ghost use Rattle.std.specs.Prelude.{◌≡◌, ◌⊎◌};

mod asking;
mod check;
mod check_texts;
mod commands;
mod filtering;
mod item_names;
mod names;
mod outcome;
mod run;
mod solved;
mod status;
mod texts;

use cfg_io::{DiskShelf, OutSink};
pub use run::run_alone;
pub use status::Status;
use std::alloc::{AllocError, Global};
use std::env::{self, Env};
use std::io::{self, ErrorKind};
use std::process::ExitCode;

// The words of the command line, without the program's name.
fn command_words<R: Env + Alloc<A = Global>>(rt: &R) -> io::Result<Vec<String>> {
    let words = env::args(rt)?.skip(1).collect(rt.alloc())?;
    Ok(words)
}

// The status where the words can't be got: for want of memory, or else.
fn status_without_words(error: &io::Error) -> Status
    ensures { (result ≡ Status.OutOfMemory) ⊎ (result ≡ Status.NoWords) }
{
    if error.kind() == ErrorKind::OutOfMemory {
        Status::OutOfMemory
    } else {
        Status::NoWords
    }
}

/// Runs the command over the files of the system and the standard output, and ends with its status.
fn main(rt: HostRuntime) -> ExitCode {
    let words = match command_words(&rt) {
        Ok(words) => words,
        Err(error) => return ExitCode::from(status_without_words(&error).number()),
    };
    let mut shelf = DiskShelf::new(rt.alloc(), &rt);
    let mut out = OutSink::new(io::writer(&rt));
    ExitCode::from(run_alone(rt.alloc(), &words, &mut shelf, &mut out))
}

#[cfg(test)]
mod tests {
    use super::*;

    #[test]
    fn tells_want_of_memory_from_other_causes(rt: HostRuntime) {
        for (kind, number) in [
            (ErrorKind::OutOfMemory, 6),
            (ErrorKind::InvalidData, 7),
            (ErrorKind::Other, 7),
        ] {
            let status = status_without_words(&io::Error::from(kind));
            assert_eq!(rt; status.number(), number, "{status:?}");
        }
    }
}
