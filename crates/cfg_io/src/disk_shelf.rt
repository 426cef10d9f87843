// The files of the system, by path.
ghost use Rattle.std.specs.Prelude.{◌≡◌, ◌≢◌, ◌+◌, ◌-◌, ◌^◌, ◌≤◌, ◌<◌, [], List, ℕ, Some, None, Ok, true, ◌⊎◌, length, vec_len, IfOk, OnOk};
ghost use Rattle.std.specs.Io.KnownBytes.{IsAtEnd};
ghost use Rattle.std.specs.Option.{ForSome};
ghost use Rattle.std.specs.Result.{IsErrOf};
ghost use Rattle.cfg_io.specs.Causes.{Rose};
ghost use Rattle.cfg_io.specs.Counts.{count_of, with_fault};
ghost use Rattle.cfg_io.specs.steps.Counts.{is_kept};
ghost use Rattle.cfg_io.specs.FaultCounts.{counts_of};
ghost use Rattle.cfg_io.specs.Shelves.{file, IsLonger};
ghost use Rattle.cfg_io.specs.steps.Streams.{Moves, TakesAtMost};

use crate::fault_counts::FaultCounts;
use crate::shelf::{ReadError, Shelf};
use std::alloc::Global;
use std::fs::File;
use std::io::{ErrorKind, Read};
use std::marker::Model;
use std::rt::Files;

const PIECE: usize = 4096;

/// The files of the system: a name is a path. The shelf tells nothing of them.
#[derive(Drop)]
pub struct DiskShelf<'a, R> {
    alloc: Global,
    files: &'a R,
    faults: FaultCounts,
}

impl<'a, R> Model for DiskShelf<'a, R> {
    ghost use Rattle.std.specs.Prelude.{ℕ, List};
    ghost use Rattle.cfg_io.specs.FaultCounts.{counts_of};

    ghost Value = { List (List ℕ × ℕ) };

    ghost view = { λ shelf. counts_of shelf.faults };
}

impl<'a, R: Files> DiskShelf<'a, R> {
    /// The files that the runtime reaches, with no faults so far.
    pub fn new(alloc: Global, files: &'a R) -> Self
        ensures untold { ⟦<DiskShelf<'a, R> as Shelf>⟧.files result ≡ None }
        ensures unfaulted { (n : List ℕ) → ⟦<DiskShelf<'a, R> as Shelf>⟧.faults result n ≡ 0 }
    {
        DiskShelf {
            alloc,
            files,
            faults: FaultCounts::new(alloc),
        }
    }
}

impl<'a, R: Files> Shelf for DiskShelf<'a, R> {
    ghost files = { λ _. None };

    ghost faults = { λ counts name. count_of name counts };

    /// `Failed` comes where the file can't be opened or a read of it fails, and then alone a count
    /// rises, that of the name. At most `limit + 1`
    /// bytes are taken, and `TooLong` comes once they are. `Memory` comes before the file is
    /// opened, or where its bytes find no room.
    fn read(&mut self, name: &str, limit: usize) -> Result<Vec<u8>, ReadError> {
        self.faults.make_room(name)?;
        let answer = read_file(self.alloc, self.files, name, limit);
        count_if_failed(&mut self.faults, name, &answer);
        answer
    }
}

// Counts a fault of the name where the read failed.
fn count_if_failed(faults: &mut FaultCounts, name: &str, answer: &Result<Vec<u8>, ReadError>)
    requires { is_kept name.now (counts_of faults.old) ≡ true }
    ensures failed { IsErrOf answer.now ReadError.Failed
        → counts_of faults.new ≡ with_fault name.now (counts_of faults.old) }
    ensures uncounted { ¬ IsErrOf answer.now ReadError.Failed
        → counts_of faults.new ≡ counts_of faults.old }
    ensures one { (counts_of faults.new ≡ counts_of faults.old)
        ⊎ (counts_of faults.new ≡ with_fault name.now (counts_of faults.old)) }
{
    match answer {
        Err(ReadError::Failed) => faults.raise(name),
        Ok(_) | Err(ReadError::TooLong | ReadError::Memory(_)) => {}
    }
}

fn read_file<R: Files>(
    alloc: Global,
    files: &R,
    path: &str,
    limit: usize,
) -> Result<Vec<u8>, ReadError>
    ensures { IfOk result (λ bytes. length bytes.items ≤ limit) }
{
    match File::open(files, path) {
        Ok(mut file) => read_at_most(alloc, &mut file, limit),
        Err(_) => Err(ReadError::Failed),
    }
}

// Reads to the end, and stops once more than `limit` bytes have come.
fn read_at_most<F: Read>(alloc: Global, file: &mut F, limit: usize) -> Result<Vec<u8>, ReadError>
    ensures whole { IfOk result (λ bytes.
        ForSome (F.remaining file.old) (λ all. bytes.items ≡ all)) }
    ensures short { IfOk result (λ bytes. length bytes.items ≤ limit) }
    ensures longer { IsErrOf result ReadError.TooLong
        → ForSome (F.remaining file.old) (λ all. limit < length all) }
    ensures taken { TakesAtMost (limit + 1) (F.remaining file.old) (F.remaining file.new) }
{
    let mut bytes = Vec::new(alloc);
    for _ in 0..u64::MAX {
        if take_piece(file, &mut bytes, limit)? {
            return Ok(bytes);
        }
    }
    Err(ReadError::Failed)
}

// Reads once, and tells whether the end was reached.
fn take_piece<F: Read>(file: &mut F, bytes: &mut Vec<u8>, limit: usize) -> Result<bool, ReadError>
    requires { vec_len bytes.old ≤ limit }
    ensures moves { OnOk result
        (Moves (F.remaining file.old) (F.remaining file.new) bytes.old.items bytes.new.items) }
    ensures short { OnOk result (vec_len bytes.new ≤ limit) }
    ensures end { result ≡ Ok true → IsAtEnd (F.remaining file.new) }
    ensures longer { IsErrOf result ReadError.TooLong
        → ForSome (F.remaining file.old) (λ all. limit < vec_len bytes.old + length all) }
    ensures taken { TakesAtMost (limit + 1 - vec_len bytes.old)
        (F.remaining file.old) (F.remaining file.new) }
{
    let room = limit - bytes.len();
    let mut buffer = [0; PIECE];
    let wanted = if room < PIECE { room + 1 } else { PIECE };
    match file.read(&mut buffer[..wanted]) {
        Ok(0) => Ok(true),
        Ok(count) if count > room => Err(ReadError::TooLong),
        Ok(count) => {
            bytes.extend_from_slice(&buffer[..count])?;
            Ok(false)
        }
        Err(error) if error.kind() == ErrorKind::Interrupted => Ok(false),
        Err(_) => Err(ReadError::Failed),
    }
}

#[cfg(test)]
mod tests {
    use super::*;
    use std::test::Fail;
    use std::{fs, io};

    // More than one piece of the buffer.
    const LENGTH: usize = PIECE + 904;

    // The length that was read, or 1 more than the limit where the file is too long.
    fn length_read(answer: Result<Vec<u8>, ReadError>, limit: usize) -> Option<usize> {
        match answer {
            Ok(bytes) => Some(bytes.len()),
            Err(ReadError::TooLong) => limit.checked_add(1),
            Err(ReadError::Failed | ReadError::Memory(_)) => None,
        }
    }

    #[test]
    fn reads_files_up_to_the_limit(rt: HostRuntime) -> Result<(), Fail> {
        let alloc = rt.alloc();
        let bytes = vec![in alloc; b'x'; LENGTH]?;
        fs::write(&rt, "long.txt", bytes.as_slice())?;
        let mut shelf = DiskShelf::new(alloc, &rt);
        for (name, limit, wanted) in [
            ("long.txt", LENGTH, Some(LENGTH)),
            ("long.txt", usize::MAX, Some(LENGTH)),
            ("long.txt", LENGTH - 1, Some(LENGTH)),
            ("long.txt", PIECE, Some(PIECE + 1)),
            ("long.txt", 0, Some(1)),
            ("none.txt", LENGTH, None),
        ] {
            let length = length_read(shelf.read(name, limit), limit);
            assert_eq!(rt; length, wanted, "{name} at {limit}");
        }
        Ok(())
    }

    // Gives a byte a call, is interrupted in between, and fails at the end if it is to.
    #[derive(Drop)]
    struct Stream {
        calls: u8,
        fails: bool,
    }

    impl Read for Stream {
        fn read(&mut self, buffer: &mut [u8]) -> io::Result<usize> {
            self.calls = self.calls.saturating_add(1);
            if self.calls == 2 {
                return Err(io::Error::from(ErrorKind::Interrupted));
            }
            if self.calls < 5 {
                return match buffer.first_mut() {
                    Some(byte) => {
                        *byte = self.calls;
                        Ok(1)
                    }
                    None => Ok(0),
                };
            }
            if self.fails {
                return Err(io::Error::from(ErrorKind::Other));
            }
            Ok(0)
        }
    }

    #[test]
    fn goes_on_after_an_interruption(rt: HostRuntime) -> Result<(), Fail> {
        let mut stream = Stream {
            calls: 0,
            fails: false,
        };
        let bytes = read_at_most(rt.alloc(), &mut stream, 3)?;
        assert_eq!(rt; bytes.as_slice(), [1, 3, 4].as_slice());
        let mut stream = Stream {
            calls: 0,
            fails: true,
        };
        let answer = read_at_most(rt.alloc(), &mut stream, 3);
        assert!(rt; matches!(&answer, Err(ReadError::Failed)), "{answer:?}");
        Ok(())
    }
}
