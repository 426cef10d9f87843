// Files in memory, which fail on the calls that are listed.
ghost use Rattle.std.specs.Prelude.{◌≡◌, ◌≢◌, ◌-◌, ◌^◌, ◌≤◌, ◌<◌, [], List, ℕ, Some, None, find, string_bytes, length, ◌⊎◌, IsOk, IfOk, OnOk, OnErr};
ghost use Rattle.std.specs.Option.{option_copied};
ghost use Rattle.std.specs.Result.{IsErrOf};
ghost use Rattle.std.specs.Str.{bytes_eq};
ghost use Rattle.cfg_io.specs.Causes.{Rose};
ghost use Rattle.cfg_io.specs.Counts.{count_of};
ghost use Rattle.cfg_io.specs.steps.Counts.{AreBounded};
ghost use Rattle.cfg_io.specs.Memory.{LacksMemory};
ghost use Rattle.cfg_io.specs.MemoryShelves.{after_call, after_fault, Exceeds, Fails, Gives, is_to_fail};
ghost use Rattle.cfg_io.specs.MemoryFiles.{named_bytes};
ghost use Rattle.cfg_io.specs.Shelves.{file, IsLonger, TellsBytes, TellsMore};

use crate::fault_counts::FaultCounts;
use crate::shelf::{ReadError, Shelf};
use std::alloc::{AllocError, Global};
use std::marker::Model;

/// Files in memory. A call fails where its number, counted from 0, is listed, or where no file has
/// the name. The calls are counted up to the last value of 64 bits.
#[derive(Drop)]
pub struct MemoryShelf {
    alloc: Global,
    files: Vec<(String, Vec<u8>)>,
    failing: Vec<u32>,
    calls: u64,
    faults: FaultCounts,
}

impl Model for MemoryShelf {
    ghost use Rattle.cfg_io.specs.MemoryShelves.{ShelfState};

    ghost Value = { ShelfState };

    ghost use Rattle.cfg_io.specs.MemoryFiles.{shelf_state};

    ghost view = { shelf_state };
}

impl MemoryShelf {
    /// A shelf of these files, which fails on the calls of these numbers.
    pub fn new(alloc: Global, files: Vec<(String, Vec<u8>)>, failing: Vec<u32>) -> Self
        ensures files { result.files ≡ named_bytes files.items }
        ensures failing { result.failing ≡ failing.items }
        ensures calls { result.calls ≡ 0 }
        ensures faults { result.faults ≡ [] }

        // What the shelf tells.
        ensures told { ⟦<MemoryShelf as Shelf>⟧.files result ≡ Some (named_bytes files.items) }
        ensures unfaulted { (n : List ℕ) → ⟦<MemoryShelf as Shelf>⟧.faults result n ≡ 0 }
    {
        MemoryShelf {
            alloc,
            files,
            failing,
            calls: 0,
            faults: FaultCounts::new(alloc),
        }
    }

    fn is_to_fail(&self) -> bool
        ensures value { result ≡ is_to_fail self.now }
        ensures bounded { AreBounded self.now.faults }
    {
        self.failing
            .iter()
            .any(|call| u64::from(*call) == self.calls)
    }

    // What the next call answers, before it is counted.
    fn answer(&self, name: &str, limit: usize) -> Result<Vec<u8>, ReadError>
        ensures gives { IfOk result (λ bytes. Gives self.now name.now limit bytes.items) }
        ensures exceeds { IsErrOf result ReadError.TooLong → Exceeds self.now name.now limit }
        ensures fails { IsErrOf result ReadError.Failed → Fails self.now name.now }
        ensures bounded { AreBounded self.now.faults }
    {
        if self.is_to_fail() {
            return Err(ReadError::Failed);
        }
        look_up(self.alloc, &self.files, name, limit)
    }

    fn count_call(&mut self)
        ensures { self.new ≡ after_call self.old }
    {
        self.calls = self.calls.saturating_add(1);
    }

    fn count_fault(&mut self, name: &str) -> Result<(), AllocError>
        ensures ok { OnOk result (self.new ≡ after_fault name.now self.old) }
        ensures err { OnErr result (self.new ≡ self.old) }
    {
        self.faults.make_room(name)?;
        self.faults.raise(name);
        self.count_call();
        Ok(())
    }
}

impl Shelf for MemoryShelf {
    ghost files = { λ shelf. Some shelf.files };

    ghost faults = { λ shelf name. count_of name shelf.faults };

    /// `Failed` comes exactly where the call is listed or no file has the name. `Memory` changes
    /// nothing, and the call is not counted.
    fn read(&mut self, name: &str, limit: usize) -> Result<Vec<u8>, ReadError>
        // What each shelf ensures.
        ensures same { self.new.files ≡ self.old.files }
        ensures short { IfOk result (λ bytes. length bytes.items ≤ limit) }
        ensures found { IfOk result (λ bytes.
            TellsBytes (Some self.old.files) name.now bytes.items) }
        ensures too_long { IsErrOf result ReadError.TooLong
            → TellsMore (Some self.old.files) name.now limit }
        ensures failed { IsErrOf result ReadError.Failed
            → Rose (count_of name.now self.old.faults) (count_of name.now self.new.faults) }
        ensures uncounted { ¬ IsErrOf result ReadError.Failed
            → (n : List ℕ) → count_of n self.new.faults ≡ count_of n self.old.faults }
        ensures later { (n : List ℕ) → count_of n self.old.faults ≤ count_of n self.new.faults }
        ensures others { (n : List ℕ) → n ≢ name.now
            → count_of n self.new.faults ≡ count_of n self.old.faults }
        ensures bounded { (n : List ℕ) → count_of n self.new.faults ≤ 2 ^ 64 - 1 }

        // When each answer comes.
        ensures gives { IfOk result (λ bytes. Gives self.old name.now limit bytes.items) }
        ensures exceeds { IsErrOf result ReadError.TooLong → Exceeds self.old name.now limit }
        ensures fails { IsErrOf result ReadError.Failed → Fails self.old name.now }

        // It does come there, unless memory runs out.
        ensures must_give { (bytes : List ℕ) → Gives self.old name.now limit bytes
            → IsOk result ⊎ LacksMemory ReadError.Memory result }
        ensures must_exceed { Exceeds self.old name.now limit
            → IsErrOf result ReadError.TooLong ⊎ LacksMemory ReadError.Memory result }
        ensures must_fail { Fails self.old name.now
            → IsErrOf result ReadError.Failed ⊎ LacksMemory ReadError.Memory result }

        // What is counted.
        ensures counts_read { OnOk result (self.new ≡ after_call self.old) }
        ensures counts_too_long { IsErrOf result ReadError.TooLong
            → self.new ≡ after_call self.old }
        ensures counts_failed { IsErrOf result ReadError.Failed
            → self.new ≡ after_fault name.now self.old }
        ensures unchanged { (e : _) → IsErrOf result (ReadError.Memory e) → self.new ≡ self.old }
    {
        match self.answer(name, limit) {
            Ok(bytes) => {
                self.count_call();
                Ok(bytes)
            }
            Err(ReadError::Failed) => {
                self.count_fault(name)?;
                Err(ReadError::Failed)
            }
            Err(ReadError::TooLong) => {
                self.count_call();
                Err(ReadError::TooLong)
            }
            Err(ReadError::Memory(error)) => Err(ReadError::Memory(error)),
        }
    }
}

// The bytes of the first file of the name.
#[tactic(auto, using(crate::proofs::FileLaws::file_found))]
fn look_up(
    alloc: Global,
    files: &[(String, Vec<u8>)],
    name: &str,
    limit: usize,
) -> Result<Vec<u8>, ReadError>
    ensures found { IfOk result (λ bytes.
        (file name.now (named_bytes files.now) ≡ Some bytes.items) × (length bytes.items ≤ limit)) }
    ensures longer { IsErrOf result ReadError.TooLong
        → IsLonger limit (file name.now (named_bytes files.now)) }
    ensures missing { IsErrOf result ReadError.Failed
        → file name.now (named_bytes files.now) ≡ None }
{
    match first_of_name(files, name) {
        None => Err(ReadError::Failed),
        Some(entry) if entry.1.len() > limit => Err(ReadError::TooLong),
        Some(entry) => Ok(entry.1.to_vec(alloc)?),
    }
}

// The first file of the name.
fn first_of_name<'a>(files: &'a [(String, Vec<u8>)], name: &str) -> Option<&'a (String, Vec<u8>)>
    ensures { option_copied result ≡ find (λ f. bytes_eq (string_bytes f.0) name.now) files.now }
{
    files.iter().find(|file| file.0.as_str() == name)
}

#[cfg(test)]
mod tests {
    use super::*;
    use std::test::Fail;

    // What a read is to answer.
    #[derive(Clone, Copy, Debug)]
    enum Wanted {
        Bytes(&'static str),
        Failed,
        TooLong,
    }

    fn is_as_wanted(answer: &Result<Vec<u8>, ReadError>, wanted: Wanted) -> bool {
        match (answer, wanted) {
            (Ok(bytes), Wanted::Bytes(text)) => bytes.as_slice() == text.as_bytes(),
            (Err(ReadError::Failed), Wanted::Failed) => true,
            (Err(ReadError::TooLong), Wanted::TooLong) => true,
            _ => false,
        }
    }

    // Two files of one name, and an empty one; the call number 3 fails.
    fn sample(alloc: Global) -> Result<MemoryShelf, AllocError> {
        let mut files = Vec::new(alloc);
        for (name, text) in [("model", "first"), ("order", ""), ("model", "second")] {
            let name = String::from_str(alloc, name)?;
            files.push((name, text.as_bytes().to_vec(alloc)?))?;
        }
        Ok(MemoryShelf::new(alloc, files, [3].to_vec(alloc)?))
    }

    #[test]
    fn reads_the_first_file_of_a_name(rt: HostRuntime) -> Result<(), Fail> {
        let mut shelf = sample(rt.alloc())?;
        let calls = [
            ("model", 5, Wanted::Bytes("first")),
            ("model", 4, Wanted::TooLong),
            ("order", 0, Wanted::Bytes("")),
            ("model", 5, Wanted::Failed),
            ("other", 5, Wanted::Failed),
            ("model", usize::MAX, Wanted::Bytes("first")),
        ];
        for (name, limit, wanted) in calls {
            let answer = shelf.read(name, limit);
            assert!(rt;
                is_as_wanted(&answer, wanted),
                "{name} at {limit}: {answer:?}"
            );
        }
        Ok(())
    }
}
