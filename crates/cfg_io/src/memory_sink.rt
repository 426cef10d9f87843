// Text that is written into memory, with failures at the calls that are listed.
ghost use Rattle.std.specs.Prelude.{◌≡◌, ◌-◌, ◌^◌, ◌≤◌, ◌++◌, [], Some, None, find, ◌==◌, ◌⊎◌, IsOk, OnOk, IsSome, IfSome};
ghost use Rattle.std.specs.Option.{option_copied};
ghost use Rattle.std.specs.Result.{IsErrOf};
ghost use Rattle.cfg_io.specs.Causes.{Rose};
ghost use Rattle.cfg_io.specs.Memory.{LacksMemory};
ghost use Rattle.cfg_io.specs.MemorySinks.{after_stop, after_write, stop_of};
ghost use Rattle.cfg_io.specs.Sinks.{TellsFront, TellsWhole};

use crate::sink::{Sink, WriteError};
use std::alloc::Global;
use std::marker::Model;

/// What is written stands in memory. A call fails where its number, counted from 0, is listed; it
/// lets the given number of bytes out first, or the whole piece where that is shorter. Of two
/// entries for one call the first counts. The calls are counted up to the last value of 64 bits.
#[derive(Drop)]
pub struct MemorySink {
    written: Vec<u8>,
    failing: Vec<(u32, u32)>,
    calls: u64,
    faults: u64,
}

impl Model for MemorySink {
    ghost use Rattle.std.specs.Prelude.{◌≤◌, ◌-◌, ◌^◌};
    ghost use Rattle.cfg_io.specs.MemorySinks.{SinkState};

    ghost Value = { SinkState };

    ghost view = { λ sink. record {
      written = sink.written.items;
      failing = sink.failing.items;
      calls = sink.calls;
      faults = sink.faults;
    } };

    ghost invariant = { λ sink. sink.faults ≤ 2 ^ 64 - 1 };
}

impl MemorySink {
    /// An empty sink, which fails on these calls after so many bytes.
    pub fn new(alloc: Global, failing: Vec<(u32, u32)>) -> Self
        ensures written { result.written ≡ [] }
        ensures failing { result.failing ≡ failing.items }
        ensures calls { result.calls ≡ 0 }
        ensures faults { result.faults ≡ 0 }

        // What the sink tells.
        ensures told { ⟦<MemorySink as Sink>⟧.written result ≡ Some [] }
        ensures unfaulted { ⟦<MemorySink as Sink>⟧.faults result ≡ 0 }
    {
        MemorySink {
            written: Vec::new(alloc),
            failing,
            calls: 0,
            faults: 0,
        }
    }

    /// What was written.
    pub fn written(&self) -> &[u8]
        ensures { result.now ≡ self.now.written }
    {
        &self.written
    }
}

impl Sink for MemorySink {
    ghost written = { λ sink. Some sink.written };

    ghost faults = { λ sink. sink.faults };

    /// `Failed` comes exactly where the call is listed. `Memory` changes nothing, and the call is
    /// not counted.
    fn write(&mut self, piece: &[u8]) -> Result<(), WriteError>
        // What each sink ensures.
        ensures whole { OnOk result
            (TellsWhole (Some self.old.written) piece.now (Some self.new.written)) }
        ensures front { IsErrOf result WriteError.Failed
            → TellsFront (Some self.old.written) piece.now (Some self.new.written) }
        ensures nothing { (e : _) → IsErrOf result (WriteError.Memory e)
            → Some self.new.written ≡ Some self.old.written }
        ensures failed { IsErrOf result WriteError.Failed → Rose self.old.faults self.new.faults }
        ensures uncounted { ¬ IsErrOf result WriteError.Failed
            → self.new.faults ≡ self.old.faults }
        ensures later { self.old.faults ≤ self.new.faults }
        ensures bounded { self.new.faults ≤ 2 ^ 64 - 1 }

        // When each answer comes, and that it does come there, unless memory runs out.
        ensures passes { OnOk result (stop_of self.old.calls self.old.failing ≡ None) }
        ensures fails { IsErrOf result WriteError.Failed
            → IsSome (stop_of self.old.calls self.old.failing) }
        ensures must_pass { stop_of self.old.calls self.old.failing ≡ None
            → IsOk result ⊎ LacksMemory WriteError.Memory result }
        ensures must_fail { IsSome (stop_of self.old.calls self.old.failing)
            → IsErrOf result WriteError.Failed ⊎ LacksMemory WriteError.Memory result }

        // What is written then, and what is counted.
        ensures writes { OnOk result (self.new ≡ after_write piece.now self.old) }
        ensures stops { IsErrOf result WriteError.Failed
            → IfSome (stop_of self.old.calls self.old.failing) (λ stop.
            self.new ≡ after_stop stop piece.now self.old) }
        ensures unchanged { (e : _) → IsErrOf result (WriteError.Memory e) → self.new ≡ self.old }
    {
        match entry_of(&self.failing, self.calls) {
            None => {
                self.written.extend_from_slice(piece)?;
                self.calls = self.calls.saturating_add(1);
                Ok(())
            }
            Some(entry) => {
                let count = piece.len().min(entry.1 as usize);
                self.written.extend_from_slice(&piece[..count])?;
                self.calls = self.calls.saturating_add(1);
                self.faults = self.faults.saturating_add(1);
                Err(WriteError::Failed)
            }
        }
    }
}

// The first entry for the call.
fn entry_of(failing: &[(u32, u32)], call: u64) -> Option<&(u32, u32)>
    ensures { option_copied result ≡ find (λ f. f.0 == call) failing.now }
{
    failing.iter().find(|entry| u64::from(entry.0) == call)
}

#[cfg(test)]
mod tests {
    use super::*;
    use std::test::Fail;

    const PIECE: &[u8] = b"sixteen bytes it";

    #[test]
    fn stops_where_the_first_entry_says(rt: HostRuntime) -> Result<(), Fail> {
        let alloc = rt.alloc();
        let failing = [(0, 10), (1, 0), (2, 99), (2, 1)].to_vec(alloc)?;
        let mut sink = MemorySink::new(alloc, failing);
        for (is_written, length) in [(false, 10), (false, 10), (false, 26), (true, 42)] {
            let answer = sink.write(PIECE);
            assert_eq!(rt; answer.is_ok(), is_written, "at {length}: {answer:?}");
            assert_eq!(rt; sink.written().len(), length);
        }
        let wanted = b"sixteen bysixteen bytes itsixteen bytes it";
        assert_eq!(rt; sink.written(), wanted.as_slice());
        Ok(())
    }
}
