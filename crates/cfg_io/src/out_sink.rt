// A sink over a writer, as the standard output.
ghost use Rattle.std.specs.Prelude.{◌≡◌, ◌-◌, ◌^◌, ◌≤◌, ℕ, [], None, length, take, IfOk, OnOk, OnErr};
ghost use Rattle.std.specs.Io.KnownBytes.{Appends};
ghost use Rattle.std.specs.Result.{IsErrOf};
ghost use Rattle.cfg_io.specs.Causes.{Rose, raised};
ghost use Rattle.cfg_io.specs.Sinks.{TellsFront, TellsWhole};
ghost use Rattle.cfg_io.specs.Streams.{GetsFront};

use crate::sink::{Sink, WriteError};
use std::io;
use std::io::{ErrorKind, Write};
use std::marker::Model;

/// What a writer takes, as `io::writer(&rt)` for the standard output. Each piece is flushed before
/// it counts as written. The sink tells nothing of its bytes.
#[derive(Drop)]
pub struct OutSink<W> {
    out: W,
    faults: u64,
}

impl<W> Model for OutSink<W> {
    ghost use Rattle.std.specs.Prelude.{◌≤◌, ◌-◌, ◌^◌};
    ghost use Rattle.cfg_io.specs.OutSinks.{OutState};

    ghost Value = { OutState W };

    ghost view = { λ sink. record { out = sink.out; faults = sink.faults } };

    ghost invariant = { λ sink. sink.faults ≤ 2 ^ 64 - 1 };
}

impl<W: Write> OutSink<W> {
    /// A sink over this writer, with no faults so far.
    pub fn new(out: W) -> Self
        ensures out { result.out ≡ out }
        ensures faults { result.faults ≡ 0 }
        ensures untold { ⟦<OutSink<W> as Sink>⟧.written result ≡ None }
        ensures unfaulted { ⟦<OutSink<W> as Sink>⟧.faults result ≡ 0 }
    {
        OutSink { out, faults: 0 }
    }
}

impl<W: Write> Sink for OutSink<W> {
    ghost written = { λ _. None };

    ghost faults = { λ sink. sink.faults };

    /// `Failed` comes where the writer fails, or takes no byte of what is left, and where the flush
    /// fails. There is no `Memory`.
    fn write(&mut self, piece: &[u8]) -> Result<(), WriteError>
        // What each sink ensures.
        ensures failed { IsErrOf result WriteError.Failed → Rose self.old.faults self.new.faults }
        ensures uncounted { ¬ IsErrOf result WriteError.Failed
            → self.new.faults ≡ self.old.faults }
        ensures later { self.old.faults ≤ self.new.faults }
        ensures bounded { self.new.faults ≤ 2 ^ 64 - 1 }

        // What the writer gets, and what is counted.
        ensures whole { OnOk result
            (Appends (W.contents self.old.out) (W.contents self.new.out) piece.now) }
        ensures part { OnErr result
            (GetsFront (W.contents self.old.out) (W.contents self.new.out) piece.now) }
        ensures counted { OnErr result (self.new.faults ≡ raised self.old.faults) }
        ensures no_memory { (e : _) → IsErrOf result (WriteError.Memory e) → ⊥ }
    {
        match write_whole(&mut self.out, piece) {
            Ok(()) => Ok(()),
            Err(_) => {
                self.faults = self.faults.saturating_add(1);
                Err(WriteError::Failed)
            }
        }
    }
}

// Hands the whole piece to the writer, and flushes it.
fn write_whole<W: Write>(out: &mut W, piece: &[u8]) -> io::Result<()>
    ensures whole { OnOk result (Appends (W.contents out.old) (W.contents out.new) piece.now) }
    ensures front { OnErr result (GetsFront (W.contents out.old) (W.contents out.new) piece.now) }
{
    let mut rest = piece;
    for _ in 0..u64::MAX {
        if rest.is_empty() {
            return out.flush();
        }
        let count = write_once(out, rest)?;
        rest = &rest[count..];
    }
    Err(io::Error::from(ErrorKind::Interrupted))
}

// Writes once, and gives how many bytes the writer took. None is a failure, unless the call was
// interrupted.
fn write_once<W: Write>(out: &mut W, piece: &[u8]) -> io::Result<usize>
    ensures within { IfOk result (λ count. count ≤ length piece.now) }
    ensures appends { IfOk result (λ count.
        Appends (W.contents out.old) (W.contents out.new) (take count piece.now)) }
    ensures keeps { OnErr result (Appends (W.contents out.old) (W.contents out.new) []) }
{
    match out.write(piece) {
        Ok(0) => Err(io::Error::from(ErrorKind::WriteZero)),
        Ok(count) => Ok(count),
        Err(error) if error.kind() == ErrorKind::Interrupted => Ok(0),
        Err(error) => Err(error),
    }
}

#[cfg(test)]
mod tests {
    use super::*;
    use std::test::Fail;

    // Takes three bytes a call at most, is interrupted at the second call, and fails where it has
    // no room or does not flush.
    #[derive(Drop)]
    struct Stream {
        taken: Vec<u8>,
        calls: u8,
        room: usize,
        flushes: bool,
    }

    impl Write for Stream {
        fn write(&mut self, piece: &[u8]) -> io::Result<usize> {
            self.calls = self.calls.saturating_add(1);
            if self.calls == 2 {
                return Err(io::Error::from(ErrorKind::Interrupted));
            }
            let count = piece.len().min(3).min(self.room);
            self.taken.extend_from_slice(&piece[..count])?;
            self.room -= count;
            Ok(count)
        }

        fn flush(&mut self) -> io::Result<()> {
            if self.flushes {
                Ok(())
            } else {
                Err(io::Error::from(ErrorKind::Other))
            }
        }
    }

    #[test]
    fn writes_all_or_fails(rt: HostRuntime) -> Result<(), Fail> {
        for (room, flushes, wanted, is_written) in [
            (9, true, b"a text".as_slice(), true),
            (9, false, b"a text".as_slice(), false),
            (4, true, b"a te".as_slice(), false),
            (0, true, b"".as_slice(), false),
        ] {
            let taken = Vec::new(rt.alloc());
            let mut sink = OutSink::new(Stream {
                taken,
                calls: 0,
                room,
                flushes,
            });
            assert_eq!(rt;
                sink.write(b"a text").is_ok(),
                is_written,
                "with room for {room}"
            );
            assert_eq!(rt; sink.out.taken.as_slice(), wanted);
            assert_eq!(rt; sink.faults == 0, is_written);
        }
        Ok(())
    }

    #[test]
    fn writes_to_the_output(rt: HostRuntime) {
        let answer = OutSink::new(io::writer(&rt)).write(b"a text\n");
        assert!(rt; answer.is_ok(), "{answer:?}");
    }
}
