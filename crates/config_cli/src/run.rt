// The run of a command: its files are read, and the text of what they result in is written.
ghost use Rattle.std.specs.Prelude.{◌<◌, ◌≡◌, ◌≢◌, ◌⊎◌, ℕ, ◌≤◌, List, []};
ghost use Rattle.std.specs.Option.{ForSome};
ghost use Rattle.cfg_io.specs.Causes.{Rose};
ghost use Rattle.config_cli.specs.Commands.{AsksForNoFile, AsksNothing, IsAskedFile};
ghost use Rattle.config_cli.specs.Results.{IsResult};
ghost use Rattle.config_cli.specs.Runs.{HasReadFault, Writes, texts};
ghost use Rattle.config_cli.specs.Statuses.{number_of};
ghost use Rattle.config_cli.specs.steps.Leaves.{LeavesAs};
ghost use Rattle.config_cli.specs.steps.Calls.{IsExactly};

mod fetch;
mod files;

use crate::commands::command_in;
use crate::status::Status;
use cfg_io::{Shelf, Sink, WriteError};
use files::outcome_of;
use std::alloc::Global;

const USAGE: &str = "usage: config_cli configure MODEL ORDER [--workers W] \
    | check MODEL ORDER ANSWER | demo N [--workers W]\n";

// Writes the text, and gives its status or that of the write's failure.
fn say<K: Sink>(out: &mut K, status: Status, text: &[u8]) -> Status
    ensures written { LeavesAs (IsExactly status text.now)
        (K.written out.old) (K.written out.new) result }
    ensures status { (result ≡ status)
        ⊎ ((result ≡ Status.WriteFailed) ⊎ (result ≡ Status.OutOfMemory)) }
    ensures failed { result ≡ Status.WriteFailed → status ≢ Status.WriteFailed
        → Rose (K.faults out.old) (K.faults out.new) }
    ensures uncounted { result ≢ Status.WriteFailed → K.faults out.new ≡ K.faults out.old }
    ensures nothing { result ≡ Status.OutOfMemory → status ≢ Status.OutOfMemory
        → K.written out.new ≡ K.written out.old }
    ensures later { K.faults out.old ≤ K.faults out.new }
{
    match out.write(text) {
        Ok(()) => status,
        Err(WriteError::Failed) => Status::WriteFailed,
        Err(WriteError::Memory(_)) => Status::OutOfMemory,
    }
}

// The same as `run_alone`, with the status as it is named.
fn run_words<S: Shelf, K: Sink>(
    alloc: Global,
    words: &[String],
    shelf: &mut S,
    out: &mut K,
) -> Status
    // What is written is the text of what the words and files result in, and the status is its
    // status.
    ensures result { ForSome (S.files shelf.old) (λ fs.
        LeavesAs (IsResult (texts words.now) fs) (K.written out.old) (K.written out.new) result) }
    ensures without_files { AsksForNoFile (texts words.now)
        → LeavesAs (IsResult (texts words.now) []) (K.written out.old) (K.written out.new) result }

    // The statuses, and what causes them.
    ensures answers { result ≢ Status.NoWords }
    ensures usage { result ≡ Status.Usage → AsksNothing (texts words.now) }
    ensures read { result ≡ Status.ReadFailed
        → HasReadFault (texts words.now) (S.faults shelf.old) (S.faults shelf.new) }
    ensures write { result ≡ Status.WriteFailed → Rose (K.faults out.old) (K.faults out.new) }
    ensures nothing { (result ≡ Status.ReadFailed) ⊎ (result ≡ Status.OutOfMemory)
        → K.written out.new ≡ K.written out.old }

    // What stays.
    ensures files { S.files shelf.new ≡ S.files shelf.old }
    ensures others { (n : List ℕ) → ¬ IsAskedFile (texts words.now) n
        → S.faults shelf.new n ≡ S.faults shelf.old n }
    ensures reads_uncounted { result ≢ Status.ReadFailed
        → (n : List ℕ) → S.faults shelf.new n ≡ S.faults shelf.old n }
    ensures writes_uncounted { result ≢ Status.WriteFailed
        → K.faults out.new ≡ K.faults out.old }
    ensures later { (n : List ℕ) → S.faults shelf.old n ≤ S.faults shelf.new n }
    ensures sink_later { K.faults out.old ≤ K.faults out.new }
{
    let Some(command) = command_in(words) else {
        return say(out, Status::Usage, USAGE.as_bytes());
    };
    match outcome_of(alloc, command, shelf) {
        Ok(outcome) => say(out, outcome.status, &outcome.text),
        Err(stop) => stop.status(),
    }
}

/// Does what the words say, on one worker, and gives the number of the status.
///
/// `configure MODEL ORDER` reads the files MODEL and ORDER of the shelf, in this order, and writes
/// what they result in with one call of `write`, whole:
///
/// - `Preferred` and the text of the preferred configuration, where all requests can be met;
/// - `Conflict` and the preferred conflict, where they can't;
/// - `Refused` and `refused FILE CODE PLACE`, where a file has a fault: the first of the model, or
///   else the first of the order.
///
/// `--workers W` behind it, with W from 1 to 64, changes nothing of this.
///
/// `check MODEL ORDER ANSWER` reads the three files in this order, and writes in the same way:
///
/// - `Satisfied` and the values of the criteria, where the answer's configuration satisfies the
///   model and meets all requests;
/// - `Broken` and the first test that it breaks, or else the first request that it doesn't meet;
/// - `Refused` and the first fault, the model's before the order's and this before the answer's.
///   Any model and order without fault are taken.
///
/// `Usage` and the usage line: the words are none of the accepted forms. `ReadFailed`: a read
/// failed, and nothing is written. `WriteFailed`: the write failed, and a part of the text may be
/// written. `OutOfMemory`: memory ran out, and nothing is written. A count of faults of the shelf
/// rises only with `ReadFailed`, and the sink's only with `WriteFailed`.
pub fn run_alone<S: Shelf, K: Sink>(
    alloc: Global,
    words: &[String],
    shelf: &mut S,
    out: &mut K,
) -> u8
    // What is written is the text of what the words and files result in, and the number is that of
    // its status.
    ensures result { ForSome (S.files shelf.old) (λ fs.
        Writes (IsResult (texts words.now) fs) (K.written out.old) (K.written out.new) result) }
    ensures without_files { AsksForNoFile (texts words.now)
        → Writes (IsResult (texts words.now) []) (K.written out.old) (K.written out.new) result }

    // The statuses, and what causes them.
    ensures answers { result < number_of Status.NoWords }
    ensures usage { result ≡ number_of Status.Usage → AsksNothing (texts words.now) }
    ensures read { result ≡ number_of Status.ReadFailed
        → HasReadFault (texts words.now) (S.faults shelf.old) (S.faults shelf.new) }
    ensures write { result ≡ number_of Status.WriteFailed
        → Rose (K.faults out.old) (K.faults out.new) }
    ensures nothing { (result ≡ number_of Status.ReadFailed)
        ⊎ (result ≡ number_of Status.OutOfMemory)
        → K.written out.new ≡ K.written out.old }

    // What stays.
    ensures files { S.files shelf.new ≡ S.files shelf.old }
    ensures others { (n : List ℕ) → ¬ IsAskedFile (texts words.now) n
        → S.faults shelf.new n ≡ S.faults shelf.old n }
    ensures reads_uncounted { result ≢ number_of Status.ReadFailed
        → (n : List ℕ) → S.faults shelf.new n ≡ S.faults shelf.old n }
    ensures writes_uncounted { result ≢ number_of Status.WriteFailed
        → K.faults out.new ≡ K.faults out.old }
    ensures later { (n : List ℕ) → S.faults shelf.old n ≤ S.faults shelf.new n }
    ensures sink_later { K.faults out.old ≤ K.faults out.new }
{
    run_words(alloc, words, shelf, out).number()
}

#[cfg(test)]
mod check_files;
#[cfg(test)]
mod check_rows;
#[cfg(test)]
mod checks;
#[cfg(test)]
mod examples;
#[cfg(test)]
mod products;
#[cfg(test)]
mod refusals;
#[cfg(test)]
mod refused_files;
#[cfg(test)]
mod tests;
