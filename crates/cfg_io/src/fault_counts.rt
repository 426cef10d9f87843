// The counts of faults of a shelf, one for each name.
ghost use Rattle.std.specs.Prelude.{◌≡◌, ◌-◌, ◌^◌, ◌≤◌, [], true, OnOk, OnErr, position, string_bytes};
ghost use Rattle.std.specs.Str.{bytes_eq};
ghost use Rattle.cfg_io.specs.Counts.{with_fault};
ghost use Rattle.cfg_io.specs.steps.Counts.{is_kept, with_room};

use std::alloc::{AllocError, Global};

#[derive(Drop)]
struct FaultCount {
    name: String,
    times: u64,
    ghost fits: { times ≤ 2 ^ 64 - 1 },
}

// The place of the name's count.
fn place_of(counts: &[FaultCount], name: &str) -> Option<usize>
    ensures { result ≡ position (λ c. bytes_eq (string_bytes c.name) name.now) counts.now }
{
    counts.iter().position(|count| count.name.as_str() == name)
}

#[derive(Drop)]
pub(crate) struct FaultCounts {
    alloc: Global,
    counts: Vec<FaultCount>,
}

impl FaultCounts {
    ghost use Rattle.cfg_io.specs.FaultCounts.{counts_of};

    pub(crate) fn new(alloc: Global) -> Self
        ensures { counts_of result ≡ [] }
    {
        FaultCounts {
            alloc,
            counts: Vec::new(alloc),
        }
    }

    // Keeps a count for the name, so that `raise` needs no memory.
    pub(crate) fn make_room(&mut self, name: &str) -> Result<(), AllocError>
        ensures ok { OnOk result (counts_of self.new ≡ with_room name.now (counts_of self.old)) }
        ensures err { OnErr result (counts_of self.new ≡ counts_of self.old) }
    {
        if place_of(&self.counts, name).is_none() {
            let name = String::from_str(self.alloc, name)?;
            self.counts.push(FaultCount { name, times: 0 })?;
        }
        Ok(())
    }

    // One more fault of the name.
    pub(crate) fn raise(&mut self, name: &str)
        requires { is_kept name.now (counts_of self.old) ≡ true }
        ensures { counts_of self.new ≡ with_fault name.now (counts_of self.old) }
    {
        let place = place_of(&self.counts, name).unwrap();
        let count = &mut self.counts[place];
        count.times = count.times.saturating_add(1);
    }
}
