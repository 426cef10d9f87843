//! Entries of a trail.
ghost use Rattle.std.specs.Prelude.{◌≡◌, IfOk};

use crate::reason::Why;
use config_value::Literal;
use std::alloc::{AllocError, Global};

/// A literal by which the state of a trail was changed, and why it holds.
#[derive(Drop)]
pub struct Entry {
    pub literal: Literal,
    pub why: Why,
}

/// An entry with the length that the log had before it.
#[derive(Drop)]
pub(crate) struct Marked {
    pub(crate) entry: Entry,
    pub(crate) mark: u32,
}

impl Marked {
    /// The same in memory of its own.
    pub(crate) fn copy(&self, alloc: Global) -> Result<Marked, AllocError>
        ensures { IfOk result (λ e. e ≡ self.now) }
    {
        let entry = Entry {
            literal: self.entry.literal,
            why: self.entry.why.copy(alloc)?,
        };
        Ok(Marked {
            entry,
            mark: self.mark,
        })
    }
}
