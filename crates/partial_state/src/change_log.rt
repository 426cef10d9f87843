//! What the changes of a partial state replaced.
ghost use Rattle.std.specs.Prelude.{◌≡◌, ◌<◌, ◌∷◌, ◌++◌, [], length, take, IfOk, OnOk, OnErr};
ghost use Rattle.state_space.specs.Undo.{Kinds, Domain, Port, Made};

use crate::copies::copy_slice;
use crate::kinds::KindSet;
use crate::ports::MadePort;
use crate::values::AttributeDomain;
use std::alloc::{AllocError, Global};
use std::marker::Model;

/// An old value with its place, moved into the log and back.
#[derive(Drop)]
pub(crate) enum Replaced {
    Kinds {
        instance: u32,
        kinds: KindSet,
    },
    Domain {
        instance: u32,
        attr: u32,
        values: AttributeDomain,
    },
    Port {
        instance: u32,
        port: u32,
        links: MadePort,
    },
    /// The last instance was not made.
    Made,
}

#[derive(Drop)]
pub(crate) struct LogEntry {
    pub(crate) replaced: Replaced,
}

impl Model for LogEntry {
    ghost use Rattle.state_space.specs.Undo.{OldValue};

    ghost Value = { OldValue };

    ghost use Rattle.partial_state.specs.OldValues.{old_value_of};

    ghost view = { λ e. old_value_of e.replaced };
}

impl LogEntry {
    /// The types that an instance could be of.
    pub(crate) fn of_kinds(instance: u32, kinds: KindSet) -> LogEntry
        ensures { result ≡ Kinds instance kinds }
    {
        LogEntry {
            replaced: Replaced::Kinds { instance, kinds },
        }
    }
}

impl LogEntry {
    /// The values that an attribute had.
    pub(crate) fn of_domain(instance: u32, attr: u32, values: AttributeDomain) -> LogEntry
        ensures { result ≡ Domain instance attr values }
    {
        LogEntry {
            replaced: Replaced::Domain {
                instance,
                attr,
                values,
            },
        }
    }
}

impl LogEntry {
    /// What a port could link.
    pub(crate) fn of_port(instance: u32, port: u32, links: MadePort) -> LogEntry
        ensures { result ≡ Port instance port links }
    {
        LogEntry {
            replaced: Replaced::Port {
                instance,
                port,
                links,
            },
        }
    }
}

impl LogEntry {
    /// That the last instance was not made.
    pub(crate) fn of_made() -> LogEntry
        ensures { result ≡ Made }
    {
        LogEntry {
            replaced: Replaced::Made,
        }
    }
}

impl LogEntry {
    /// The same entry. `AllocError` where memory runs out.
    pub(crate) fn copy(&self, alloc: Global) -> Result<LogEntry, AllocError>
        ensures { IfOk result (λ e. e ≡ self.now) }
    {
        match &self.replaced {
            Replaced::Kinds { instance, kinds } => Ok(LogEntry::of_kinds(*instance, kinds.copy())),
            Replaced::Domain {
                instance,
                attr,
                values,
            } => Ok(LogEntry::of_domain(*instance, *attr, values.copy(alloc)?)),
            Replaced::Port {
                instance,
                port,
                links,
            } => Ok(LogEntry::of_port(*instance, *port, MadePort::from_links(links.links()))),
            Replaced::Made => Ok(LogEntry::of_made()),
        }
    }
}

/// What was replaced, seen as the list of old values, the latest last. There are fewer than 2^32.
#[derive(Drop)]
pub struct ChangeLog {
    entries: Vec<LogEntry>,
}

impl Model for ChangeLog {
    ghost use Rattle.std.specs.Prelude.{List, length, ◌<◌, ◌^◌};
    ghost use Rattle.state_space.specs.Undo.{OldValue};

    ghost Value = { List OldValue };

    ghost view = { λ l. l.entries.items };

    ghost invariant = { λ l. length l.entries.items < 2 ^ 32 };
}

impl ChangeLog {
    /// A log without entries.
    pub fn new(alloc: Global) -> ChangeLog
        ensures { result ≡ [] }
    {
        ChangeLog {
            entries: Vec::new(alloc),
        }
    }

    /// The same log, in memory of its own. `AllocError` where memory runs out.
    pub fn copy(&self, alloc: Global) -> Result<ChangeLog, AllocError>
        ensures { IfOk result (λ l. l ≡ self.now) }
    {
        Ok(ChangeLog {
            entries: copy_slice(alloc, self.entries.as_slice())?,
        })
    }

    /// How many entries it has.
    pub fn len(&self) -> u32
        ensures { result ≡ length self.now }
    {
        self.entries.len() as u32
    }

    /// Puts an entry at the end. `AllocError` where memory runs out or the log is full, and then
    /// it is as it was.
    pub(crate) fn push(&mut self, entry: LogEntry) -> Result<(), AllocError>
        ensures pushed { OnOk result (self.new ≡ self.old ++ entry ∷ []) }
        ensures unchanged { OnErr result (self.new ≡ self.old) }
    {
        if self.entries.len() >= u32::MAX as usize {
            return Err(AllocError);
        }
        self.entries.push(entry)?;
        Ok(())
    }

    /// Leaves the first `len` entries.
    pub(crate) fn cut_to(&mut self, len: u32)
        ensures { self.new ≡ take len self.old }
    {
        self.entries.truncate(len as usize);
    }

    /// Takes the latest entry out.
    pub(crate) fn pop(&mut self) -> LogEntry
        requires { 0 < length self.old }
        ensures { self.old ≡ self.new ++ result ∷ [] }
    {
        match self.entries.pop() {
            Some(entry) => entry,
            None => unreachable!(),
        }
    }
}
