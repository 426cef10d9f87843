//! Copies of what a partial state holds, tables too.
ghost use Rattle.std.specs.Prelude.{◌≡◌, IfOk};

use crate::change_log::LogEntry;
use crate::ports::MadePort;
use crate::row::InstanceRow;
use crate::values::AttributeDomain;
use std::alloc::{AllocError, Global};

/// What can be copied, where memory may run out.
pub(crate) trait Copies: Drop {
    fn copy(&self, alloc: Global) -> Result<Self, AllocError>
        ensures { IfOk result (λ c. c ≡ self.now) };
}

impl<T: Copies> Copies for Option<T> {
    fn copy(&self, alloc: Global) -> Result<Option<T>, AllocError> {
        match self {
            Some(value) => Ok(Some(value.copy(alloc)?)),
            None => Ok(None),
        }
    }
}

/// The same elements, in memory taken once.
pub(crate) fn copy_slice<T: Copies>(alloc: Global, items: &[T]) -> Result<Vec<T>, AllocError>
    ensures { IfOk result (λ c. c.items ≡ items.now) }
{
    let mut copies = Vec::with_capacity(alloc, items.len())?;
    for item in items {
        copies.push(item.copy(alloc)?)?;
    }
    Ok(copies)
}

impl Copies for u128 {
    fn copy(&self, _alloc: Global) -> Result<u128, AllocError> {
        Ok(*self)
    }
}

impl Copies for AttributeDomain {
    fn copy(&self, alloc: Global) -> Result<AttributeDomain, AllocError> {
        AttributeDomain::copy(self, alloc)
    }
}

impl Copies for MadePort {
    fn copy(&self, _alloc: Global) -> Result<MadePort, AllocError> {
        Ok(MadePort::from_links(self.links()))
    }
}

impl Copies for InstanceRow {
    fn copy(&self, alloc: Global) -> Result<InstanceRow, AllocError> {
        InstanceRow::copy(self, alloc)
    }
}

impl Copies for LogEntry {
    fn copy(&self, alloc: Global) -> Result<LogEntry, AllocError> {
        LogEntry::copy(self, alloc)
    }
}
