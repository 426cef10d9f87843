//! What a search is asked for.
ghost use Rattle.std.specs.Prelude.{◌≡◌, ◌↔◌, IsTrue, IfOk};

use config_value::Configuration;
use prod_model::{Expr, Items};
use std::alloc::{AllocError, Global};

/// Which configurations are wanted, of a problem and an order.
#[derive(Drop)]
pub struct Goal {
    /// For each request, in order, whether it has to be met.
    pub keep: Items<bool>,
    /// Only configurations that rank after this one are wanted.
    pub after: Option<Configuration>,
    /// Truths at the root product, which have to hold too.
    pub extra: Items<Expr>,
    /// Any wanted configuration will do, and none beats another. Only without `after`.
    pub any: bool,
}

impl Goal {
    /// Whether the two ask for the same. It takes no memory.
    pub fn same(&self, other: &Goal) -> bool
        ensures { IsTrue result ↔ (self.now ≡ other.now) }
    {
        self.any == other.any
            && same_keep(self.keep.as_slice(), other.keep.as_slice())
            && same_after(&self.after, &other.after)
            && same_extra(self.extra.as_slice(), other.extra.as_slice())
    }

    /// The same goal in memory of its own. `AllocError` where memory runs out.
    pub fn copy(&self, alloc: Global) -> Result<Goal, AllocError>
        ensures { IfOk result (λ g. g ≡ self.now) }
    {
        Ok(Goal {
            keep: Items::from_slice(alloc, self.keep.as_slice())?,
            after: copy_after(alloc, &self.after)?,
            extra: copy_extra(alloc, self.extra.as_slice())?,
            any: self.any,
        })
    }
}

fn copy_after(
    alloc: Global,
    after: &Option<Configuration>,
) -> Result<Option<Configuration>, AllocError>
    ensures { IfOk result (λ c. c ≡ after.now) }
{
    match after {
        Some(c) => Ok(Some(c.copy(alloc)?)),
        None => Ok(None),
    }
}

fn copy_extra(alloc: Global, extra: &[Expr]) -> Result<Items<Expr>, AllocError>
    ensures { IfOk result (λ c. c ≡ extra.now) }
{
    let mut copies = Items::new(alloc);
    for e in extra {
        copies.push(e.copy(alloc)?)?;
    }
    Ok(copies)
}

fn same_keep(a: &[bool], b: &[bool]) -> bool
    ensures { IsTrue result ↔ (a.now ≡ b.now) }
{
    if a.len() != b.len() {
        return false;
    }
    for k in 0..a.len() {
        if a[k] != b[k] {
            return false;
        }
    }
    true
}

fn same_after(a: &Option<Configuration>, b: &Option<Configuration>) -> bool
    ensures { IsTrue result ↔ (a.now ≡ b.now) }
{
    match (a, b) {
        (Some(c), Some(d)) => c.same(d),
        (None, None) => true,
        _ => false,
    }
}

fn same_extra(a: &[Expr], b: &[Expr]) -> bool
    ensures { IsTrue result ↔ (a.now ≡ b.now) }
{
    if a.len() != b.len() {
        return false;
    }
    for k in 0..a.len() {
        if !a[k].same(&b[k]) {
            return false;
        }
    }
    true
}
