//! The values that an attribute of a made instance may still have.
ghost use Rattle.std.specs.Prelude.{◌≡◌, not, int_le, IfOk, OnErr, IsTrue};
ghost use Rattle.std.specs.Ordering.{int_eq};
ghost use Rattle.domain_store.specs.Gaps.{IsNextGap};
ghost use Rattle.state_space.specs.Values.{has_value, least, greatest, are_values};
ghost use Rattle.state_space.specs.Whole.{has_one_value};
ghost use Rattle.partial_state.specs.Views.{values_of_domain, IsStored};
ghost use Rattle.partial_state.specs.steps.InForm.{NarrowsInForm};
ghost use Rattle.partial_state.specs.steps.Narrowed.{NarrowsStored};

use crate::words;
use domain_store::{Change, IntDomain, WordDomain};
use std::alloc::{AllocError, Global};
use std::marker::Model;

/// Whole numbers as intervals, or words as a mask.
#[derive(Drop)]
pub(crate) enum Domain {
    Numbers(IntDomain),
    Words(WordDomain),
}

/// The values that an attribute may still have. There is one.
#[derive(Drop)]
pub(crate) struct AttributeDomain {
    pub(crate) domain: Domain,
}

impl Model for AttributeDomain {
    ghost use Rattle.state_space.specs.Values.{Values};

    ghost Value = { Values };

    ghost use Rattle.partial_state.specs.Views.{values_of_domain, IsStored};

    ghost view = { λ d. values_of_domain d.domain };

    ghost invariant = { λ d. IsStored d.domain };
}

impl AttributeDomain {
    /// The least value, in constant time.
    pub(crate) fn low(&self) -> i64
        ensures least { result ≡ least self.now }
        ensures formed { IsTrue (are_values self.now) }
    {
        low(&self.domain)
    }

    /// The greatest value, in constant time.
    pub(crate) fn high(&self) -> i64
        ensures { result ≡ greatest self.now }
    {
        high(&self.domain)
    }

    /// Whether there is just one value, in constant time.
    pub(crate) fn has_one(&self) -> bool
        ensures { result ≡ has_one_value self.now }
    {
        self.low() == self.high()
    }

    /// Whether it is one of the values.
    pub(crate) fn contains(&self, n: i64) -> bool
        ensures { result ≡ has_value self.now n }
    {
        contains(&self.domain, n)
    }

    /// The first number from `from` on that is none of the values although a greater one is.
    pub(crate) fn gap_from(&self, from: i64) -> Option<i64>
        ensures { IsNextGap (has_value self.now) from result }
    {
        gap_from(&self.domain, from)
    }

    /// Leaves the values up to `n`.
    pub(crate) fn at_most(&mut self, n: i64) -> Change
        ensures { NarrowsInForm (λ v. int_le v n) result self.old self.new }
    {
        at_most(&mut self.domain, n)
    }

    /// Leaves the values from `n` on.
    pub(crate) fn at_least(&mut self, n: i64) -> Change
        ensures { NarrowsInForm (λ v. int_le n v) result self.old self.new }
    {
        at_least(&mut self.domain, n)
    }

    /// Removes `n`. `AllocError` where memory runs out, and then nothing changes.
    pub(crate) fn remove(&mut self, n: i64) -> Result<Change, AllocError>
        ensures narrowed { IfOk result (λ r.
            NarrowsInForm (λ v. not (int_eq v n)) r self.old self.new) }
        ensures unchanged { OnErr result (self.new ≡ self.old) }
    {
        remove(&mut self.domain, n)
    }

    /// The same values. `AllocError` where memory runs out.
    pub(crate) fn copy(&self, alloc: Global) -> Result<AttributeDomain, AllocError>
        ensures { IfOk result (λ d. d ≡ self.now) }
    {
        Ok(AttributeDomain {
            domain: copy(&self.domain, alloc)?,
        })
    }
}

fn low(domain: &Domain) -> i64
    requires { IsStored domain.now }
    ensures least { result ≡ least (values_of_domain domain.now) }
    ensures formed { IsTrue (are_values (values_of_domain domain.now)) }
{
    match domain {
        Domain::Numbers(numbers) => numbers.low(),
        Domain::Words(words) => i64::from(words.low()),
    }
}

fn high(domain: &Domain) -> i64
    requires { IsStored domain.now }
    ensures { result ≡ greatest (values_of_domain domain.now) }
{
    match domain {
        Domain::Numbers(numbers) => numbers.high(),
        Domain::Words(words) => i64::from(words.high()),
    }
}

fn contains(domain: &Domain, n: i64) -> bool
    requires { IsStored domain.now }
    ensures { result ≡ has_value (values_of_domain domain.now) n }
{
    match domain {
        Domain::Numbers(numbers) => numbers.contains(n),
        Domain::Words(words) => words::contains(words, n),
    }
}

fn gap_from(domain: &Domain, from: i64) -> Option<i64>
    requires { IsStored domain.now }
    ensures { IsNextGap (has_value (values_of_domain domain.now)) from result }
{
    match domain {
        Domain::Numbers(numbers) => numbers.gap_from(from),
        Domain::Words(words) => words::gap_from(words, from),
    }
}

fn at_most(domain: &mut Domain, n: i64) -> Change
    requires { IsStored domain.old }
    ensures { NarrowsStored (λ v. int_le v n) result domain.old domain.new }
{
    match domain {
        Domain::Numbers(numbers) => numbers.at_most(n),
        Domain::Words(words) => words::at_most(words, n),
    }
}

fn at_least(domain: &mut Domain, n: i64) -> Change
    requires { IsStored domain.old }
    ensures { NarrowsStored (λ v. int_le n v) result domain.old domain.new }
{
    match domain {
        Domain::Numbers(numbers) => numbers.at_least(n),
        Domain::Words(words) => words::at_least(words, n),
    }
}

fn remove(domain: &mut Domain, n: i64) -> Result<Change, AllocError>
    requires { IsStored domain.old }
    ensures narrowed { IfOk result (λ r.
        NarrowsStored (λ v. not (int_eq v n)) r domain.old domain.new) }
    ensures unchanged { OnErr result (domain.new ≡ domain.old) }
{
    match domain {
        Domain::Numbers(numbers) => numbers.remove(n),
        Domain::Words(words) => Ok(words::remove(words, n)),
    }
}

fn copy(domain: &Domain, alloc: Global) -> Result<Domain, AllocError>
    ensures { IfOk result (λ d. d ≡ domain.now) }
{
    match domain {
        Domain::Numbers(numbers) => Ok(Domain::Numbers(numbers.copy(alloc)?)),
        Domain::Words(words) => Ok(Domain::Words(*words)),
    }
}
