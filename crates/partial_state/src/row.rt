//! A made instance.
ghost use Rattle.std.specs.Prelude.{ℕ, Some, slice_set, if◌then◌else◌, ◌≡◌, not, IsSome, IfOk, OnErr};
ghost use Rattle.std.specs.Option.{option_copied};
ghost use Rattle.std.specs.Int.{bit_at};
ghost use Rattle.domain_store.specs.Words.{has_word};
ghost use Rattle.state_space.specs.Sets.{has_number};
ghost use Rattle.std.specs.Ordering.{int_eq};
ghost use Rattle.state_space.specs.Made.{domain_of, port_of_made};
ghost use Rattle.partial_state.specs.steps.Bounds.{is_within, links_within, IsBelow};
ghost use Rattle.partial_state.specs.steps.Narrowed.{NarrowsAttribute, NarrowsPortOf, NarrowsTypes, NarrowsSlot, NarrowsPortSlot};
ghost use Rattle.partial_state.specs.steps.InForm.{NarrowsInForm, NarrowsInPort};

use crate::bounds::{LinkBound, ValueBound};
use crate::copies::copy_slice;
use crate::kinds::KindSet;
use crate::ports::MadePort;
use crate::values::AttributeDomain;
use domain_store::Change;
use std::alloc::{AllocError, Global};
use std::marker::Model;

/// What a made instance may still be. The domain of an attribute stands at the place of its id, and
/// so does a port's.
#[derive(Drop)]
pub(crate) struct InstanceRow {
    pub(crate) kinds: KindSet,
    pub(crate) domains: Vec<Option<AttributeDomain>>,
    pub(crate) ports: Vec<Option<MadePort>>,
}

impl Model for InstanceRow {
    ghost use Rattle.std.specs.Prelude.{ℕ, Some, slice_set, if◌then◌else◌, ◌≢◌, ◌<◌, ◌^◌};
    ghost use Rattle.state_space.specs.Made.{MadeInstance};

    ghost Value = { MadeInstance };

    ghost view = { λ x. record {
      kinds = x.kinds;
      domains = x.domains.items;
      ports = x.ports.items;
    } };
}

impl InstanceRow {
    /// The same instance. `AllocError` where memory runs out.
    pub(crate) fn copy(&self, alloc: Global) -> Result<InstanceRow, AllocError>
        ensures { IfOk result (λ x. x ≡ self.now) }
    {
        let domains = copy_slice(alloc, self.domains.as_slice())?;
        let ports = copy_slice(alloc, self.ports.as_slice())?;
        Ok(InstanceRow {
            kinds: self.kinds.copy(),
            domains,
            ports,
        })
    }

    /// The possible types: bit t stands for the type of number t.
    pub(crate) fn kinds(&self) -> u128
        ensures { (t : ℕ) → bit_at result t ≡ (if has_number self.now.kinds t then 1 else 0) }
    {
        self.kinds.mask()
    }

    /// The values of an attribute, if the instance may have it.
    pub(crate) fn domain(&self, attr: u32) -> Option<&AttributeDomain>
        ensures { option_copied result ≡ domain_of self.now attr }
    {
        match self.domains.get(attr as usize) {
            Some(Some(values)) => Some(values),
            _ => None,
        }
    }

    /// What a port may link, if the instance may have it.
    pub(crate) fn port(&self, port: u32) -> Option<&MadePort>
        ensures { option_copied result ≡ port_of_made self.now port }
    {
        match self.ports.get(port as usize) {
            Some(Some(links)) => Some(links),
            _ => None,
        }
    }

    /// Leaves the possible types of the mask, unless there is none.
    pub(crate) fn keep_kinds(&mut self, mask: u128) -> Change
        ensures { NarrowsTypes (has_word mask) result self.old self.new }
    {
        self.kinds.keep(mask)
    }

    /// Narrows the values of an attribute by a bound.
    pub(crate) fn narrow(&mut self, attr: u32, bound: ValueBound) -> Change
        requires { IsSome (domain_of self.old attr) }
        ensures { NarrowsAttribute attr (is_within bound) result self.old self.new }
    {
        narrow_slot(&mut self.domains[attr as usize], bound)
    }

    /// Other possible types.
    pub(crate) fn put_kinds(&mut self, kinds: KindSet)
        ensures { self.new ≡ record self.old { kinds = kinds } }
    {
        self.kinds = kinds;
    }

    /// Other values of an attribute. An id that the table lacks changes nothing.
    pub(crate) fn put_domain(&mut self, attr: u32, values: AttributeDomain)
        ensures { self.new
            ≡ record self.old { domains = slice_set self.old.domains attr (Some values) } }
    {
        let at = attr as usize;
        if self.domains.len() <= at {
            return;
        }
        self.domains[at] = Some(values);
    }

    /// Other links of a port. An id that the table lacks changes nothing.
    pub(crate) fn put_port(&mut self, port: u32, links: MadePort)
        ensures { self.new
            ≡ record self.old { ports = slice_set self.old.ports port (Some links) } }
    {
        let at = port as usize;
        if self.ports.len() <= at {
            return;
        }
        self.ports[at] = Some(links);
    }

    /// Removes a value of an attribute. After `AllocError` nothing has changed.
    pub(crate) fn remove(&mut self, attr: u32, n: i64) -> Result<Change, AllocError>
        requires { IsSome (domain_of self.old attr) }
        ensures narrowed { IfOk result (λ r.
            NarrowsAttribute attr (λ v. not (int_eq v n)) r self.old self.new) }
        ensures unchanged { OnErr result (self.new ≡ self.old) }
    {
        let change = remove_from_slot(&mut self.domains[attr as usize], n)?;
        Ok(change)
    }

    /// Narrows what a port may link by a bound.
    pub(crate) fn narrow_port(&mut self, port: u32, bound: LinkBound) -> Change
        requires has { IsSome (port_of_made self.old port) }
        requires below { IsBelow bound }
        ensures { NarrowsPortOf port (links_within bound) result self.old self.new }
    {
        narrow_port_slot(&mut self.ports[port as usize], bound)
    }
}

fn narrow_slot(slot: &mut Option<AttributeDomain>, bound: ValueBound) -> Change
    requires { IsSome slot.old }
    ensures { NarrowsSlot (is_within bound) result slot.old slot.new }
{
    match slot {
        Some(values) => narrow_values(values, bound),
        None => unreachable!(),
    }
}

fn narrow_values(values: &mut AttributeDomain, bound: ValueBound) -> Change
    ensures { NarrowsInForm (is_within bound) result values.old values.new }
{
    match bound {
        ValueBound::AtMost(n) => values.at_most(n),
        ValueBound::AtLeast(n) => values.at_least(n),
    }
}

fn remove_from_slot(slot: &mut Option<AttributeDomain>, n: i64) -> Result<Change, AllocError>
    requires { IsSome slot.old }
    ensures narrowed { IfOk result (λ r. NarrowsSlot (λ v. not (int_eq v n)) r slot.old slot.new) }
    ensures unchanged { OnErr result (slot.new ≡ slot.old) }
{
    match slot {
        Some(values) => Ok(values.remove(n)?),
        None => unreachable!(),
    }
}

fn narrow_port_slot(slot: &mut Option<MadePort>, bound: LinkBound) -> Change
    requires has { IsSome slot.old }
    requires below { IsBelow bound }
    ensures { NarrowsPortSlot (links_within bound) result slot.old slot.new }
{
    match slot {
        Some(port) => narrow_links(port, bound),
        None => unreachable!(),
    }
}

pub(crate) fn narrow_links(port: &mut MadePort, bound: LinkBound) -> Change
    requires { IsBelow bound }
    ensures { NarrowsInPort (links_within bound) result port.old port.new }
{
    match bound {
        LinkBound::Requires(j) => port.require(j),
        LinkBound::Excludes(j) => port.exclude(j),
        LinkBound::FreshAtMost(n) => port.fresh_at_most(n),
        LinkBound::FreshAtLeast(n) => port.fresh_at_least(n),
    }
}
