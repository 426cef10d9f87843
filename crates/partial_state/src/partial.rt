//! A partial state.
ghost use Rattle.std.specs.Prelude.{◌≡◌, ◌≤◌, ◌-◌, length, take, drop, ◌<◌, ◌==◌, ℕ, not, nat_le, int_le, IsTrue, IsSome, IfOk, OnErr, Some, if◌then◌else◌};
ghost use Rattle.std.specs.Option.{option_copied, ForSome};
ghost use Rattle.std.specs.Int.{bit_at};
ghost use Rattle.std.specs.Ordering.{int_eq};
ghost use Rattle.domain_store.specs.Gaps.{IsNextGap};
ghost use Rattle.port_wildcards.specs.Ports.{IsPort};
ghost use Rattle.state_space.specs.Sets.{has_number};
ghost use Rattle.state_space.specs.Values.{has_value, are_values};
ghost use Rattle.state_space.specs.State.{number_made, kinds_at, domain_at, port_at, low_at, high_at, allows_at};
ghost use Rattle.state_space.specs.State.{with_kinds, with_domain, with_port};
ghost use Rattle.state_space.specs.Undo.{put_back, undone};
ghost use Rattle.state_space.specs.Changes.{NarrowsKinds, NarrowsDomain, NarrowsPort};
ghost use Rattle.partial_state.specs.Views.{state_of_port};
ghost use Rattle.partial_state.specs.steps.Bounds.{is_within, links_within, IsBelow};
ghost use Rattle.partial_state.specs.steps.Logged.{ChangesPort};

use crate::bounds::{LinkBound, ValueBound};
use crate::change_log::{ChangeLog, LogEntry, Replaced};
use crate::copies::copy_slice;
use crate::kinds::KindSet;
use crate::ports::MadePort;
use crate::row::{InstanceRow, narrow_links};
use crate::values::AttributeDomain;
use port_wildcards::{Change, PortDomain};
use std::alloc::{AllocError, Global};
use std::marker::Model;

/// A partial state: at most 256 instances made so far, with what each may still be. Instances are
/// numbered from 0, and attributes and ports are ids. Each entry is found in constant time.
#[derive(Drop)]
pub struct Partial {
    pub(crate) alloc: Global,
    /// For each attribute id the leaf types that have it, as a mask.
    pub(crate) attribute_types: Vec<u128>,
    /// For each port id the leaf types that have it.
    pub(crate) port_types: Vec<u128>,
    pub(crate) made: Vec<InstanceRow>,
}

impl Model for Partial {
    ghost use Rattle.std.specs.Prelude.{map, length, ◌≤◌};
    ghost use Rattle.state_space.specs.State.{State};
    ghost use Rattle.partial_state.specs.Masks.{kinds_of};

    ghost Value = { State };

    ghost view = { λ p. record {
      attribute_types = map kinds_of p.attribute_types.items;
      port_types = map kinds_of p.port_types.items;
      made = p.made.items;
    } };

    ghost invariant = { λ p. length p.made.items ≤ 256 };
}

impl Partial {
    /// The same state, in memory of its own. `AllocError` where memory runs out.
    pub fn copy(&self) -> Result<Partial, AllocError>
        ensures { IfOk result (λ p. p ≡ self.now) }
    {
        let attribute_types = copy_slice(self.alloc, self.attribute_types.as_slice())?;
        let port_types = copy_slice(self.alloc, self.port_types.as_slice())?;
        let made = copy_slice(self.alloc, self.made.as_slice())?;
        Ok(Partial {
            alloc: self.alloc,
            attribute_types,
            port_types,
            made,
        })
    }

    /// How many instances are made.
    pub fn made(&self) -> u32
        ensures { result ≡ number_made self.now }
    {
        self.made.len() as u32
    }

    /// The possible types of instance `i`, as a mask: bit t stands for the type of number t.
    pub fn kinds(&self, i: u32) -> u128
        requires { i < number_made self.now }
        ensures { (t : ℕ) → bit_at result t
            ≡ (if has_number (kinds_at self.now i) t then 1 else 0) }
    {
        self.made[i as usize].kinds()
    }

    /// The least value that an attribute of instance `i` may have.
    pub fn low(&self, i: u32, attr: u32) -> i64
        requires { IsSome (domain_at self.now i attr) }
        ensures least { result ≡ low_at self.now i attr }
        ensures formed { ForSome (domain_at self.now i attr) (λ d. IsTrue (are_values d)) }
    {
        match self.domain(i, attr) {
            Some(values) => values.low(),
            None => unreachable!(),
        }
    }

    /// The greatest one.
    pub fn high(&self, i: u32, attr: u32) -> i64
        requires { IsSome (domain_at self.now i attr) }
        ensures { result ≡ high_at self.now i attr }
    {
        match self.domain(i, attr) {
            Some(values) => values.high(),
            None => unreachable!(),
        }
    }

    /// Whether the attribute may have the value.
    pub fn allows(&self, i: u32, attr: u32, n: i64) -> bool
        requires { IsSome (domain_at self.now i attr) }
        ensures { result ≡ allows_at self.now i attr n }
    {
        match self.domain(i, attr) {
            Some(values) => values.contains(n),
            None => unreachable!(),
        }
    }

    /// The first value from `n` on that the attribute can't have although it can have a greater
    /// one.
    pub fn gap_from(&self, i: u32, attr: u32, n: i64) -> Option<i64>
        requires { IsSome (domain_at self.now i attr) }
        ensures { ForSome (domain_at self.now i attr) (λ d. IsNextGap (has_value d) n result) }
    {
        match self.domain(i, attr) {
            Some(values) => values.gap_from(n),
            None => unreachable!(),
        }
    }

    /// What a port of instance `i` may link.
    pub fn port(&self, i: u32, port: u32) -> PortDomain
        requires { IsSome (port_at self.now i port) }
        ensures links { port_at self.now i port ≡ Some (state_of_port result) }
        ensures formed { IsPort result }
    {
        match self.made_port(i, port) {
            Some(made) => made.links(),
            None => unreachable!(),
        }
    }

    pub(crate) fn domain(&self, i: u32, attr: u32) -> Option<&AttributeDomain>
        ensures { option_copied result ≡ domain_at self.now i attr }
    {
        match self.made.get(i as usize) {
            Some(row) => row.domain(attr),
            None => None,
        }
    }

    pub(crate) fn made_port(&self, i: u32, port: u32) -> Option<&MadePort>
        ensures { option_copied result ≡ port_at self.now i port }
    {
        match self.made.get(i as usize) {
            Some(row) => row.port(port),
            None => None,
        }
    }
}

/// Narrowings, each of one domain in its place.
impl Partial {
    /// Leaves the possible types of the mask, unless there is none.
    pub fn keep_kinds(&mut self, i: u32, mask: u128) -> Change
        requires { i < number_made self.old }
        ensures { NarrowsKinds i (λ t. bit_at mask t == 1) result self.old self.new }
    {
        self.made[i as usize].keep_kinds(mask)
    }

    /// Leaves the values up to `n`, unless there is none.
    pub fn at_most(&mut self, i: u32, attr: u32, n: i64) -> Change
        requires { IsSome (domain_at self.old i attr) }
        ensures { NarrowsDomain i attr (λ v. int_le v n) result self.old self.new }
    {
        self.narrow(i, attr, ValueBound::AtMost(n))
    }

    /// Leaves the values from `n` on, unless there is none.
    pub fn at_least(&mut self, i: u32, attr: u32, n: i64) -> Change
        requires { IsSome (domain_at self.old i attr) }
        ensures { NarrowsDomain i attr (λ v. int_le n v) result self.old self.new }
    {
        self.narrow(i, attr, ValueBound::AtLeast(n))
    }

    /// Removes a value, unless it is the only one. After `AllocError` nothing has changed.
    pub fn remove(&mut self, i: u32, attr: u32, n: i64) -> Result<Change, AllocError>
        requires { IsSome (domain_at self.old i attr) }
        ensures narrowed { IfOk result (λ r.
            NarrowsDomain i attr (λ v. not (int_eq v n)) r self.old self.new) }
        ensures unchanged { OnErr result (self.new ≡ self.old) }
    {
        let change = self.made[i as usize].remove(attr, n)?;
        Ok(change)
    }

    /// The port must link made instance `j`.
    pub fn connect(&mut self, i: u32, port: u32, j: u32) -> Change
        requires has { IsSome (port_at self.old i port) }
        requires made { j < number_made self.old }
        ensures { NarrowsPort i port (λ l. has_number l.to_made j) result self.old self.new }
    {
        let _ = &self.made;
        self.narrow_port(i, port, LinkBound::Requires(j))
    }

    /// The port may not link made instance `j`.
    pub fn disconnect(&mut self, i: u32, port: u32, j: u32) -> Change
        requires has { IsSome (port_at self.old i port) }
        requires made { j < number_made self.old }
        ensures { NarrowsPort i port (λ l. not (has_number l.to_made j)) result self.old self.new }
    {
        let _ = &self.made;
        self.narrow_port(i, port, LinkBound::Excludes(j))
    }

    /// At most `n` links of the port lead to instances that are not made yet.
    pub fn fresh_at_most(&mut self, i: u32, port: u32, n: u32) -> Change
        requires { IsSome (port_at self.old i port) }
        ensures { NarrowsPort i port (λ l. nat_le l.later n) result self.old self.new }
    {
        self.narrow_port(i, port, LinkBound::FreshAtMost(n))
    }

    /// At least `n` of them do.
    pub fn fresh_at_least(&mut self, i: u32, port: u32, n: u32) -> Change
        requires { IsSome (port_at self.old i port) }
        ensures { NarrowsPort i port (λ l. nat_le n l.later) result self.old self.new }
    {
        self.narrow_port(i, port, LinkBound::FreshAtLeast(n))
    }

    fn narrow(&mut self, i: u32, attr: u32, bound: ValueBound) -> Change
        requires { IsSome (domain_at self.old i attr) }
        ensures { NarrowsDomain i attr (is_within bound) result self.old self.new }
    {
        self.made[i as usize].narrow(attr, bound)
    }

    fn narrow_port(&mut self, i: u32, port: u32, bound: LinkBound) -> Change
        requires has { IsSome (port_at self.old i port) }
        requires below { IsBelow bound }
        ensures { NarrowsPort i port (links_within bound) result self.old self.new }
    {
        self.made[i as usize].narrow_port(port, bound)
    }
}

/// Narrowings with their log.
impl Partial {
    /// Narrows what a port may link by a bound, and logs what it could. The entry takes memory.
    pub(crate) fn change_port(
        &mut self,
        i: u32,
        port: u32,
        bound: LinkBound,
        log: &mut ChangeLog,
    ) -> Result<Change, AllocError>
        requires has { IsSome (port_at self.old i port) }
        requires below { IsBelow bound }
        ensures changed { IfOk result (λ r.
            ChangesPort i port (links_within bound) r self.old self.new log.old log.new) }
        ensures unchanged { OnErr result (self.new ≡ self.old) }
        ensures logged { OnErr result (log.new ≡ log.old) }
    {
        let links = MadePort::from_links(self.port(i, port));
        let mut next = MadePort::from_links(self.port(i, port));
        match narrow_links(&mut next, bound) {
            Change::Smaller => {
                log.push(LogEntry::of_port(i, port, links))?;
                self.put_port(i, port, next);
                Ok(Change::Smaller)
            }
            Change::Same => Ok(Change::Same),
            Change::Empty => Ok(Change::Empty),
        }
    }
}

/// Going back.
impl Partial {
    /// The state that stood when the log had the length, and the log cut to it. Old values are
    /// moved back, in constant time each.
    pub fn undo(&mut self, log: &mut ChangeLog, len: u32)
        requires { len ≤ length log.old }
        ensures state { self.new ≡ undone (drop len log.old) self.old }
        ensures log { log.new ≡ take len log.old }
    {
        while len < log.len() {
            let entry = log.pop();
            self.put_back(entry);
        }
    }

    fn put_back(&mut self, entry: LogEntry)
        ensures { self.new ≡ put_back entry self.old }
    {
        match entry.replaced {
            Replaced::Kinds { instance, kinds } => self.put_kinds(instance, kinds),
            Replaced::Domain {
                instance,
                attr,
                values,
            } => self.put_domain(instance, attr, values),
            Replaced::Port {
                instance,
                port,
                links,
            } => self.put_port(instance, port, links),
            Replaced::Made => self.unmake(),
        }
    }

    pub(crate) fn put_kinds(&mut self, i: u32, kinds: KindSet)
        ensures { self.new ≡ with_kinds i kinds self.old }
    {
        let at = i as usize;
        if self.made.len() <= at {
            return;
        }
        self.made[at].put_kinds(kinds);
    }

    fn put_domain(&mut self, i: u32, attr: u32, values: AttributeDomain)
        ensures { self.new ≡ with_domain i attr values self.old }
    {
        let at = i as usize;
        if self.made.len() <= at {
            return;
        }
        self.made[at].put_domain(attr, values);
    }

    pub(crate) fn put_port(&mut self, i: u32, port: u32, links: MadePort)
        ensures { self.new ≡ with_port i port links self.old }
    {
        let at = i as usize;
        if self.made.len() <= at {
            return;
        }
        self.made[at].put_port(port, links);
    }

    /// The last instance is no longer made.
    fn unmake(&mut self)
        ensures { self.new
            ≡ record self.old { made = take (number_made self.old - 1) self.old.made } }
    {
        let rest = self.made.len().saturating_sub(1);
        self.made.truncate(rest);
    }
}
