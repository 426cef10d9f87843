//! A port with the links that it must have and those that it may have.
ghost use Rattle.std.specs.Prelude.{◌≡◌, ◌≢◌, ◌↔◌, ◌<◌, ◌≤◌, ◌-◌, not, nat_le, length, IsTrue};
ghost use Rattle.instance_set.specs.InstanceSets.{is_member, members, IsWithin};
ghost use Rattle.domain_store.specs.declared.change.Change.TheVariants.{Same, Smaller, Empty};
ghost use Rattle.port_wildcards.specs.Ports.{is_linked, IsPort, IsClosed, IsWhole, NarrowsLinks, Gains, Loses, with_required, with_possible, with_fresh};
ghost use Rattle.port_wildcards.specs.Made.{MakesHere, MakesElsewhere};

use domain_store::Change;
use instance_set::InstanceSet;

/// Which made instances a port must link, which it may, and how many links lead to instances that
/// are not made yet.
#[derive(Clone, Copy, Debug, PartialEq, Eq)]
pub struct PortDomain {
    pub required: InstanceSet,
    pub possible: InstanceSet,
    pub fresh_low: u32,
    pub fresh_high: u32,
}

impl PortDomain {
    /// Made instance `j` must be linked.
    pub fn require(&mut self, j: u32) -> Change
        requires below { j < 256 }
        requires formed { IsPort self.old }
        ensures empty { (result ≡ Empty) ↔ ¬ IsTrue (is_member self.old.possible j) }
        ensures same { (result ≡ Same) ↔ IsTrue (is_member self.old.required j) }
        ensures unchanged { result ≢ Smaller → self.new ≡ self.old }
        ensures smaller { result ≡ Smaller → Gains j self.old.required self.new.required }
        ensures others { self.new ≡ with_required self.new.required self.old }
        ensures narrowed { NarrowsLinks (λ l. is_linked l j) result self.old self.new }
        ensures formed { IsPort self.new }
    {
        if !self.possible.contains(j) {
            return Change::Empty;
        }
        if self.required.contains(j) {
            return Change::Same;
        }
        self.required.insert(j);
        Change::Smaller
    }

    /// Made instance `j` may not be linked.
    pub fn exclude(&mut self, j: u32) -> Change
        requires below { j < 256 }
        requires formed { IsPort self.old }
        ensures empty { (result ≡ Empty) ↔ IsTrue (is_member self.old.required j) }
        ensures same { (result ≡ Same) ↔ ¬ IsTrue (is_member self.old.possible j) }
        ensures unchanged { result ≢ Smaller → self.new ≡ self.old }
        ensures smaller { result ≡ Smaller → Loses j self.old.possible self.new.possible }
        ensures others { self.new ≡ with_possible self.new.possible self.old }
        ensures narrowed { NarrowsLinks (λ l. not (is_linked l j)) result self.old self.new }
        ensures formed { IsPort self.new }
    {
        if self.required.contains(j) {
            return Change::Empty;
        }
        if self.possible.contains(j) {
            self.possible.remove(j);
            return Change::Smaller;
        }
        Change::Same
    }

    /// At most `n` links lead to later instances.
    pub fn fresh_at_most(&mut self, n: u32) -> Change
        requires { IsPort self.old }
        ensures empty { (result ≡ Empty) ↔ (n < self.old.fresh_low) }
        ensures same { (result ≡ Same) ↔ (self.old.fresh_high ≤ n) }
        ensures unchanged { result ≢ Smaller → self.new ≡ self.old }
        ensures smaller { result ≡ Smaller → self.new ≡ with_fresh self.old.fresh_low n self.old }
        ensures narrowed { NarrowsLinks (λ l. nat_le l.later n) result self.old self.new }
        ensures formed { IsPort self.new }
    {
        if n < self.fresh_low {
            return Change::Empty;
        }
        if self.fresh_high <= n {
            return Change::Same;
        }
        self.fresh_high = n;
        Change::Smaller
    }

    /// At least `n` links lead to later instances.
    pub fn fresh_at_least(&mut self, n: u32) -> Change
        requires { IsPort self.old }
        ensures empty { (result ≡ Empty) ↔ (self.old.fresh_high < n) }
        ensures same { (result ≡ Same) ↔ (n ≤ self.old.fresh_low) }
        ensures unchanged { result ≢ Smaller → self.new ≡ self.old }
        ensures smaller { result ≡ Smaller → self.new ≡ with_fresh n self.old.fresh_high self.old }
        ensures narrowed { NarrowsLinks (λ l. nat_le n l.later) result self.old self.new }
        ensures formed { IsPort self.new }
    {
        if self.fresh_high < n {
            return Change::Empty;
        }
        if n <= self.fresh_low {
            return Change::Same;
        }
        self.fresh_low = n;
        Change::Smaller
    }

    /// No link leads to a later instance.
    pub fn close(&mut self) -> Change
        requires { IsPort self.old }
        ensures empty { (result ≡ Empty) ↔ (0 < self.old.fresh_low) }
        ensures same { (result ≡ Same) ↔ IsClosed self.old }
        ensures unchanged { result ≢ Smaller → self.new ≡ self.old }
        ensures smaller { result ≡ Smaller → self.new ≡ with_fresh self.old.fresh_low 0 self.old }
        ensures narrowed { NarrowsLinks (λ l. nat_le l.later 0) result self.old self.new }
        ensures formed { IsPort self.new }
    {
        self.fresh_at_most(0)
    }

    /// Instance `j` is made for this port, which links it.
    pub fn made_here(&mut self, j: u32)
        requires below { j < 256 }
        requires open { 1 ≤ self.old.fresh_high }
        requires formed { IsPort self.old }
        ensures required { Gains j self.old.required self.new.required }
        ensures possible { Gains j self.old.possible self.new.possible }
        ensures fresh_low { self.new.fresh_low ≡ self.old.fresh_low - 1 }
        ensures fresh_high { self.new.fresh_high ≡ self.old.fresh_high - 1 }
        ensures made { MakesHere j self.old self.new }
        ensures formed { IsPort self.new }
    {
        self.required.insert(j);
        self.possible.insert(j);
        self.fresh_low = self.fresh_low.saturating_sub(1);
        self.fresh_high -= 1;
    }

    /// Instance `j` is made for another port. Unless this one is closed, it may link it too.
    pub fn made_elsewhere(&mut self, j: u32)
        requires below { j < 256 }
        requires formed { IsPort self.old }
        ensures closed { IsClosed self.old → self.new ≡ self.old }
        ensures possible { ¬ IsClosed self.old → Gains j self.old.possible self.new.possible }
        ensures required { self.new.required ≡ self.old.required }
        ensures fresh_low { self.new.fresh_low ≡ self.old.fresh_low - 1 }
        ensures fresh_high { self.new.fresh_high ≡ self.old.fresh_high }
        ensures made { MakesElsewhere j self.old self.new }
        ensures formed { IsPort self.new }
    {
        if self.is_closed() {
            return;
        }
        self.possible.insert(j);
        self.fresh_low = self.fresh_low.saturating_sub(1);
    }

    /// How many made instances must be linked.
    pub fn required_count(&self) -> u32
        ensures { result ≡ length (members self.now.required) }
    {
        self.required.count()
    }

    /// How many made instances may be linked.
    pub fn possible_count(&self) -> u32
        ensures { result ≡ length (members self.now.possible) }
    {
        self.possible.count()
    }

    /// Whether no link leads to a later instance.
    pub fn is_closed(&self) -> bool
        ensures { IsTrue result ↔ IsClosed self.now }
    {
        self.fresh_high == 0
    }

    /// Whether nothing is left open.
    pub fn is_whole(&self) -> bool
        ensures { IsTrue result ↔ IsWhole self.now }
    {
        self.is_closed() && self.possible.is_within(self.required)
    }
}
