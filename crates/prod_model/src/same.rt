//! Whether two values are the same, for lists too.
ghost use Rattle.std.specs.Prelude.{◌≡◌, ◌↔◌, IsTrue};

use crate::expr::Expr;
use crate::model::{
    AttrDecl, CountBound, Criterion, Domain, Model, PortDecl, Request, Rule, TypeDecl,
};
use crate::name::Name;
use sqlite_items::Items;

/// What can be compared, and lists of it. `==` can't be derived here, since `Items` has none.
pub(crate) trait Same {
    fn same(&self, other: &Self) -> bool
        ensures { IsTrue result ↔ (self.now ≡ other.now) };
}

impl<T: Same> Same for Items<T> {
    fn same(&self, other: &Items<T>) -> bool {
        same_slices(self.as_slice(), other.as_slice())
    }
}

impl<T: Same> Same for Option<T> {
    fn same(&self, other: &Option<T>) -> bool {
        match (self, other) {
            (Some(value), Some(other_value)) => value.same(other_value),
            (None, None) => true,
            _ => false,
        }
    }
}

fn same_slices<T: Same>(a: &[T], b: &[T]) -> bool
    ensures { IsTrue result ↔ (a.now ≡ b.now) }
{
    if a.len() != b.len() {
        return false;
    }
    for i in 0..a.len() {
        if !a[i].same(&b[i]) {
            return false;
        }
    }
    true
}

impl Same for Name {
    fn same(&self, other: &Name) -> bool {
        self.bytes() == other.bytes()
    }
}

impl Same for Expr {
    fn same(&self, other: &Expr) -> bool {
        Expr::same(self, other)
    }
}

impl Same for Domain {
    fn same(&self, other: &Domain) -> bool {
        match (self, other) {
            (
                Domain::Range { low, high },
                Domain::Range {
                    low: other_low,
                    high: other_high,
                },
            ) => { low == other_low && high == other_high }
            (Domain::Words(words), Domain::Words(other_words)) => words.same(other_words),
            _ => false,
        }
    }
}

impl Same for AttrDecl {
    fn same(&self, other: &AttrDecl) -> bool {
        self.name.same(&other.name) && self.domain.same(&other.domain)
    }
}

impl Same for PortDecl {
    fn same(&self, other: &PortDecl) -> bool {
        self.name.same(&other.name)
            && self.kind == other.kind
            && self.target == other.target
            && self.low == other.low
            && self.high == other.high
            && self.inverse.same(&other.inverse)
    }
}

impl Same for TypeDecl {
    fn same(&self, other: &TypeDecl) -> bool {
        self.name.same(&other.name)
            && self.parent == other.parent
            && self.attributes.same(&other.attributes)
            && self.ports.same(&other.ports)
    }
}

impl Same for CountBound {
    fn same(&self, other: &CountBound) -> bool {
        self == other
    }
}

impl Same for Rule {
    fn same(&self, other: &Rule) -> bool {
        self.name.same(&other.name) && self.kind == other.kind && self.holds.same(&other.holds)
    }
}

impl Same for Model {
    fn same(&self, other: &Model) -> bool {
        self.root == other.root
            && self.instances == other.instances
            && self.types.same(&other.types)
            && self.bounds.same(&other.bounds)
            && self.rules.same(&other.rules)
    }
}

impl Same for Request {
    fn same(&self, other: &Request) -> bool {
        self.name.same(&other.name) && self.holds.same(&other.holds)
    }
}

impl Same for Criterion {
    fn same(&self, other: &Criterion) -> bool {
        self.name.same(&other.name)
            && self.maximise == other.maximise
            && self.value.same(&other.value)
    }
}
