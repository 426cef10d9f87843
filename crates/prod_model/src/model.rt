//! The declarations of a model and of an order, and the tables of a model.
//!
//! Types, attributes and ports are named by numbers, each a place counted from 0 in file order. A
//! type's number counts the types. An attribute's id counts the attributes that are new in their
//! type, over all types; a port's id likewise counts ports. The ranges that the comments give are
//! those of a valid model.
ghost use Rattle.std.specs.Prelude.{◌≡◌, ◌↔◌, IsTrue, IfOk};
ghost use Rattle.prod_model.specs.Forest.{is_type as is_type_of, parent_of as parent_at};
ghost use Rattle.prod_model.specs.Taxonomy.{words_of};

use crate::copies::Copies;
use crate::expr::Expr;
use crate::name::Name;
use crate::port_rows::PortRows;
use crate::same::Same;
use sqlite_items::Items;
use std::alloc::{AllocError, Global};

/// The values that an attribute may have.
#[derive(Drop)]
pub enum Domain {
    /// The whole numbers from `low` to `high`, both within -1,000,000 to 1,000,000 and in order.
    Range { low: i64, high: i64 },
    /// 1 to 64 distinct words. The value of a word is its place, from 0, in the attribute's first
    /// declaration.
    Words(Items<Name>),
}

impl Domain {
    /// The words, and none where it is a range.
    pub fn words(&self) -> &[Name]
        ensures { result.now ≡ words_of self.now }
    {
        match self {
            Domain::Range { .. } => &[],
            Domain::Words(words) => words.as_slice(),
        }
    }

    /// The same domain in memory of its own. `AllocError` where memory runs out.
    pub fn copy(&self, alloc: Global) -> Result<Domain, AllocError>
        ensures { IfOk result (λ d. d ≡ self.now) }
    {
        match self {
            Domain::Range { low, high } => Ok(Domain::Range {
                low: *low,
                high: *high,
            }),
            Domain::Words(words) => Ok(Domain::Words(words.copy(alloc)?)),
        }
    }
}

/// How a port's links take up the instances that they lead to.
#[derive(Clone, Copy, Debug, PartialEq, Eq)]
pub enum PortKind {
    /// Of all links of such ports, at most one leads to an instance, and none to the root product.
    Part,
    /// Any number of links may lead to an instance.
    Shared,
}

/// A declaration in a type. It is new there, or narrows the inherited attribute of its name, and
/// keeps its id.
#[derive(Drop)]
pub struct AttrDecl {
    pub name: Name,
    pub domain: Domain,
}

/// A declaration in a type. It is new there, or narrows the inherited port of its name, and keeps
/// its id and its inverse.
#[derive(Drop)]
pub struct PortDecl {
    pub name: Name,
    pub kind: PortKind,
    /// The type under which the linked instances are.
    pub target: u32,
    /// The least number of links, 0 to 256.
    pub low: u32,
    /// The greatest number of links, `low` to 256.
    pub high: u32,
    /// The name of the target's port that links back wherever this one links, if there is one. Only
    /// a new declaration may have it.
    pub inverse: Option<Name>,
}

/// A type, with what its own entry in the file declares.
#[derive(Drop)]
pub struct TypeDecl {
    pub name: Name,
    /// The number of its parent, which may come later in the file.
    pub parent: Option<u32>,
    pub attributes: Items<AttrDecl>,
    pub ports: Items<PortDecl>,
}

/// How many instances under a type there may be.
#[derive(Clone, Copy, Debug, PartialEq, Eq)]
pub struct CountBound {
    /// The number of the type. No two bounds have the same.
    pub kind: u32,
    /// The least number of instances, 0 to 256.
    pub low: u32,
    /// The greatest number of instances, `low` to 256.
    pub high: u32,
}

/// What has to hold at each instance under a type.
#[derive(Drop)]
pub struct Rule {
    pub name: Name,
    /// The number of the type.
    pub kind: u32,
    /// A truth at that type.
    pub holds: Expr,
}

/// A product model.
#[derive(Drop)]
pub struct Model {
    /// The number of the type that the root product is under.
    pub root: u32,
    /// The greatest number of instances of a configuration, 1 to 256.
    pub instances: u32,
    /// At most 128.
    pub types: Items<TypeDecl>,
    /// At most 128.
    pub bounds: Items<CountBound>,
    /// At most 1,000.
    pub rules: Items<Rule>,
}

impl Model {
    /// Whether it is the number of one of the types.
    pub fn is_type(&self, t: u32) -> bool
        ensures { result ≡ is_type_of self.now t }
    {
        (t as usize) < self.types.len()
    }

    /// The number of the parent of type `t`. Nothing where it has none, or where `t` is no type.
    pub fn parent_of(&self, t: u32) -> Option<u32>
        ensures { result ≡ parent_at self.now t }
    {
        self.types.get(t as usize)?.parent
    }
}

/// What is asked of the root product.
#[derive(Drop)]
pub struct Request {
    pub name: Name,
    /// A truth at the model's root type.
    pub holds: Expr,
}

/// What is preferred of two configurations that meet the same requests.
#[derive(Drop)]
pub struct Criterion {
    pub name: Name,
    /// Whether the greater value is preferred, and else the less one.
    pub maximise: bool,
    /// A number at the model's root type.
    pub value: Expr,
}

/// An order for a product.
#[derive(Drop)]
pub struct Order {
    /// At most 64, the most important first.
    pub requests: Items<Request>,
    /// At most 8. Each decides only where all before it are equal.
    pub criteria: Items<Criterion>,
}

impl Order {
    /// Whether the two have the same requests and criteria, each in the same order.
    pub fn same(&self, other: &Order) -> bool
        ensures { IsTrue result ↔ (self.now ≡ other.now) }
    {
        self.requests.same(&other.requests) && self.criteria.same(&other.criteria)
    }

    /// The same order in memory of its own. `AllocError` where memory runs out.
    pub fn copy(&self, alloc: Global) -> Result<Order, AllocError>
        ensures { IfOk result (λ o. o ≡ self.now) }
    {
        Ok(Order {
            requests: self.requests.copy(alloc)?,
            criteria: self.criteria.copy(alloc)?,
        })
    }
}

/// An attribute of a type, inherited or its own.
#[derive(Drop)]
pub struct AttrAt {
    pub id: u32,
    /// The narrowest domain that the type or an ancestor declares.
    pub domain: Domain,
}

/// A port of a type, inherited or its own, as the type or the nearest ancestor that has it declares
/// it.
#[derive(Clone, Copy, Debug, PartialEq, Eq)]
pub struct PortAt {
    pub id: u32,
    pub kind: PortKind,
    /// The type under which the linked instances are.
    pub target: u32,
    /// The least number of links, 0 to 256.
    pub low: u32,
    /// The greatest number of links, `low` to 256.
    pub high: u32,
    /// The id of its inverse, if it has one: where an instance links another by this port, the
    /// other links it by that one.
    pub inverse: Option<u32>,
}

/// The attributes and ports of each type, inherited ones first. Row t is that of the type of number
/// t, at most 32 attributes or 16 ports.
#[derive(Drop)]
pub struct Tables {
    pub attributes: Items<Items<AttrAt>>,
    pub ports: PortRows,
}
