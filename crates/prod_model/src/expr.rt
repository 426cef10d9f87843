//! Expressions over an instance, and their copies and comparison.
ghost use Rattle.std.specs.Prelude.{◌≡◌, ◌↔◌, IsTrue, IfOk};

use sqlite_items::{Boxed, Items};
use std::alloc::{AllocError, Global};

/// How the first of two numbers is compared with the second.
#[derive(Clone, Copy, Debug, PartialEq, Eq)]
pub enum Relation {
    Less,
    AtMost,
    Equal,
    Differs,
    AtLeast,
    Greater,
}

/// An expression, whose value is asked at an instance: a whole number or a truth. Attributes and
/// ports stand by their ids, types by their numbers. In a valid model each number that a part of it
/// can give lies within -10^15 to 10^15. It nests at most 16 deep, and its lists have 1 to 64
/// arguments.
#[derive(Drop)]
pub enum Expr {
    /// This number.
    Num(i64),
    /// The instance's value of an attribute, which has a range there.
    Attr(u32),
    /// How many links a port has.
    Count(u32),
    /// How many links a port has to instances under a type: the port and the type.
    CountOf(u32, u32),
    /// The sum of an attribute over the links of a port: the port and the attribute.
    Sum(u32, u32),
    /// The sum of an attribute over all instances under a type: the type and the attribute.
    Total(u32, u32),
    /// How many instances are under a type.
    Number(u32),
    /// The sum of the arguments.
    Add(Items<Expr>),
    /// The first number less the second.
    Sub(Boxed<Expr>, Boxed<Expr>),
    /// The number times a constant factor.
    Times(i64, Boxed<Expr>),
    /// Whether the first number is so related to the second.
    Cmp(Relation, Boxed<Expr>, Boxed<Expr>),
    /// Whether the instance has a word as its value of an attribute: the attribute and the value of
    /// the word, which is its place, from 0, in the attribute's first declaration.
    Is(u32, u32),
    /// Whether the instance is under a type.
    Kind(u32),
    /// Whether all arguments are true.
    And(Items<Expr>),
    /// Whether some argument is true.
    Or(Items<Expr>),
    /// Whether the argument is false.
    Not(Boxed<Expr>),
    /// Whether the first argument is false or the second true.
    If(Boxed<Expr>, Boxed<Expr>),
    /// Whether the argument is true at each instance that a port links.
    All(u32, Boxed<Expr>),
    /// Whether the argument is true at some instance that a port links.
    Any(u32, Boxed<Expr>),
}

impl Expr {
    /// The same expression in memory of its own. `AllocError` where memory runs out.
    #[cycle(copies)]
    pub fn copy(&self, alloc: Global) -> Result<Expr, AllocError>
        ensures { IfOk result (λ e. e ≡ self.now) }
    {
        match self {
            Expr::Num(n) => Ok(Expr::Num(*n)),
            Expr::Attr(a) => Ok(Expr::Attr(*a)),
            Expr::Count(p) => Ok(Expr::Count(*p)),
            Expr::CountOf(p, t) => Ok(Expr::CountOf(*p, *t)),
            Expr::Sum(p, a) => Ok(Expr::Sum(*p, *a)),
            Expr::Total(t, a) => Ok(Expr::Total(*t, *a)),
            Expr::Number(t) => Ok(Expr::Number(*t)),
            Expr::Add(args) => Ok(Expr::Add(copy_all(alloc, args)?)),
            Expr::Sub(a, b) => Ok(Expr::Sub(copy_boxed(alloc, a)?, copy_boxed(alloc, b)?)),
            Expr::Times(k, a) => Ok(Expr::Times(*k, copy_boxed(alloc, a)?)),
            Expr::Cmp(r, a, b) => Ok(Expr::Cmp(*r, copy_boxed(alloc, a)?, copy_boxed(alloc, b)?)),
            Expr::Is(a, w) => Ok(Expr::Is(*a, *w)),
            Expr::Kind(t) => Ok(Expr::Kind(*t)),
            Expr::And(args) => Ok(Expr::And(copy_all(alloc, args)?)),
            Expr::Or(args) => Ok(Expr::Or(copy_all(alloc, args)?)),
            Expr::Not(a) => Ok(Expr::Not(copy_boxed(alloc, a)?)),
            Expr::If(a, b) => Ok(Expr::If(copy_boxed(alloc, a)?, copy_boxed(alloc, b)?)),
            Expr::All(p, a) => Ok(Expr::All(*p, copy_boxed(alloc, a)?)),
            Expr::Any(p, a) => Ok(Expr::Any(*p, copy_boxed(alloc, a)?)),
        }
    }

    /// Whether the two are the same form with the same arguments in the same order.
    #[cycle(comparisons)]
    pub fn same(&self, other: &Expr) -> bool
        ensures { IsTrue result ↔ (self.now ≡ other.now) }
    {
        match (self, other) {
            (Expr::Num(n), Expr::Num(m)) => n == m,
            (Expr::Attr(a), Expr::Attr(b)) => a == b,
            (Expr::Count(p), Expr::Count(q)) => p == q,
            (Expr::CountOf(p, t), Expr::CountOf(q, u)) => p == q && t == u,
            (Expr::Sum(p, a), Expr::Sum(q, b)) => p == q && a == b,
            (Expr::Total(t, a), Expr::Total(u, b)) => t == u && a == b,
            (Expr::Number(t), Expr::Number(u)) => t == u,
            (Expr::Add(es), Expr::Add(fs)) => same_all(es.as_slice(), fs.as_slice()),
            (Expr::Sub(a, b), Expr::Sub(c, d)) => same_boxed(a, c) && same_boxed(b, d),
            (Expr::Times(k, a), Expr::Times(l, b)) => k == l && same_boxed(a, b),
            (Expr::Cmp(r, a, b), Expr::Cmp(s, c, d)) => r == s
                && same_boxed(a, c)
                && same_boxed(b, d),
            (Expr::Is(a, w), Expr::Is(b, v)) => a == b && w == v,
            (Expr::Kind(t), Expr::Kind(u)) => t == u,
            (Expr::And(es), Expr::And(fs)) => same_all(es.as_slice(), fs.as_slice()),
            (Expr::Or(es), Expr::Or(fs)) => same_all(es.as_slice(), fs.as_slice()),
            (Expr::Not(a), Expr::Not(b)) => same_boxed(a, b),
            (Expr::If(a, b), Expr::If(c, d)) => same_boxed(a, c) && same_boxed(b, d),
            (Expr::All(p, a), Expr::All(q, b)) => p == q && same_boxed(a, b),
            (Expr::Any(p, a), Expr::Any(q, b)) => p == q && same_boxed(a, b),
            _ => false,
        }
    }
}

#[cycle(copies)]
fn copy_boxed(alloc: Global, e: &Boxed<Expr>) -> Result<Boxed<Expr>, AllocError>
    ensures { IfOk result (λ c. c ≡ e.now) }
{
    let inner = e.get().copy(alloc)?;
    Boxed::new(alloc, inner)
}

#[cycle(copies)]
fn copy_all(alloc: Global, args: &Items<Expr>) -> Result<Items<Expr>, AllocError>
    ensures { IfOk result (λ c. c ≡ args.now) }
{
    let mut copies = Items::new(alloc);
    for e in args.as_slice() {
        copies.push(e.copy(alloc)?)?;
    }
    Ok(copies)
}

#[cycle(comparisons)]
fn same_boxed(a: &Boxed<Expr>, b: &Boxed<Expr>) -> bool
    ensures { IsTrue result ↔ (a.now ≡ b.now) }
{
    a.get().same(b.get())
}

#[cycle(comparisons)]
fn same_all(a: &[Expr], b: &[Expr]) -> bool
    ensures { IsTrue result ↔ (a.now ≡ b.now) }
{
    if a.len() != b.len() {
        return false;
    }
    for i in 0..a.len() {
        if !a[i].same(&b[i]) {
            return false;
        }
    }
    true
}
