//! Which literals say less than another one.
ghost use Rattle.std.specs.Prelude.{◌≡◌};
ghost use Rattle.prod_model.specs.Forest.{is_a};
ghost use Rattle.config_value.specs.declared.literal.Literal.TheVariants.{AtMost as at_most, AtLeast as at_least, ValueIsNot as value_is_not, Linked as linked_to, NotLinked as not_linked_to, LinksAtMost as links_at_most, LinksAtLeast as links_at_least, FreshAtMost as fresh_at_most, FreshAtLeast as fresh_at_least};
ghost use Rattle.conflict_learn.specs.Implied.{implies as implies_of, instance_of as instance, shows_made as made_is_shown, shows_type as type_is_shown, shows_value as value_is_shown, shows_links as links_are_shown};

use literal_book::Literal;
use prod_model::Problem;

/// Whether the first literal alone shows the second, as far as types and bounds tell: then the
/// second one says nothing beside it. It takes no memory, and constant time.
#[tactic(auto, unfolding(crate::specs::Implied::implies))]
pub fn implies(problem: &Problem, k: &Literal, l: &Literal) -> bool
    ensures { result ≡ implies_of problem.now k.now l.now }
{
    shows_made(k, l) || shows_type(problem, k, l) || shows_value(k, l) || shows_links(k, l)
}

/// The number of the instance that the literal speaks of.
fn instance_of(l: &Literal) -> u32
    ensures { result ≡ instance l.now }
{
    match *l {
        Literal::Made { instance }
        | Literal::Kind { instance, .. }
        | Literal::NotKind { instance, .. }
        | Literal::AtMost { instance, .. }
        | Literal::AtLeast { instance, .. }
        | Literal::ValueIsNot { instance, .. }
        | Literal::Linked { instance, .. }
        | Literal::NotLinked { instance, .. }
        | Literal::LinksAtMost { instance, .. }
        | Literal::LinksAtLeast { instance, .. }
        | Literal::FreshAtMost { instance, .. }
        | Literal::FreshAtLeast { instance, .. } => instance,
    }
}

/// What a literal shows of which instances there are.
fn shows_made(k: &Literal, l: &Literal) -> bool
    ensures { result ≡ made_is_shown k.now l.now }
{
    match *l {
        Literal::Made { instance } => instance <= instance_of(k),
        _ => false,
    }
}

// ---- types

/// What a literal shows of its instance's type.
fn shows_type(problem: &Problem, k: &Literal, l: &Literal) -> bool
    ensures { result ≡ type_is_shown problem.now k.now l.now }
{
    match (*k, *l) {
        (
            Literal::Kind { instance, kind },
            Literal::Kind {
                instance: other,
                kind: wide,
            },
        ) => instance == other && is_of(problem, kind, wide),
        (
            Literal::Kind { instance, kind },
            Literal::NotKind {
                instance: other,
                kind: apart,
            },
        ) => { instance == other && !is_of(problem, kind, apart) && !is_of(problem, apart, kind) }
        (
            Literal::NotKind { instance, kind },
            Literal::NotKind {
                instance: other,
                kind: narrow,
            },
        ) => instance == other && is_of(problem, narrow, kind),
        _ => false,
    }
}

/// Whether the type is the type `of` or under it. A number that is no type is under none.
#[tactic(auto, using(prod_model::proofs::NoTypes::is_a_outside))]
fn is_of(problem: &Problem, kind: u32, of: u32) -> bool
    ensures { result ≡ is_a problem.now kind of }
{
    let model = problem.model();
    model.is_type(kind) && model.is_type(of) && problem.is_a(kind, of)
}

// ---- values

/// What a literal shows of a value.
fn shows_value(k: &Literal, l: &Literal) -> bool
    ensures { result ≡ value_is_shown k.now l.now }
{
    match *k {
        Literal::AtMost {
            instance,
            attr,
            value,
        } => shown_by_at_most(instance, attr, value, l),
        Literal::AtLeast {
            instance,
            attr,
            value,
        } => shown_by_at_least(instance, attr, value, l),
        Literal::ValueIsNot {
            instance,
            attr,
            value,
        } => shown_by_value_is_not(instance, attr, value, l),
        _ => false,
    }
}

/// What `AtMost` shows: a higher bound, and that the value is none above the bound.
fn shown_by_at_most(i: u32, a: u32, most: i64, l: &Literal) -> bool
    ensures { result ≡ value_is_shown (at_most i a most) l.now }
{
    match *l {
        Literal::AtMost {
            instance,
            attr,
            value,
        } => i == instance && a == attr && most <= value,
        Literal::ValueIsNot {
            instance,
            attr,
            value,
        } => i == instance && a == attr && most < value,
        _ => false,
    }
}

/// What `AtLeast` shows: a lower bound, and that the value is none below the bound.
fn shown_by_at_least(i: u32, a: u32, least: i64, l: &Literal) -> bool
    ensures { result ≡ value_is_shown (at_least i a least) l.now }
{
    match *l {
        Literal::AtLeast {
            instance,
            attr,
            value,
        } => i == instance && a == attr && value <= least,
        Literal::ValueIsNot {
            instance,
            attr,
            value,
        } => i == instance && a == attr && value < least,
        _ => false,
    }
}

/// What `ValueIsNot` shows: itself.
fn shown_by_value_is_not(i: u32, a: u32, other: i64, l: &Literal) -> bool
    ensures { result ≡ value_is_shown (value_is_not i a other) l.now }
{
    match *l {
        Literal::ValueIsNot {
            instance,
            attr,
            value,
        } => i == instance && a == attr && other == value,
        _ => false,
    }
}

// ---- links

/// What a literal shows of the links of a port.
fn shows_links(k: &Literal, l: &Literal) -> bool
    ensures { result ≡ links_are_shown k.now l.now }
{
    match *k {
        Literal::Linked { instance, port, to } => shown_by_linked(instance, port, to, l),
        Literal::NotLinked { instance, port, to } => shown_by_not_linked(instance, port, to, l),
        Literal::LinksAtMost {
            instance,
            port,
            count,
        } => shown_by_links_at_most(instance, port, count, l),
        Literal::LinksAtLeast {
            instance,
            port,
            count,
        } => shown_by_links_at_least(instance, port, count, l),
        Literal::FreshAtMost {
            instance,
            port,
            from,
            count,
        } => shown_by_fresh_at_most(instance, port, from, count, l),
        Literal::FreshAtLeast {
            instance,
            port,
            from,
            count,
        } => shown_by_fresh_at_least(instance, port, from, count, l),
        _ => false,
    }
}

/// What `Linked` shows: itself, and that there is a link.
fn shown_by_linked(i: u32, p: u32, linked: u32, l: &Literal) -> bool
    ensures { result ≡ links_are_shown (linked_to i p linked) l.now }
{
    match *l {
        Literal::Linked { instance, port, to } => i == instance && p == port && linked == to,
        Literal::LinksAtLeast {
            instance,
            port,
            count,
        } => i == instance && p == port && count <= 1,
        Literal::FreshAtLeast {
            instance,
            port,
            from,
            count,
        } => i == instance && p == port && from <= linked && count <= 1,
        _ => false,
    }
}

/// What `NotLinked` shows: itself.
fn shown_by_not_linked(i: u32, p: u32, other: u32, l: &Literal) -> bool
    ensures { result ≡ links_are_shown (not_linked_to i p other) l.now }
{
    match *l {
        Literal::NotLinked { instance, port, to } => i == instance && p == port && other == to,
        _ => false,
    }
}

/// What `LinksAtMost` shows: higher bounds, of those from a number on, too, and that an instance is
/// not linked where none is.
fn shown_by_links_at_most(i: u32, p: u32, most: u32, l: &Literal) -> bool
    ensures { result ≡ links_are_shown (links_at_most i p most) l.now }
{
    match *l {
        Literal::LinksAtMost {
            instance,
            port,
            count,
        } => i == instance && p == port && most <= count,
        Literal::FreshAtMost {
            instance,
            port,
            count,
            ..
        } => i == instance && p == port && most <= count,
        Literal::NotLinked { instance, port, .. } => i == instance && p == port && most == 0,
        _ => false,
    }
}

/// What `LinksAtLeast` shows: lower bounds.
fn shown_by_links_at_least(i: u32, p: u32, least: u32, l: &Literal) -> bool
    ensures { result ≡ links_are_shown (links_at_least i p least) l.now }
{
    match *l {
        Literal::LinksAtLeast {
            instance,
            port,
            count,
        } => i == instance && p == port && count <= least,
        _ => false,
    }
}

/// What `FreshAtMost` shows: higher bounds of those from that number or a later one on, and that an
/// instance of those is not linked where none is.
fn shown_by_fresh_at_most(i: u32, p: u32, first: u32, most: u32, l: &Literal) -> bool
    ensures { result ≡ links_are_shown (fresh_at_most i p first most) l.now }
{
    match *l {
        Literal::FreshAtMost {
            instance,
            port,
            from,
            count,
        } => i == instance && p == port && first <= from && most <= count,
        Literal::NotLinked { instance, port, to } => {
            i == instance && p == port && first <= to && most == 0
        }
        _ => false,
    }
}

/// What `FreshAtLeast` shows: lower bounds of those from that number or an earlier one on, and of
/// all.
fn shown_by_fresh_at_least(i: u32, p: u32, first: u32, least: u32, l: &Literal) -> bool
    ensures { result ≡ links_are_shown (fresh_at_least i p first least) l.now }
{
    match *l {
        Literal::FreshAtLeast {
            instance,
            port,
            from,
            count,
        } => i == instance && p == port && from <= first && count <= least,
        Literal::LinksAtLeast {
            instance,
            port,
            count,
        } => i == instance && p == port && count <= least,
        _ => false,
    }
}
