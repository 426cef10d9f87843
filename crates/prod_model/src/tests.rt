//! What no clause says: that calls succeed, and the masks and comparisons of small data worked out
//! by hand.
ghost use Rattle.std.specs.Prelude.{◌≡◌, ◌≤◌, length, IfOk, codes, [], ◌∷◌};

use crate::expr::{Expr, Relation};
use crate::model::{AttrAt, Criterion, Domain, Model, Order, Request, Tables, TypeDecl};
use crate::name::Name;
use crate::port_rows::PortRows;
use crate::problem::Problem;
use crate::type_masks::TypeMasks;
use sqlite_items::{Boxed, Items};
use std::alloc::{AllocError, Global};
use std::test::Fail;

/// A type with this parent and nothing else.
fn child_of(alloc: Global, parent: Option<u32>) -> Result<TypeDecl, AllocError>
    ensures { IfOk result (λ d. d.parent ≡ parent) }
{
    Ok(TypeDecl {
        name: Name::from_bytes(alloc, b"Type")?,
        parent,
        attributes: Items::new(alloc),
        ports: Items::new(alloc),
    })
}

/// Two trees: 3 over 2 over 0 and 4, and 1 over 5.
#[test]
fn finds_what_is_under_a_type(rt: HostRuntime) -> Result<(), Fail> {
    let alloc = rt.alloc();
    let mut types = Items::new(alloc);
    types.push(child_of(alloc, Some(2))?)?;
    types.push(child_of(alloc, None)?)?;
    types.push(child_of(alloc, Some(3))?)?;
    types.push(child_of(alloc, None)?)?;
    types.push(child_of(alloc, Some(2))?)?;
    types.push(child_of(alloc, Some(1))?)?;
    let masks = TypeMasks::of_types(types.as_slice());
    for (t, under) in [
        (0, 0b000001),
        (1, 0b100010),
        (2, 0b010101),
        (3, 0b011101),
        (4, 0b010000),
        (5, 0b100000),
    ] {
        for k in 0..6 {
            assert_eq!(rt; masks.is_a(k, t), under >> k & 1 == 1, "{k} is a {t}");
        }
        assert_eq!(rt; masks.is_leaf(t), matches!(t, 0 | 4 | 5), "at {t}");
        assert_eq!(rt; masks.leaves_under(t), under & 0b110001, "at {t}");
    }
    Ok(())
}

/// One type, of no attributes and ports.
fn one_type(alloc: Global) -> Result<Items<TypeDecl>, AllocError>
    ensures { IfOk result (λ types. types
        ≡ record { name = codes "Type"; parent = None; attributes = []; ports = [] } ∷ []) }
{
    let mut types = Items::new(alloc);
    types.push(TypeDecl {
        name: Name::from_bytes(alloc, b"Type")?,
        parent: None,
        attributes: Items::new(alloc),
        ports: Items::new(alloc),
    })?;
    Ok(types)
}

fn no_attributes(alloc: Global) -> Result<Items<Items<AttrAt>>, AllocError>
    ensures { IfOk result (λ rows. rows ≡ [] ∷ []) }
{
    let mut rows = Items::new(alloc);
    rows.push(Items::new(alloc))?;
    Ok(rows)
}

fn no_ports(alloc: Global) -> Result<PortRows, AllocError>
    ensures { IfOk result (λ rows. rows ≡ [] ∷ []) }
{
    let mut rows = PortRows::new(alloc);
    rows.push(Items::new(alloc))?;
    Ok(rows)
}

fn one_type_problem(alloc: Global) -> Result<Problem, AllocError>
    ensures { IfOk result (λ m. length m.types ≡ 1) }
{
    let types = one_type(alloc)?;
    let attributes = no_attributes(alloc)?;
    let ports = no_ports(alloc)?;
    let model = Model {
        root: 0,
        instances: 1,
        types,
        bounds: Items::new(alloc),
        rules: Items::new(alloc),
    };
    Ok(Problem::from_parts(model, Tables { attributes, ports }))
}

#[test]
fn answers_about_one_type(rt: HostRuntime) -> Result<(), Fail> {
    let alloc = rt.alloc();
    let problem = one_type_problem(alloc)?;
    assert!(rt; problem.is_a(0, 0));
    assert!(rt; problem.is_leaf(0));
    assert_eq!(rt; problem.leaves_under(0), 1);
    assert_eq!(rt; problem.attrs_of(0).len(), 0);
    assert_eq!(rt; problem.ports_of(0).len(), 0);
    assert!(rt; problem.attribute_of(0, 0).is_none());
    assert!(rt; problem.port_of(0, 0).is_none());
    assert!(rt; problem.model().is_type(0) && !problem.model().is_type(1));
    assert!(rt; problem.model().parent_of(0).is_none());
    let copied = problem.copy(alloc)?;
    assert!(rt; problem.same(&copied));
    assert_eq!(rt; copied.model().types.len(), 1);
    Ok(())
}

#[test]
fn copies_words(rt: HostRuntime) -> Result<(), Fail> {
    let alloc = rt.alloc();
    let mut words = Items::new(alloc);
    words.push(Name::from_bytes(alloc, b"red")?)?;
    words.push(Name::from_bytes(alloc, b"blue")?)?;
    let copied = Domain::Words(words).copy(alloc)?;
    let again = Name::copy_all(alloc, copied.words())?;
    let mut text = Vec::new(alloc);
    for word in again.as_slice() {
        text.extend_from_slice(word.bytes())?;
        text.push(b' ')?;
    }
    assert_eq!(rt; text.as_slice(), b"red blue ".as_slice());
    assert_eq!(rt; Domain::Range { low: 0, high: 9 }.words().len(), 0);
    Ok(())
}

/// The number of links of port 1 times the factor, less 2.
fn sample_number(alloc: Global, factor: i64) -> Result<Expr, AllocError> {
    let times = Expr::Times(factor, Boxed::new(alloc, Expr::Count(1))?);
    Ok(Expr::Sub(Boxed::new(alloc, times)?, Boxed::new(alloc, Expr::Num(2))?))
}

fn sample_truth(alloc: Global, relation: Relation) -> Result<Expr, AllocError> {
    let compared = Expr::Cmp(
        relation,
        Boxed::new(alloc, sample_number(alloc, 3)?)?,
        Boxed::new(alloc, Expr::Total(0, 1))?,
    );
    let mut args = Items::new(alloc);
    args.push(compared)?;
    args.push(Expr::All(1, Boxed::new(alloc, Expr::Is(0, 2))?))?;
    Ok(Expr::Or(args))
}

fn sample_order(alloc: Global, relation: Relation, factor: i64) -> Result<Order, AllocError> {
    let mut requests = Items::new(alloc);
    requests.push(Request {
        name: Name::from_bytes(alloc, b"enough")?,
        holds: sample_truth(alloc, relation)?,
    })?;
    let mut criteria = Items::new(alloc);
    criteria.push(Criterion {
        name: Name::from_bytes(alloc, b"cost")?,
        maximise: false,
        value: sample_number(alloc, factor)?,
    })?;
    Ok(Order { requests, criteria })
}

#[test]
fn tells_orders_apart(rt: HostRuntime) -> Result<(), Fail> {
    let alloc = rt.alloc();
    let order = sample_order(alloc, Relation::AtLeast, 3)?;
    let copied = order.copy(alloc)?;
    assert!(rt; order.same(&copied), "its copy");
    let other_request = sample_order(alloc, Relation::Greater, 3)?;
    assert!(rt; !order.same(&other_request), "another request");
    let other_criterion = sample_order(alloc, Relation::AtLeast, 4)?;
    assert!(rt; !order.same(&other_criterion), "another criterion");
    let mut shorter = copied;
    let _last = shorter.criteria.pop();
    assert!(rt; !order.same(&shorter), "no criterion");
    Ok(())
}
