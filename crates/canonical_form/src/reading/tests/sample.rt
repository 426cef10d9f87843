//! The small model that the tests are about: `Any` over `Bike`, which has all attributes and ports,
//! and `Wheel`.
ghost use Rattle.std.specs.Prelude.{◌≡◌, length, IfOk, codes, [], ◌∷◌};
ghost use Rattle.canonical_form.specs.steps.Bikes.{plain as plain_decl, bike as bike_decl, kinds as bike_kinds, colors as color_words, bike_attributes as attributes_at, bike_port as port_at};

use model_literals::{
    Values, domain_of, model_of, one, port, range, two, type_literal, type_of, words,
};
use prod_model::{AttrAt, Domain, Items, PortAt, PortKind, PortRows, Problem, Tables, TypeDecl};
use std::alloc::{AllocError, Global};

fn any(alloc: Global) -> Result<TypeDecl, AllocError>
    ensures { IfOk result (λ d. d ≡ plain_decl (codes "Any")) }
{
    type_of(alloc, &type_literal(b"Any", None, &[], &[]))
}

fn bike(alloc: Global) -> Result<TypeDecl, AllocError>
    ensures { IfOk result (λ d. d ≡ bike_decl) }
{
    let attributes = [range(b"price", 0, 99), words(b"color", &[b"red", b"blue"])];
    let left = [port(b"left", PortKind::Part, 2, 0, 9)];
    type_of(alloc, &type_literal(b"Bike", Some(0), &attributes, &left))
}

fn wheel(alloc: Global) -> Result<TypeDecl, AllocError>
    ensures { IfOk result (λ d. d ≡ plain_decl (codes "Wheel")) }
{
    type_of(alloc, &type_literal(b"Wheel", None, &[], &[]))
}

fn kinds(alloc: Global) -> Result<Items<TypeDecl>, AllocError>
    ensures { IfOk result (λ types. types ≡ bike_kinds) }
{
    let mut kinds = two(alloc, any(alloc)?, bike(alloc)?)?;
    kinds.push(wheel(alloc)?)?;
    Ok(kinds)
}

fn colors(alloc: Global) -> Result<Domain, AllocError>
    ensures { IfOk result (λ d. d ≡ color_words) }
{
    domain_of(alloc, &Values::OneOf(&[b"red", b"blue"]))
}

fn bike_attributes(alloc: Global) -> Result<Items<AttrAt>, AllocError>
    ensures { IfOk result (λ attributes. attributes ≡ attributes_at) }
{
    let price = AttrAt {
        id: 0,
        domain: Domain::Range { low: 0, high: 99 },
    };
    let color = AttrAt {
        id: 1,
        domain: colors(alloc)?,
    };
    two(alloc, price, color)
}

fn bike_port() -> PortAt
    ensures { result ≡ port_at }
{
    PortAt {
        id: 0,
        kind: PortKind::Part,
        target: 2,
        low: 0,
        high: 9,
        inverse: None,
    }
}

/// What the bike has, between two types that have nothing.
fn attribute_rows(alloc: Global, bike: Items<AttrAt>) -> Result<Items<Items<AttrAt>>, AllocError>
    ensures { IfOk result (λ rows. rows ≡ [] ∷ bike ∷ [] ∷ []) }
{
    let mut rows = two(alloc, Items::new(alloc), bike)?;
    rows.push(Items::new(alloc))?;
    Ok(rows)
}

fn port_rows(alloc: Global, bike: Items<PortAt>) -> Result<PortRows, AllocError>
    ensures { IfOk result (λ rows. rows ≡ [] ∷ bike ∷ [] ∷ []) }
{
    let mut rows = PortRows::new(alloc);
    rows.push(Items::new(alloc))?;
    rows.push(bike)?;
    rows.push(Items::new(alloc))?;
    Ok(rows)
}

fn tables(alloc: Global) -> Result<Tables, AllocError>
    ensures { IfOk result (λ t. t ≡ record {
      attributes = [] ∷ attributes_at ∷ [] ∷ [];
      ports = [] ∷ (port_at ∷ []) ∷ [] ∷ [];
    }) }
{
    let attributes = attribute_rows(alloc, bike_attributes(alloc)?)?;
    let ports = port_rows(alloc, one(alloc, bike_port())?)?;
    Ok(Tables { attributes, ports })
}

pub(super) fn bikes(alloc: Global) -> Result<Problem, AllocError>
    ensures { IfOk result (λ m. length m.types ≡ 3) }
{
    let types = kinds(alloc)?;
    let tables = tables(alloc)?;
    Ok(Problem::from_parts(model_of(alloc, 1, 256, types), tables))
}
