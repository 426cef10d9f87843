//! The declarations that literals stand for.
ghost use Rattle.std.specs.Prelude.{◌≡◌, [], map, IfOk};
ghost use Rattle.std.specs.Option.{option_map};
ghost use Rattle.model_literals.specs.Literals.{name_of, domain_of, attribute_of, port_of, type_of};

use crate::literal::{AttributeLiteral, PortLiteral, TypeLiteral, Values};
use prod_model::{AttrDecl, Domain, Items, Model, Name, PortDecl, TypeDecl};
use std::alloc::{AllocError, Global};

/// The name of a text; a text that is too short or too long for a name gives `unnamed`.
pub fn name_of(alloc: Global, text: &[u8]) -> Result<Name, AllocError>
    ensures { IfOk result (λ name. name ≡ name_of text.now) }
{
    if text.is_empty() || text.len() > 32 {
        return Name::from_bytes(alloc, b"unnamed");
    }
    Name::from_bytes(alloc, text)
}

fn names_of(alloc: Global, texts: &[&[u8]]) -> Result<Items<Name>, AllocError>
    ensures { IfOk result (λ names. names ≡ map (λ text. name_of text.now) texts.now) }
{
    let mut names = Items::new(alloc);
    for text in texts {
        names.push(name_of(alloc, text)?)?;
    }
    Ok(names)
}

/// The values as a domain.
pub fn domain_of(alloc: Global, values: &Values) -> Result<Domain, AllocError>
    ensures { IfOk result (λ domain. domain ≡ domain_of values.now) }
{
    match values {
        Values::Between(low, high) => Ok(Domain::Range {
            low: *low,
            high: *high,
        }),
        Values::OneOf(words) => Ok(Domain::Words(names_of(alloc, words)?)),
    }
}

/// The declaration of an attribute.
pub fn attribute_of(alloc: Global, literal: &AttributeLiteral) -> Result<AttrDecl, AllocError>
    ensures { IfOk result (λ attribute. attribute ≡ attribute_of literal.now) }
{
    Ok(AttrDecl {
        name: name_of(alloc, literal.name)?,
        domain: domain_of(alloc, &literal.values)?,
    })
}

fn attributes_of(
    alloc: Global,
    literals: &[AttributeLiteral],
) -> Result<Items<AttrDecl>, AllocError>
    ensures { IfOk result (λ attributes. attributes ≡ map attribute_of literals.now) }
{
    let mut attributes = Items::new(alloc);
    for literal in literals {
        attributes.push(attribute_of(alloc, literal)?)?;
    }
    Ok(attributes)
}

fn inverse_of(alloc: Global, inverse: Option<&[u8]>) -> Result<Option<Name>, AllocError>
    ensures { IfOk result (λ name. name ≡ option_map (λ text. name_of text.now) inverse.entry) }
{
    match inverse {
        Some(text) => Ok(Some(name_of(alloc, text)?)),
        None => Ok(None),
    }
}

/// The declaration of a port.
pub fn port_of(alloc: Global, literal: &PortLiteral) -> Result<PortDecl, AllocError>
    ensures { IfOk result (λ port. port ≡ port_of literal.now) }
{
    Ok(PortDecl {
        name: name_of(alloc, literal.name)?,
        kind: literal.kind,
        target: literal.target,
        low: literal.low,
        high: literal.high,
        inverse: inverse_of(alloc, literal.inverse)?,
    })
}

fn ports_of(alloc: Global, literals: &[PortLiteral]) -> Result<Items<PortDecl>, AllocError>
    ensures { IfOk result (λ ports. ports ≡ map port_of literals.now) }
{
    let mut ports = Items::new(alloc);
    for literal in literals {
        ports.push(port_of(alloc, literal)?)?;
    }
    Ok(ports)
}

/// The declaration of a type.
pub fn type_of(alloc: Global, literal: &TypeLiteral) -> Result<TypeDecl, AllocError>
    ensures { IfOk result (λ t. t ≡ type_of literal.now) }
{
    Ok(TypeDecl {
        name: name_of(alloc, literal.name)?,
        parent: literal.parent,
        attributes: attributes_of(alloc, literal.attributes)?,
        ports: ports_of(alloc, literal.ports)?,
    })
}

/// The declarations of types, in order.
pub fn types_of(alloc: Global, literals: &[TypeLiteral]) -> Result<Items<TypeDecl>, AllocError>
    ensures { IfOk result (λ types. types ≡ map type_of literals.now) }
{
    let mut types = Items::new(alloc);
    for literal in literals {
        types.push(type_of(alloc, literal)?)?;
    }
    Ok(types)
}

/// A model without bounds and rules.
pub fn model_of(alloc: Global, root: u32, instances: u32, types: Items<TypeDecl>) -> Model
    ensures { result
        ≡ record { root = root; instances = instances; types = types; bounds = []; rules = [] } }
{
    Model {
        root,
        instances,
        types,
        bounds: Items::new(alloc),
        rules: Items::new(alloc),
    }
}
