//! Types named `Kind`, and small models.
ghost use Rattle.std.specs.Prelude.{◌≡◌, [], ◌∷◌, codes, IfOk};
ghost use Rattle.prod_model.specs.Valid.{IsFormed};
ghost use Rattle.type_taxonomy.specs.steps.Peer.{peer};

use model_literals::{
    TypeLiteral, attribute_of, model_of, name_of, one, port, port_of, range, type_literal, type_of,
    with_inverse,
};
use prod_model::{AttrDecl, Items, Model, PortDecl, PortKind, TypeDecl};
use std::alloc::{AllocError, Global};

/// Types, and what is told of them.
pub(super) type Row = (&'static [TypeLiteral<'static>], &'static str);

/// A type with its parent, its attributes and its ports.
macro_rules! kind {
    ($parent:expr, $attributes:expr, $ports:expr) => {
        TypeLiteral {
            name: b"Kind",
            parent: $parent,
            attributes: &$attributes,
            ports: &$ports,
        }
    };
}

pub(super) use kind;

/// An attribute of whole numbers.
macro_rules! sized {
    ($name:expr, $low:expr, $high:expr) => {
        AttributeLiteral {
            name: $name,
            values: Values::Between($low, $high),
        }
    };
}

pub(super) use sized;

/// An attribute of words.
macro_rules! worded {
    ($name:expr, $words:expr) => {
        AttributeLiteral {
            name: $name,
            values: Values::OneOf(&$words),
        }
    };
}

pub(super) use worded;

/// A port, with its inverse if it names one.
macro_rules! linked {
    ($name:expr, $kind:ident, $target:expr, $low:expr, $high:expr, $inverse:expr) => {
        PortLiteral {
            name: $name,
            kind: PortKind::$kind,
            target: $target,
            low: $low,
            high: $high,
            inverse: $inverse,
        }
    };
}

pub(super) use linked;

/// A type with this parent and nothing else.
pub(super) fn plain(alloc: Global, parent: Option<u32>) -> Result<TypeDecl, AllocError> {
    type_of(alloc, &type_literal(b"Kind", parent, &[], &[]))
}

/// One type, whose parent is no type.
fn one_box(alloc: Global) -> Result<Items<TypeDecl>, AllocError>
    ensures { IfOk result (λ types. types
        ≡ record { name = codes "Box"; parent = Some 7; attributes = []; ports = [] } ∷ []) }
{
    let literal = type_literal(b"Box", Some(7), &[], &[]);
    one(alloc, type_of(alloc, &literal)?)
}

pub(super) fn formed_box(alloc: Global) -> Result<Model, AllocError>
    ensures { IfOk result IsFormed }
{
    let types = one_box(alloc)?;
    Ok(model_of(alloc, 0, 1, types))
}

/// One type, with a port that is its own inverse.
fn one_peer(alloc: Global) -> Result<Items<TypeDecl>, AllocError>
    ensures { IfOk result (λ types. types ≡ peer ∷ []) }
{
    let ports = [with_inverse(port(b"peer", PortKind::Shared, 0, 0, 1), b"peer")];
    let literal = type_literal(b"Box", None, &[], &ports);
    one(alloc, type_of(alloc, &literal)?)
}

pub(super) fn formed_peer(alloc: Global) -> Result<Model, AllocError>
    ensures { IfOk result IsFormed }
{
    let types = one_peer(alloc)?;
    Ok(model_of(alloc, 0, 1, types))
}

/// Two letters and a number.
fn numbered(letter: u8, sort: u8, number: u8) -> [u8; 4] {
    [letter, sort, b'a' + number % 26, b'a' + number / 26]
}

fn many_attributes(alloc: Global, letter: u8, number: u8) -> Result<Items<AttrDecl>, AllocError> {
    let mut attributes = Items::new(alloc);
    for k in 0..number {
        let name = numbered(letter, b'a', k);
        let literal = range(&name, 0, 1);
        attributes.push(attribute_of(alloc, &literal)?)?;
    }
    Ok(attributes)
}

fn many_ports(alloc: Global, letter: u8, number: u8) -> Result<Items<PortDecl>, AllocError> {
    let mut ports = Items::new(alloc);
    for k in 0..number {
        let name = numbered(letter, b'p', k);
        let literal = port(&name, PortKind::Shared, 0, 0, 1);
        ports.push(port_of(alloc, &literal)?)?;
    }
    Ok(ports)
}

/// A type of so many attributes and ports, whose names begin with the letter.
pub(super) fn many(
    alloc: Global,
    parent: Option<u32>,
    letter: u8,
    number: (u8, u8),
) -> Result<TypeDecl, AllocError> {
    Ok(TypeDecl {
        name: name_of(alloc, b"Kind")?,
        parent,
        attributes: many_attributes(alloc, letter, number.0)?,
        ports: many_ports(alloc, letter, number.1)?,
    })
}
