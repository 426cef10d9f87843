//! Types, attributes and ports, written short.
ghost use Rattle.std.specs.Prelude.{◌≡◌, map, Some, None};
ghost use Rattle.prod_model.specs.declared.model.Domain.TheVariants.{Range, Words};
ghost use Rattle.model_literals.specs.Literals.{name_of, attribute_of, port_of, type_of};

use prod_model::PortKind;

/// The values of an attribute.
#[derive(Clone, Copy)]
pub enum Values<'a> {
    /// The whole numbers from the first to the second.
    Between(i64, i64),
    /// Words.
    OneOf(&'a [&'a [u8]]),
}

/// An attribute.
#[derive(Clone, Copy)]
pub struct AttributeLiteral<'a> {
    pub name: &'a [u8],
    pub values: Values<'a>,
}

/// A port, with its target, how few and how many links it has, and the name of its inverse.
#[derive(Clone, Copy)]
pub struct PortLiteral<'a> {
    pub name: &'a [u8],
    pub kind: PortKind,
    pub target: u32,
    pub low: u32,
    pub high: u32,
    pub inverse: Option<&'a [u8]>,
}

/// A type, with its parent's number.
#[derive(Clone, Copy)]
pub struct TypeLiteral<'a> {
    pub name: &'a [u8],
    pub parent: Option<u32>,
    pub attributes: &'a [AttributeLiteral<'a>],
    pub ports: &'a [PortLiteral<'a>],
}

/// An attribute of whole numbers from low to high.
pub fn range<'a>(name: &'a [u8], low: i64, high: i64) -> AttributeLiteral<'a>
    ensures { attribute_of result
        ≡ record { name = name_of name.now; domain = Range low high } }
{
    AttributeLiteral {
        name,
        values: Values::Between(low, high),
    }
}

/// An attribute of words.
pub fn words<'a>(name: &'a [u8], words: &'a [&'a [u8]]) -> AttributeLiteral<'a>
    ensures { attribute_of result
        ≡ record { name = name_of name.now; domain = Words (map (λ w. name_of w.now) words.now) } }
{
    AttributeLiteral {
        name,
        values: Values::OneOf(words),
    }
}

/// A port without inverse to instances under the target.
pub fn port<'a>(name: &'a [u8], kind: PortKind, target: u32, low: u32, high: u32) -> PortLiteral<'a>
    ensures { port_of result ≡ record {
      name = name_of name.now;
      kind = kind;
      target = target;
      low = low;
      high = high;
      inverse = None;
    } }
{
    PortLiteral {
        name,
        kind,
        target,
        low,
        high,
        inverse: None,
    }
}

/// The port with an inverse of this name.
pub fn with_inverse<'a>(port: PortLiteral<'a>, inverse: &'a [u8]) -> PortLiteral<'a>
    ensures { port_of result
        ≡ record (port_of port.entry) { inverse = Some (name_of inverse.now) } }
{
    PortLiteral {
        inverse: Some(inverse),
        ..port
    }
}

/// A type with attributes and ports.
pub fn type_literal<'a>(
    name: &'a [u8],
    parent: Option<u32>,
    attributes: &'a [AttributeLiteral<'a>],
    ports: &'a [PortLiteral<'a>],
) -> TypeLiteral<'a>
    ensures { type_of result ≡ record {
      name = name_of name.now;
      parent = parent;
      attributes = map attribute_of attributes.now;
      ports = map port_of ports.now;
    } }
{
    TypeLiteral {
        name,
        parent,
        attributes,
        ports,
    }
}
