//! The model that a value declares, without its rules.
ghost use Rattle.std.specs.Prelude.{◌≡◌, map, IfOk};
ghost use Rattle.std.specs.Option.{option_map};
ghost use Rattle.std.specs.List.{position, position_or_len};
ghost use Rattle.prod_model.specs.Names.{same_text};
ghost use Rattle.serde_json.specs.View.{view};
ghost use Rattle.serde_json.specs.Find.{get};
ghost use Rattle.file_values.specs.declared.kind.Key.TheVariants.{Parent, Inverse};
ghost use Rattle.file_values.specs.Places.{text_of};
ghost use Rattle.file_values.specs.Read.{member_of};
ghost use Rattle.file_meaning.specs.ModelOf.{name_in, word_in, number_named, domain_of, attribute_in, kind_of, port_in, type_in, bound_in, declared_in};
ghost use Rattle.file_meaning.specs.steps.Names.{is_named, names_in};

use crate::reading::{count_of, end_at, name_at, name_in, number_at, text_at, word_in};
use file_values::{Key, items_at, text_in};
use prod_model::{AttrDecl, CountBound, Domain, Items, Model, Name, PortDecl, PortKind, TypeDecl};
use serde_json::Value;
use std::alloc::{AllocError, Global};

/// The model without its rules that the members of a value declare. What isn't of its form is read
/// as something that no valid model has. The name of a type is looked for among those of the types,
/// 128 at most where the value has no fault: so it takes time linear in the value, times the types.
///
/// # Errors
///
/// `AllocError` where memory runs out, or a type's number doesn't fit 32 bits.
#[tactic(auto, unfolding(crate::specs::ModelOf::declared_in))]
pub fn declared_in(alloc: Global, value: &Value) -> Result<Model, AllocError>
    ensures { IfOk result (λ m. m ≡ declared_in (view value.now)) }
{
    let types = items_at(value, Key::Types);
    Ok(Model {
        root: number_at_key(types, value, Key::Root)?,
        instances: count_of(number_at(value, Key::Instances)),
        types: types_in(alloc, types, types)?,
        bounds: bounds_in(alloc, types, items_at(value, Key::Bounds))?,
        rules: Items::new(alloc),
    })
}

/// The place of the first of the types that has the name.
fn first_named(types: &[Value], name: &str) -> Option<usize>
    ensures { result ≡ position (is_named name.now) types.now }
{
    types.iter().position(|t| text_at(t, Key::Name) == name)
}

/// The place of the first of the types that has the name, and their count where none has.
fn place_named(types: &[Value], name: &str) -> usize
    ensures { result ≡ position_or_len (λ n. same_text n name.now) (names_in types.now) }
{
    match first_named(types, name) {
        Some(place) => place,
        None => types.len(),
    }
}

/// The number of the type that the value names.
fn number_named(types: &[Value], value: &Value) -> Result<u32, AllocError>
    ensures { IfOk result (λ n. n ≡ number_named (names_in types.now) (view value.now)) }
{
    let place = place_named(types, text_in(value));
    if place > u32::MAX as usize {
        return Err(AllocError);
    }
    Ok(place as u32)
}

/// The number of the type that a member names.
fn number_at_key(types: &[Value], value: &Value, key: Key) -> Result<u32, AllocError>
    ensures { IfOk result
        (λ n. n ≡ number_named (names_in types.now) (member_of key (view value.now))) }
{
    let place = place_named(types, text_at(value, key));
    if place > u32::MAX as usize {
        return Err(AllocError);
    }
    Ok(place as u32)
}

fn words_in(alloc: Global, list: &[Value]) -> Result<Items<Name>, AllocError>
    ensures { IfOk result (λ words. words ≡ map word_in (map view list.now)) }
{
    let mut words = Items::new(alloc);
    for value in list {
        words.push(word_in(alloc, value)?)?;
    }
    Ok(words)
}

/// `range`, else `words`.
fn domain_of(alloc: Global, value: &Value) -> Result<Domain, AllocError>
    ensures { IfOk result (λ d. d ≡ domain_of (view value.now)) }
{
    if value.get(Key::Range.text()).is_some() {
        return Ok(Domain::Range {
            low: end_at(value, Key::Range, 0),
            high: end_at(value, Key::Range, 1),
        });
    }
    Ok(Domain::Words(words_in(alloc, items_at(value, Key::Words))?))
}

fn attribute_in(alloc: Global, value: &Value) -> Result<AttrDecl, AllocError>
    ensures { IfOk result (λ a. a ≡ attribute_in (view value.now)) }
{
    Ok(AttrDecl {
        name: name_at(alloc, value, Key::Name)?,
        domain: domain_of(alloc, value)?,
    })
}

fn attributes_in(alloc: Global, list: &[Value]) -> Result<Items<AttrDecl>, AllocError>
    ensures { IfOk result (λ attributes. attributes ≡ map attribute_in (map view list.now)) }
{
    let mut attributes = Items::new(alloc);
    for value in list {
        attributes.push(attribute_in(alloc, value)?)?;
    }
    Ok(attributes)
}

/// `part`, else `use`.
fn kind_of(text: &str) -> PortKind
    ensures { result ≡ kind_of text.now }
{
    if text == "part" {
        PortKind::Part
    } else {
        PortKind::Shared
    }
}

fn inverse_in(alloc: Global, value: &Value) -> Result<Option<Name>, AllocError>
    ensures { IfOk result
        (λ i. i ≡ option_map name_in (get (text_of Inverse) (view value.now))) }
{
    match value.get(Key::Inverse.text()) {
        None => Ok(None),
        Some(name) => Ok(Some(name_in(alloc, name)?)),
    }
}

fn port_in(alloc: Global, types: &[Value], value: &Value) -> Result<PortDecl, AllocError>
    ensures { IfOk result (λ p. p ≡ port_in (names_in types.now) (view value.now)) }
{
    Ok(PortDecl {
        name: name_at(alloc, value, Key::Name)?,
        kind: kind_of(text_at(value, Key::Kind)),
        target: number_at_key(types, value, Key::Target)?,
        low: count_of(end_at(value, Key::Links, 0)),
        high: count_of(end_at(value, Key::Links, 1)),
        inverse: inverse_in(alloc, value)?,
    })
}

fn ports_in(alloc: Global, types: &[Value], list: &[Value]) -> Result<Items<PortDecl>, AllocError>
    ensures { IfOk result
        (λ ports. ports ≡ map (port_in (names_in types.now)) (map view list.now)) }
{
    let mut ports = Items::new(alloc);
    for value in list {
        ports.push(port_in(alloc, types, value)?)?;
    }
    Ok(ports)
}

fn parent_in(types: &[Value], value: &Value) -> Result<Option<u32>, AllocError>
    ensures { IfOk result (λ p. p
        ≡ option_map (number_named (names_in types.now)) (get (text_of Parent) (view value.now))) }
{
    match value.get(Key::Parent.text()) {
        None => Ok(None),
        Some(name) => Ok(Some(number_named(types, name)?)),
    }
}

fn type_in(alloc: Global, types: &[Value], value: &Value) -> Result<TypeDecl, AllocError>
    ensures { IfOk result (λ t. t ≡ type_in (names_in types.now) (view value.now)) }
{
    Ok(TypeDecl {
        name: name_at(alloc, value, Key::Name)?,
        parent: parent_in(types, value)?,
        attributes: attributes_in(alloc, items_at(value, Key::Attributes))?,
        ports: ports_in(alloc, types, items_at(value, Key::Ports))?,
    })
}

fn types_in(alloc: Global, types: &[Value], list: &[Value]) -> Result<Items<TypeDecl>, AllocError>
    ensures { IfOk result
        (λ kinds. kinds ≡ map (type_in (names_in types.now)) (map view list.now)) }
{
    let mut kinds = Items::new(alloc);
    for value in list {
        kinds.push(type_in(alloc, types, value)?)?;
    }
    Ok(kinds)
}

fn bound_in(types: &[Value], value: &Value) -> Result<CountBound, AllocError>
    ensures { IfOk result (λ b. b ≡ bound_in (names_in types.now) (view value.now)) }
{
    Ok(CountBound {
        kind: number_at_key(types, value, Key::OfType)?,
        low: count_of(end_at(value, Key::Count, 0)),
        high: count_of(end_at(value, Key::Count, 1)),
    })
}

fn bounds_in(
    alloc: Global,
    types: &[Value],
    list: &[Value],
) -> Result<Items<CountBound>, AllocError>
    ensures { IfOk result
        (λ bounds. bounds ≡ map (bound_in (names_in types.now)) (map view list.now)) }
{
    let mut bounds = Items::new(alloc);
    for value in list {
        bounds.push(bound_in(types, value)?)?;
    }
    Ok(bounds)
}
