//! What the names and words of an expression stand for.
//!
//! The names of types, attributes and ports are found by an index, in the time of hashing the name.
//! A word is looked for among those of its attribute, of which there are at most 64.
ghost use Rattle.std.specs.Prelude.{◌≡◌, ◌<◌, map, unwrap_or, slice_get, [], IfOk};
ghost use Rattle.std.specs.List.{position, position_or_len};
ghost use Rattle.std.specs.Option.{option_copied, option_map};
ghost use Rattle.prod_model.specs.Names.{same_text};
ghost use Rattle.prod_model.specs.Taxonomy.{without_inverse};
ghost use Rattle.prod_model.specs.Valid.{IsDeclared};
ghost use Rattle.file_meaning.specs.Expressions.{type_named, no_id, attribute_named, port_named, attribute_id, port_id, target_of, word_value};
ghost use Rattle.file_meaning.specs.Named.{AreNamedTablesOf};

use crate::named_tables::{NamedTables, number_of};
use file_values::Names;
use prod_model::{AttrAt, Items, Model, Name, PortAt, PortRows};
use sqlite_items::at;
use std::alloc::AllocError;

/// The id that no attribute or port has.
const NO_ID: u32 = u32::MAX;

/// The number of the first type of the name, and the count of the types where none has it.
/// `AllocError` where it doesn't fit 32 bits.
pub(crate) fn type_named(
    model: &Model,
    named: &NamedTables<'_>,
    name: &str,
) -> Result<u32, AllocError>
    requires named { AreNamedTablesOf model.now named.now }
    ensures { IfOk result (λ t. t ≡ type_named model.now name.now) }
{
    match named.types.place_of(name.as_bytes()) {
        Some(place) => number_of(place),
        None => number_of(model.types.len()),
    }
}

/// The place of a name among those of a type.
fn place_in(rows: &Items<Names<'_>>, t: u32, name: &str) -> Option<usize>
    ensures { result ≡ position (λ n. same_text n name.now) (unwrap_or (slice_get rows.now t) []) }
{
    match rows.get(t as usize) {
        Some(names) => names.place_of(name.as_bytes()),
        None => None,
    }
}

/// The attributes of a type, and none where it is no type.
fn attributes_at(rows: &Items<Items<AttrAt>>, t: u32) -> &[AttrAt]
    ensures { result.now ≡ unwrap_or (slice_get rows.now t) [] }
{
    match rows.get(t as usize) {
        Some(row) => row.as_slice(),
        None => &[],
    }
}

/// The ports of a type, and none where it is no type.
fn ports_at(rows: &PortRows, t: u32) -> &[PortAt]
    ensures { result.now ≡ unwrap_or (slice_get rows.now t) [] }
{
    match rows.get(t as usize) {
        Some(row) => row.as_slice(),
        None => &[],
    }
}

/// The attribute of the name at a type, if the type is known and has one.
fn attribute_named<'m>(
    model: &Model,
    named: &NamedTables<'m>,
    t: Option<u32>,
    name: &str,
) -> Option<&'m AttrAt>
    requires named { AreNamedTablesOf model.now named.now }
    ensures { option_copied result ≡ attribute_named model.now t name.now }
{
    let t = t?;
    let place = place_in(&named.attributes, t, name)?;
    at(attributes_at(&named.tables.attributes, t), place)
}

/// The port of the name at a type, if the type is known and has one.
fn port_named<'m>(
    model: &Model,
    named: &NamedTables<'m>,
    t: Option<u32>,
    name: &str,
) -> Option<&'m PortAt>
    requires named { AreNamedTablesOf model.now named.now }
    ensures { option_map without_inverse (option_copied result) ≡ port_named model.now t name.now }
{
    let t = t?;
    let place = place_in(&named.ports, t, name)?;
    at(ports_at(&named.tables.ports, t), place)
}

/// The id of the attribute of the name at a type, and an id that none has where there is none.
pub(crate) fn attribute_id(
    model: &Model,
    named: &NamedTables<'_>,
    t: Option<u32>,
    name: &str,
) -> u32
    requires named { AreNamedTablesOf model.now named.now }
    ensures { result ≡ attribute_id model.now t name.now }
{
    match attribute_named(model, named, t, name) {
        Some(attribute) => attribute.id,
        None => NO_ID,
    }
}

/// The id of the port of the name at a type, and an id that none has where there is none.
pub(crate) fn port_id(model: &Model, named: &NamedTables<'_>, t: Option<u32>, name: &str) -> u32
    requires named { AreNamedTablesOf model.now named.now }
    ensures { result ≡ port_id model.now t name.now }
{
    match port_named(model, named, t, name) {
        Some(port) => port.id,
        None => NO_ID,
    }
}

/// The type of the port's target, if there is such a port.
pub(crate) fn target_of(
    model: &Model,
    named: &NamedTables<'_>,
    t: Option<u32>,
    name: &str,
) -> Option<u32>
    requires named { AreNamedTablesOf model.now named.now }
    ensures { result ≡ target_of model.now t name.now }
{
    match port_named(model, named, t, name) {
        Some(port) => Some(port.target),
        None => None,
    }
}

fn word_place(words: &[Name], word: &str) -> Option<usize>
    ensures { result ≡ position (λ w. same_text w word.now) words.now }
{
    words.iter().position(|w| w.bytes() == word.as_bytes())
}

/// The place of the first such word, and the count of the words where there is none. `AllocError`
/// where it doesn't fit 32 bits.
fn word_number(words: &[Name], word: &str) -> Result<u32, AllocError>
    ensures { IfOk result (λ n. n ≡ position_or_len (λ w. same_text w word.now) words.now) }
{
    match word_place(words, word) {
        Some(place) => number_of(place),
        None => number_of(words.len()),
    }
}

/// The value of a word of the attribute of the name at a type. One past the last stands for a word
/// that it doesn't have.
pub(crate) fn word_value(
    model: &Model,
    named: &NamedTables<'_>,
    t: Option<u32>,
    name: &str,
    word: &str,
) -> Result<u32, AllocError>
    requires declared { IsDeclared model.now }
    requires named { AreNamedTablesOf model.now named.now }
    ensures { IfOk result (λ n. n ≡ word_value model.now t name.now word.now) }
{
    let Some(u) = t else { return Ok(0) };
    match attribute_named(model, named, t, name) {
        Some(attribute) => word_number(named.tables.first_words(model, u, attribute.id), word),
        None => Ok(0),
    }
}
