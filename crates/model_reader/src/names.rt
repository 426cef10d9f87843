//! The names in an entry of a list.
ghost use Rattle.std.specs.Prelude.{◌≡◌, IfOk, codes, if◌then◌else◌};
ghost use Rattle.std.specs.List.{position, position_or_len};
ghost use Rattle.serde_json.specs.View.{view};
ghost use Rattle.prod_model.specs.Names.{is_name as is_name_text, same_text};
ghost use Rattle.file_values.specs.declared.kind.Key.TheVariants.{Name as Called};
ghost use Rattle.file_values.specs.Read.{member_of};
ghost use Rattle.file_meaning.specs.ModelOf.{name_at, number_named};
ghost use Rattle.file_meaning.specs.steps.Names.{is_named, names_in};

use crate::declared::text_at;
use file_values::{Key, is_name};
use prod_model::Name;
use serde_json::Value;
use std::alloc::{AllocError, Global};

/// The name that the text is; `-` where it is none.
#[tactic(auto, using(file_meaning::proofs::NameForms::name_some, file_meaning::proofs::NameForms::name_short))]
fn name_of(alloc: Global, text: &str) -> Result<Name, AllocError>
    ensures { IfOk result (λ n. n ≡ (if is_name_text text.now then text.now else codes "-")) }
{
    if is_name(text.as_bytes()) {
        Name::from_bytes(alloc, text.as_bytes())
    } else {
        Name::from_bytes(alloc, b"-")
    }
}

/// The name of an entry; `-` where it has none.
pub fn name_in(alloc: Global, value: &Value) -> Result<Name, AllocError>
    ensures { IfOk result (λ n. n ≡ name_at Called (view value.now)) }
{
    name_of(alloc, text_at(value, Key::Name))
}

/// The place of the first of the types that has the name.
fn first_named(types: &[Value], name: &str) -> Option<usize>
    ensures { result ≡ position (is_named name.now) types.now }
{
    types.iter().position(|t| text_at(t, Key::Name) == name)
}

/// The place of the first of the types that has the name, and their count where none has.
fn place_named(types: &[Value], name: &str) -> usize
    ensures { result ≡ position_or_len (λ n. same_text n name.now) (names_in types.now) }
{
    match first_named(types, name) {
        Some(place) => place,
        None => types.len(),
    }
}

/// The number of the type that a member names. `AllocError` where it doesn't fit 32 bits.
pub(crate) fn number_named(types: &[Value], value: &Value, key: Key) -> Result<u32, AllocError>
    ensures { IfOk result
        (λ n. n ≡ number_named (names_in types.now) (member_of key (view value.now))) }
{
    let place = place_named(types, text_at(value, key));
    if place > u32::MAX as usize {
        return Err(AllocError);
    }
    Ok(place as u32)
}
