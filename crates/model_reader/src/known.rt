//! The names of types in a model file.
ghost use Rattle.std.specs.Prelude.{map, IfOk, IfErr};
ghost use Rattle.serde_json.specs.View.{view};
ghost use Rattle.file_values.specs.declared.kind.Key.TheVariants.{Name};
ghost use Rattle.file_values.specs.Read.{text_at};
ghost use Rattle.file_meaning.specs.Faults.{HasModelFault};
ghost use Rattle.file_meaning.specs.ModelOf.{type_names};
ghost use Rattle.file_meaning.specs.Laws.{IsFaultlessTo};
ghost use Rattle.model_reader.specs.Passes.{IsRefusalBy};
ghost use Rattle.model_reader.specs.steps.KnownPass.{HasNamesOf};

use crate::declared::{format_of, text_at};
use crate::plain::check_test;
use file_meaning::Refusal;
use file_values::{FaultCode, Key, Kind, Names, Test, items_at};
use serde_json::Value;
use std::alloc::{AllocError, Global};

/// The names of the types, each once.
fn type_names<'v>(alloc: Global, types: &'v [Value]) -> Result<Names<'v>, AllocError>
    ensures { IfOk result (HasNamesOf (map (text_at Name) (map view types.now))) }
{
    let mut names = Names::new(alloc);
    for value in types {
        names.insert(text_at(value, Key::Name).as_bytes())?;
    }
    Ok(names)
}

/// Refuses the value of a model file by the first of the names that no type has. The names given
/// are those of the types.
#[tactic(auto, using(crate::proofs::KnownPass::known_refused))]
fn check_names(alloc: Global, names: &Names<'_>, value: &Value) -> Result<(), Refusal>
    requires faultless { IsFaultlessTo 7 (view value.now) }
    requires names { HasNamesOf (type_names (view value.now)) names.now }
    ensures faultless { IfOk result (λ _. IsFaultlessTo 8 (view value.now)) }
    ensures fault { IfErr result (IsRefusalBy (HasModelFault (view value.now))) }
{
    let test = Test::Known(names);
    check_test(
        alloc,
        &test,
        FaultCode::UnknownType,
        format_of(value),
        Kind::Model,
        value,
    )?;
    Ok(())
}

/// Refuses the value of a model file by the first of the names that no type has. It takes time
/// linear in the value.
pub fn check_known(alloc: Global, value: &Value) -> Result<(), Refusal>
    requires faultless { IsFaultlessTo 7 (view value.now) }
    ensures faultless { IfOk result (λ _. IsFaultlessTo 8 (view value.now)) }
    ensures fault { IfErr result (IsRefusalBy (HasModelFault (view value.now))) }
{
    let names = type_names(alloc, items_at(value, Key::Types)).map_err(Refusal::Memory)?;
    check_names(alloc, &names, value)
}
