//! The faults of the values of a model by themselves.
ghost use Rattle.std.specs.Prelude.{◌≡◌, IfOk, IfErr};
ghost use Rattle.serde_json.specs.Data.{null};
ghost use Rattle.serde_json.specs.View.{view};
ghost use Rattle.file_values.specs.Read.{member_of, text_at};
ghost use Rattle.file_meaning.specs.Faults.{HasModelFault, format_of};
ghost use Rattle.file_meaning.specs.Laws.{IsFaultlessTo};
ghost use Rattle.model_reader.specs.Passes.{IsRefusalBy};

use crate::plain::check_plain;
use file_meaning::Refusal;
use file_values::{Format, Key, Kind, text_in};
use serde_json::Value;
use std::alloc::Global;

/// The value `null`.
pub fn null() -> Value
    ensures { view result ≡ null }
{
    Value::Null
}

/// The value of a member, and another one, which is `null`, where it lacks.
pub fn member_of<'v>(value: &'v Value, key: Key, absent: &'v Value) -> &'v Value
    requires { view absent.now ≡ null }
    ensures { view result.now ≡ member_of key (view value.now) }
{
    match value.get(key.text()) {
        None => absent,
        Some(member) => member,
    }
}

/// The text of a member, and the empty text where it is none or lacks.
pub(crate) fn text_at<'v>(value: &'v Value, key: Key) -> &'v str
    ensures { result.now ≡ text_at key (view value.now) }
{
    match value.get(key.text()) {
        None => "",
        Some(member) => text_in(member),
    }
}

/// The format that a model file tells: the second one, or any other text counts as the first.
pub(crate) fn format_of(value: &Value) -> Format
    ensures { result ≡ format_of (view value.now) }
{
    if text_at(value, Key::Format) == "product-model 2" {
        Format::Second
    } else {
        Format::First
    }
}

/// Refuses the value of a model file by its first fault of a code up to 7.
#[tactic(auto, using(crate::proofs::PlainOfFiles::model_refused))]
pub fn check_values(alloc: Global, value: &Value) -> Result<(), Refusal>
    ensures faultless { IfOk result (λ _. IsFaultlessTo 7 (view value.now)) }
    ensures fault { IfErr result (IsRefusalBy (HasModelFault (view value.now))) }
{
    check_plain(alloc, format_of(value), Kind::Model, value)?;
    Ok(())
}
