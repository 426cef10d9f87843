//! Reads the line of an instance.
ghost use Rattle.std.specs.Prelude.{◌≡◌, ◌≢◌, ◌<◌, [], map, IsTrue, IfOk, IfErr, IfSome, None};
ghost use Rattle.prod_model.specs.Forest.{is_leaf};
ghost use Rattle.prod_model.specs.Limits.{most_instances};
ghost use Rattle.prod_model.specs.Valid.{IsValid};
ghost use Rattle.canonical_form.specs.AnswerParts.{behind_name};
ghost use Rattle.canonical_form.specs.steps.FirstRows.{AreFirsts};
ghost use Rattle.canonical_form.specs.steps.Grammar.{at_number};
ghost use Rattle.canonical_form.specs.steps.Reading.{Takes, TakesNone, type_text, IsInstance, Refuses};

use super::links::read_ports;
use super::tokens::{Reach, behind_byte, behind_number, split_token};
use super::type_names::TypeNames;
use super::values::read_attributes;
use crate::fault::{AnswerRefusal, PartCode};
use crate::names::KnownTypes;
use config_value::Instance;
use prod_model::Problem;
use std::alloc::Global;

/// The number of a leaf type, behind a blank, and what stands behind its name.
fn read_type<'a>(
    problem: &Problem,
    names: &TypeNames<'_>,
    bytes: &'a [u8],
) -> Option<(u32, &'a [u8])>
    requires valid { IsValid problem.now }
    requires named { names.now ≡ map (λ d. d.name) problem.now.types }
    ensures found { IfSome result (λ r. IsTrue (is_leaf problem.now r.0)
        × Takes (type_text problem.now r.0) behind_name bytes.now r.1.now) }
    ensures none { result ≡ None → TakesNone (type_text problem.now) (λ t. behind_name)
        (is_leaf problem.now) bytes.now }
{
    let named = behind_byte(b' ', bytes)?;
    let (name, rest) = split_token(Reach::Name, named);
    let kind = names.place_of(name)?;
    if !problem.is_leaf(kind) {
        return None;
    }
    Some((kind, rest))
}

/// An instance of that number, and what stands behind its line. Refused at `Number` where the line
/// does not begin with the number, at `TypeName` where no leaf type is next, at `Attribute` or
/// `Port` where one is not there, and at `LineEnd` where the line does not end there.
pub fn read_instance<'a>(
    alloc: Global,
    known: &KnownTypes,
    names: &TypeNames<'_>,
    number: u32,
    bytes: &'a [u8],
) -> Result<(Instance, &'a [u8]), AnswerRefusal>
    requires valid { IsValid known.now.problem.now }
    requires firsts { AreFirsts known.now.problem.now known.now.rows.items }
    requires named { names.now ≡ map (λ d. d.name) known.now.problem.now.types }
    requires few { number < most_instances }
    requires unended { 0 < number → bytes.now ≢ [] }
    ensures read { IfOk result
        (λ r. IsInstance known.now.problem.now number bytes.now r.0 r.1.now) }
    ensures refused { IfErr result
        (Refuses known.now.problem.now (at_number number) bytes.now) }
{
    let Some(typed) = behind_number(number, bytes) else {
        return Err(AnswerRefusal::at(number + 2, PartCode::Number));
    };
    let Some((kind, rest)) = read_type(known.problem, names, typed) else {
        return Err(AnswerRefusal::at(number + 2, PartCode::TypeName));
    };
    let (values, rest) = read_attributes(alloc, known, number, kind, rest)?;
    let (links, rest) = read_ports(alloc, known, number, kind, rest)?;
    let Some(next) = behind_byte(b'\n', rest) else {
        return Err(AnswerRefusal::at(number + 2, PartCode::LineEnd));
    };
    let instance = Instance {
        kind,
        values,
        links,
    };
    Ok((instance, next))
}
