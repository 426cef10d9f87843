//! Reads the text of an answer.
ghost use Rattle.std.specs.Prelude.{◌≡◌, ◌==◌, map, IfOk, IfErr};
ghost use Rattle.prod_model.specs.Limits.{most_instances};
ghost use Rattle.prod_model.specs.Valid.{IsValid};
ghost use Rattle.canonical_form.specs.BadLine.{IsAnswerOf, IsRefusal};
ghost use Rattle.canonical_form.specs.steps.FirstRows.{AreFirsts};
ghost use Rattle.canonical_form.specs.steps.Grammar.{at_number};
ghost use Rattle.canonical_form.specs.steps.Reading.{AreInstances, Refuses};

mod line;
mod links;
mod tokens;
mod type_names;
mod values;

use crate::fault::{AnswerRefusal, PartCode};
use crate::names::KnownTypes;
use config_value::{Configuration, Instance};
use line::read_instance;
use prod_model::limits::MOST_INSTANCES;
use prod_model::{Items, Problem};
use std::alloc::Global;
use tokens::{behind_byte, behind_text};
use type_names::TypeNames;

/// The instances of all lines, up to the end of the bytes. There is one at least, and there are no
/// more than the limit.
fn read_instances(
    alloc: Global,
    known: &KnownTypes,
    names: &TypeNames<'_>,
    bytes: &[u8],
) -> Result<Items<Instance>, AnswerRefusal>
    requires valid { IsValid known.now.problem.now }
    requires firsts { AreFirsts known.now.problem.now known.now.rows.items }
    requires named { names.now ≡ map (λ d. d.name) known.now.problem.now.types }
    ensures read { IfOk result (AreInstances known.now.problem.now bytes.now) }
    ensures refused { IfErr result (Refuses known.now.problem.now (at_number 0) bytes.now) }
{
    let mut instances = Items::new(alloc);
    let mut number = 0;
    let mut rest = bytes;
    while number == 0 || !rest.is_empty() {
        if is_full(number) {
            return Err(AnswerRefusal::at(number + 2, PartCode::Number));
        }
        let (instance, after) = read_instance(alloc, known, names, number, rest)?;
        instances.push(instance)?;
        rest = after;
        number += 1;
    }
    Ok(instances)
}

/// Whether an answer has so many instances that it has no more.
fn is_full(number: u32) -> bool
    ensures { result ≡ (number == most_instances) }
{
    number as usize == MOST_INSTANCES
}

/// Reads an answer text: the line `preferred`, and then the line of each instance. It goes once
/// over the bytes and over the declarations along the line of each type, and looks types up by
/// their names.
///
/// The text is refused at the first line where it leaves the spelling of a configuration, with the
/// code of the part at fault. At line 258 that is `Number`, since there are at most 256 instances.
/// `Memory` where memory runs out.
pub fn read_answer(
    alloc: Global,
    problem: &Problem,
    bytes: &[u8],
) -> Result<Configuration, AnswerRefusal>
    ensures answer { IfOk result (IsAnswerOf problem.now bytes.now) }
    ensures fault { IfErr result (IsRefusal problem.now bytes.now) }
{
    let model = problem.model();
    let names = TypeNames::of(alloc, &model.types)?;
    let Some(headed) = behind_text(b"preferred", bytes) else {
        return Err(AnswerRefusal::at(1, PartCode::Header));
    };
    let Some(rest) = behind_byte(b'\n', headed) else {
        return Err(AnswerRefusal::at(1, PartCode::LineEnd));
    };
    let known = KnownTypes::of(alloc, problem)?;
    let instances = read_instances(alloc, &known, &names, rest)?;
    Ok(Configuration::from_list(instances))
}

#[cfg(test)]
mod tests;
