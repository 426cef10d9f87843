//! The first fault of expressions that are stated in a list.
ghost use Rattle.std.specs.Prelude.{◌≡◌, ◌<◌, ◌∷◌, ◌++◌, [], length, Some, None, IfOk, IfErr};
ghost use Rattle.serde_json.specs.View.{view};
ghost use Rattle.prod_model.specs.Valid.{IsDeclared};
ghost use Rattle.file_values.specs.declared.part.Part.TheVariants.{At as at_place};
ghost use Rattle.file_values.specs.Places.{under};
ghost use Rattle.file_meaning.specs.Expressions.{expression_of};
ghost use Rattle.file_meaning.specs.Faults.{fault, HasStatedFault};
ghost use Rattle.file_meaning.specs.Named.{AreNamedTablesOf};
ghost use Rattle.model_reader.specs.Stated.{earlier_fault, FindsFault, IsRefusalOfStated};

use file_meaning::{NamedTables, Refusal, read_named};
use file_values::{Fault, Key, Part};
use prod_model::{Expr, Items, Model};
use serde_json::Value;
use std::alloc::{AllocError, Global};

/// The fault of an expression as one of the file in which the expression stands at a place.
pub fn placed(mut front: Items<Part>, own: Fault) -> Result<Fault, AllocError>
    ensures { IfOk result (λ f. f ≡ fault own.code (front ++ own.place)) }
{
    front.append(own.place)?;
    Ok(Fault {
        code: own.code,
        place: front,
    })
}

/// The earlier of the first fault so far, if there is one, and of another.
pub fn earlier_fault(first: Option<Fault>, other: Fault) -> Fault
    ensures { Some result ≡ earlier_fault first (Some other) }
{
    match first {
        None => other,
        Some(first) => {
            if other.is_before(&first) {
                other
            } else {
                first
            }
        }
    }
}

/// The place of a member of an entry of a list. `AllocError` where memory runs out, or the entry's
/// place doesn't fit 32 bits.
pub fn place_in(alloc: Global, list: Key, index: usize, key: Key) -> Result<Items<Part>, AllocError>
    ensures { IfOk result (λ place. place ≡ under list ∷ at_place index ∷ under key ∷ []) }
{
    if index > u32::MAX as usize {
        return Err(AllocError);
    }
    let first = Part::Key(list.number());
    let last = Part::Key(key.number());
    Items::from_slice(alloc, &[first, Part::At(index as u32), last])
}

/// Reads an expression that stands at a place of a file, as `read_named` does.
///
/// # Errors
///
/// `Fault` with its first fault, at a place from the whole file, and `Memory` where memory runs
/// out.
#[tactic(auto, using(crate::proofs::StatedFaults::one_sound, crate::proofs::StatedFaults::one_placed))]
pub fn read_stated(
    alloc: Global,
    model: &Model,
    named: &NamedTables<'_>,
    front: Items<Part>,
    value: &Value,
    at: u32,
    truth: bool,
) -> Result<Expr, Refusal>
    requires declared { IsDeclared model.now }
    requires named { AreNamedTablesOf model.now named.now }
    requires at { at < length model.now.types }
    ensures expr { IfOk result
        (λ e. e ≡ expression_of model.now (view value.now) (Some at)) }
    ensures sound { IfOk result (λ _. FindsFault
        (HasStatedFault model.now
        (record { place = front; value = view value.now; of = at; truth = truth } ∷ [])) None) }
    ensures fault { IfErr result (IsRefusalOfStated model.now
        (record { place = front; value = view value.now; of = at; truth = truth } ∷ [])) }
{
    match read_named(alloc, model, named, value, at, truth) {
        Ok(expr) => Ok(expr),
        Err(Refusal::Memory(e)) => Err(Refusal::Memory(e)),
        Err(Refusal::Fault(own)) => match placed(front, own) {
            Ok(fault) => Err(Refusal::Fault(fault)),
            Err(e) => Err(Refusal::Memory(e)),
        },
    }
}
