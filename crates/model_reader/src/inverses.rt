//! The inverses of the ports of a model file.
ghost use Rattle.std.specs.Prelude.{◌≡◌, ◌∷◌, ◌++◌, [], IsTrue, OnOk, IfOk, IfErr};
ghost use Rattle.serde_json.specs.View.{view};
ghost use Rattle.prod_model.specs.Taxonomy.{declared_tables_of, tables_of};
ghost use Rattle.prod_model.specs.Valid.{has_right_inverses};
ghost use Rattle.file_values.specs.declared.fault.Fault.{Fault as AFault};
ghost use Rattle.file_values.specs.declared.part.Part.TheVariants.{At as at};
ghost use Rattle.file_values.specs.declared.kind.Key.TheVariants.{Ports, Inverse};
ghost use Rattle.file_values.specs.Places.{under};
ghost use Rattle.file_meaning.specs.ModelOf.{declared_in};
ghost use Rattle.file_meaning.specs.Faults.{HasModelFault, type_place};
ghost use Rattle.file_meaning.specs.Laws.{IsFaultlessTo};
ghost use Rattle.model_reader.specs.Passes.{IsRefusalBy};
ghost use Rattle.model_reader.specs.steps.InversePass.{IsRefusalOfInverse};

use crate::types::refusal_at;
use file_meaning::Refusal;
use file_meaning::laws::faultless_is_declared;
use file_values::{FaultCode, Key, Part};
use prod_model::{Items, Model, Tables};
use serde_json::Value;
use std::alloc::{AllocError, Global};
use type_taxonomy::{InverseFault, has_no_inverse_fault, inverses};

/// The place of the inverse that a port names.
fn inverse_place(alloc: Global, kind: u32, place: u32) -> Result<Items<Part>, AllocError>
    ensures { IfOk result (λ whole. whole
        ≡ type_place kind ++ under Ports ∷ at place ∷ under Inverse ∷ []) }
{
    let types = Part::Key(Key::Types.number());
    let ports = Part::Key(Key::Ports.number());
    let inverse = Part::Key(Key::Inverse.number());
    Items::from_slice(
        alloc,
        &[types, Part::At(kind), ports, Part::At(place), inverse],
    )
}

/// The refusal of a file for an inverse that isn't right.
fn refusal_of(alloc: Global, fault: InverseFault) -> Refusal
    ensures { IsRefusalOfInverse fault result }
{
    match fault {
        InverseFault::Bad { kind, place } => {
            refusal_at(FaultCode::WrongInverse, inverse_place(alloc, kind, place))
        }
    }
}

/// Writes the inverses of ports into the tables of a value that has no fault up to F16. It refuses
/// the value by its first fault, F17 at the first inverse that isn't right.
pub fn link_inverses(
    alloc: Global,
    value: &Value,
    model: &Model,
    tables: &mut Tables,
) -> Result<(), Refusal>
    requires faultless { IsFaultlessTo 16 (view value.now) }
    requires declared { model.now ≡ declared_in (view value.now) }
    requires tables { tables.old ≡ declared_tables_of model.now }
    ensures tables { OnOk result (tables.new ≡ tables_of model.now) }
    ensures faultless { IfOk result (λ _. (f : AFault) → HasModelFault (view value.now) f → ⊥) }
    ensures fault { IfErr result (IsRefusalBy (HasModelFault (view value.now))) }
{
    faultless_is_declared();
    has_no_inverse_fault();
    match inverses(model, tables) {
        Ok(()) => Ok(()),
        Err(fault) => Err(refusal_of(alloc, fault)),
    }
}
