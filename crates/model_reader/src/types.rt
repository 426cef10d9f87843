//! The faults of the types of a model file together.
ghost use Rattle.std.specs.Prelude.{◌≡◌, ◌∷◌, ◌++◌, [], IfOk, IfErr};
ghost use Rattle.serde_json.specs.View.{view};
ghost use Rattle.prod_model.specs.Taxonomy.{declared_tables_of};
ghost use Rattle.prod_model.specs.Valid.{IsTaxonomy};
ghost use Rattle.file_values.specs.declared.part.Part.TheVariants.{At as at};
ghost use Rattle.file_values.specs.Places.{under};
ghost use Rattle.file_meaning.specs.ModelOf.{declared_in};
ghost use Rattle.file_meaning.specs.Faults.{HasModelFault, fault, type_place, declared_under};
ghost use Rattle.file_meaning.specs.declared.refusal.Refusal.TheVariants.{Fault as refused_by, Memory};
ghost use Rattle.file_meaning.specs.Laws.{IsFaultlessTo};
ghost use Rattle.model_reader.specs.Passes.{IsRefusalBy};
ghost use Rattle.model_reader.specs.steps.TypePasses.{IsRefusalOfTypes};

use file_meaning::Refusal;
use file_meaning::laws::faultless_is_formed;
use file_values::{Fault, FaultCode, Key, Part};
use prod_model::{Items, Model, Tables};
use serde_json::Value;
use std::alloc::{AllocError, Global};
use type_taxonomy::{TaxFault, build, has_no_fault};

/// The place of a type.
fn type_place(alloc: Global, kind: u32) -> Result<Items<Part>, AllocError>
    ensures { IfOk result (λ place. place ≡ type_place kind) }
{
    Items::from_slice(alloc, &[Part::Key(Key::Types.number()), Part::At(kind)])
}

/// The key of the list in which a declaration stands.
fn declared_under(port: bool) -> Key
    ensures { result ≡ declared_under port }
{
    if port { Key::Ports } else { Key::Attributes }
}

/// The place of a declaration.
fn declaration_place(
    alloc: Global,
    kind: u32,
    port: bool,
    place: u32,
) -> Result<Items<Part>, AllocError>
    ensures { IfOk result
        (λ whole. whole ≡ type_place kind ++ under (declared_under port) ∷ at place ∷ []) }
{
    let list = Part::Key(declared_under(port).number());
    Items::from_slice(
        alloc,
        &[
            Part::Key(Key::Types.number()),
            Part::At(kind),
            list,
            Part::At(place),
        ],
    )
}

/// The refusal by this code at a place.
pub(crate) fn refusal_at(code: FaultCode, place: Result<Items<Part>, AllocError>) -> Refusal
    ensures fault { IfOk place (λ p. result ≡ refused_by (fault code p)) }
    ensures memory { IfErr place (λ e. result ≡ Memory e) }
{
    match place {
        Ok(place) => Refusal::Fault(Fault { code, place }),
        Err(e) => Refusal::Memory(e),
    }
}

/// The refusal of a file for a fault of its types. An unknown parent is told before, so that it
/// doesn't come here.
fn refusal_of(alloc: Global, fault: TaxFault) -> Refusal
    ensures { IsRefusalOfTypes fault result }
{
    match fault {
        TaxFault::Cycle { kind } => refusal_at(FaultCode::Cycle, type_place(alloc, kind)),
        TaxFault::Crowded { kind } => refusal_at(FaultCode::Crowded, type_place(alloc, kind)),
        TaxFault::Widening { kind, port, place } => {
            refusal_at(
                FaultCode::Widening,
                declaration_place(alloc, kind, port, place),
            )
        }
        TaxFault::UnknownParent { .. } | TaxFault::Memory => Refusal::Memory(AllocError),
    }
}

/// Where a value without faults up to F08 declares a taxonomy, it has none up to F11.
fn taxonomy_is_faultless(value: &Value, model: &Model)
    requires faultless { IsFaultlessTo 8 (view value.now) }
    requires declared { model.now ≡ declared_in (view value.now) }
    requires taxonomy { IsTaxonomy model.now }
    ensures { IsFaultlessTo 11 (view value.now) }
{
    has_no_fault();
}

/// The tables of the types that a value declares, without inverses. It refuses the value by its
/// first fault where that is of a code from 9 to 11.
#[tactic(auto, using(crate::proofs::TypePasses::types_refused))]
pub fn declared_tables(alloc: Global, value: &Value, model: &Model) -> Result<Tables, Refusal>
    requires faultless { IsFaultlessTo 8 (view value.now) }
    requires declared { model.now ≡ declared_in (view value.now) }
    ensures tables { IfOk result (λ tables. tables ≡ declared_tables_of model.now) }
    ensures faultless { IfOk result (λ _. IsFaultlessTo 11 (view value.now)) }
    ensures fault { IfErr result (IsRefusalBy (HasModelFault (view value.now))) }
{
    faultless_is_formed();
    match build(alloc, model) {
        Ok(tables) => {
            taxonomy_is_faultless(value, model);
            Ok(tables)
        }
        Err(fault) => Err(refusal_of(alloc, fault)),
    }
}
