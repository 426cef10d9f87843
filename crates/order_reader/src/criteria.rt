//! The criteria of an order file, and the first fault of their expressions.
ghost use Rattle.std.specs.Prelude.{◌≡◌, ◌<◌, ◌∷◌, [], map, length, None, IfOk, IfErr};
ghost use Rattle.std.specs.List.{enumerate_from};
ghost use Rattle.serde_json.specs.View.{view};
ghost use Rattle.prod_model.specs.Valid.{IsDeclared};
ghost use Rattle.file_values.specs.declared.kind.Key.TheVariants.{Maximise};
ghost use Rattle.file_values.specs.Read.{has};
ghost use Rattle.file_meaning.specs.Faults.{HasStatedFault};
ghost use Rattle.file_meaning.specs.ModelOf.{aim_of, criterion_in};
ghost use Rattle.file_meaning.specs.Named.{AreNamedTablesOf};
ghost use Rattle.model_reader.specs.Stated.{AreRead, FindsFault, IsRefusalOfStated};
ghost use Rattle.order_reader.specs.Wishes.{stated_criterion};

use file_meaning::{NamedTables, Refusal};
use file_values::{Fault, Key};
use model_reader::{earlier_fault, member_of, name_in, null, place_in, read_stated};
use prod_model::{Criterion, Items, Model};
use serde_json::Value;
use std::alloc::{AllocError, Global};

/// Whether the greater value is preferred.
fn is_maximised(value: &Value) -> bool
    ensures { result ≡ has Maximise (view value.now) }
{
    value.get(Key::Maximise.text()).is_some()
}

/// The key of a criterion's expression.
fn aim_of(value: &Value) -> Key
    ensures { result ≡ aim_of (view value.now) }
{
    if is_maximised(value) {
        Key::Maximise
    } else {
        Key::Minimise
    }
}

/// Reads a criterion, which has a place in the list of criteria, at the root type.
fn read_criterion(
    alloc: Global,
    model: &Model,
    named: &NamedTables<'_>,
    index: usize,
    value: &Value,
) -> Result<Criterion, Refusal>
    requires declared { IsDeclared model.now }
    requires named { AreNamedTablesOf model.now named.now }
    requires root { model.now.root < length model.now.types }
    ensures criterion { IfOk result (λ r. r ≡ criterion_in model.now (view value.now)) }
    ensures sound { IfOk result (λ _. FindsFault
        (HasStatedFault model.now (stated_criterion model.now (index, view value.now) ∷ [])) None) }
    ensures fault { IfErr result
        (IsRefusalOfStated model.now (stated_criterion model.now (index, view value.now) ∷ [])) }
{
    let name = name_in(alloc, value).map_err(Refusal::Memory)?;
    let aim = aim_of(value);
    let place = place_in(alloc, Key::Criteria, index, aim).map_err(Refusal::Memory)?;
    let absent = null();
    let goal = member_of(value, aim, &absent);
    let goal = read_stated(alloc, model, named, place, goal, model.root, false)?;
    Ok(Criterion {
        name,
        maximise: is_maximised(value),
        value: goal,
    })
}

/// Reads the criteria, and finds the first fault of their expressions: with one, the criteria that
/// are read are some of them only.
pub(crate) fn criteria_in(
    alloc: Global,
    model: &Model,
    named: &NamedTables<'_>,
    list: &[Value],
) -> Result<(Items<Criterion>, Option<Fault>), AllocError>
    requires declared { IsDeclared model.now }
    requires named { AreNamedTablesOf model.now named.now }
    requires root { model.now.root < length model.now.types }
    ensures { IfOk result (λ r. AreRead model.now
        (map (stated_criterion model.now) (enumerate_from 0 (map view list.now)))
        (map (criterion_in model.now) (map view list.now)) r.1 r.0) }
{
    let mut criteria = Items::new(alloc);
    let mut first: Option<Fault> = None;
    for (i, value) in list.iter().enumerate() {
        match read_criterion(alloc, model, named, i, value) {
            Ok(criterion) => criteria.push(criterion)?,
            Err(Refusal::Fault(fault)) => first = Some(earlier_fault(first, fault)),
            Err(Refusal::Memory(e)) => return Err(e),
        }
    }
    Ok((criteria, first))
}
