//! The requests of an order file, and the first fault of their expressions.
ghost use Rattle.std.specs.Prelude.{◌≡◌, ◌<◌, ◌∷◌, [], map, length, None, IfOk, IfErr};
ghost use Rattle.std.specs.List.{enumerate_from};
ghost use Rattle.serde_json.specs.View.{view};
ghost use Rattle.prod_model.specs.Valid.{IsDeclared};
ghost use Rattle.file_meaning.specs.Faults.{HasStatedFault};
ghost use Rattle.file_meaning.specs.ModelOf.{request_in};
ghost use Rattle.file_meaning.specs.Named.{AreNamedTablesOf};
ghost use Rattle.model_reader.specs.Stated.{AreRead, FindsFault, IsRefusalOfStated};
ghost use Rattle.order_reader.specs.Wishes.{stated_request};

use file_meaning::{NamedTables, Refusal};
use file_values::{Fault, Key};
use model_reader::{earlier_fault, member_of, name_in, null, place_in, read_stated};
use prod_model::{Items, Model, Request};
use serde_json::Value;
use std::alloc::{AllocError, Global};

/// Reads a request, which has a place in the list of requests, at the root type.
fn read_request(
    alloc: Global,
    model: &Model,
    named: &NamedTables<'_>,
    index: usize,
    value: &Value,
) -> Result<Request, Refusal>
    requires declared { IsDeclared model.now }
    requires named { AreNamedTablesOf model.now named.now }
    requires root { model.now.root < length model.now.types }
    ensures request { IfOk result (λ r. r ≡ request_in model.now (view value.now)) }
    ensures sound { IfOk result (λ _. FindsFault
        (HasStatedFault model.now (stated_request model.now (index, view value.now) ∷ [])) None) }
    ensures fault { IfErr result
        (IsRefusalOfStated model.now (stated_request model.now (index, view value.now) ∷ [])) }
{
    let name = name_in(alloc, value).map_err(Refusal::Memory)?;
    let place = place_in(alloc, Key::Requests, index, Key::Holds).map_err(Refusal::Memory)?;
    let absent = null();
    let holds = member_of(value, Key::Holds, &absent);
    let holds = read_stated(alloc, model, named, place, holds, model.root, true)?;
    Ok(Request { name, holds })
}

/// Reads the requests, and finds the first fault of their expressions: with one, the requests that
/// are read are some of them only.
pub(crate) fn requests_in(
    alloc: Global,
    model: &Model,
    named: &NamedTables<'_>,
    list: &[Value],
) -> Result<(Items<Request>, Option<Fault>), AllocError>
    requires declared { IsDeclared model.now }
    requires named { AreNamedTablesOf model.now named.now }
    requires root { model.now.root < length model.now.types }
    ensures { IfOk result (λ r. AreRead model.now
        (map (stated_request model.now) (enumerate_from 0 (map view list.now)))
        (map (request_in model.now) (map view list.now)) r.1 r.0) }
{
    let mut requests = Items::new(alloc);
    let mut first: Option<Fault> = None;
    for (i, value) in list.iter().enumerate() {
        match read_request(alloc, model, named, i, value) {
            Ok(request) => requests.push(request)?,
            Err(Refusal::Fault(fault)) => first = Some(earlier_fault(first, fault)),
            Err(Refusal::Memory(e)) => return Err(e),
        }
    }
    Ok((requests, first))
}
