//! Reads an order file.
ghost use Rattle.std.specs.Prelude.{◌≡◌, ◌<◌, length, None, IfOk, IfErr};
ghost use Rattle.serde_json.specs.View.{view};
ghost use Rattle.prod_model.specs.Taxonomy.{AreTablesOf};
ghost use Rattle.prod_model.specs.Valid.{IsDeclared, IsValid, IsValidOrder};
ghost use Rattle.file_meaning.specs.Faults.{HasStatedFault, HasOrderFault, wishes_of};
ghost use Rattle.file_meaning.specs.ModelOf.{order_in};
ghost use Rattle.file_meaning.specs.Refused.{IsRefusalOfFile};
ghost use Rattle.file_meaning.specs.Stands.{IsFileFor, StandsForOrder};
ghost use Rattle.model_reader.specs.Passes.{IsRefusalBy};
ghost use Rattle.model_reader.specs.Stated.{earlier_fault, FindsFault};

use crate::criteria::criteria_in;
use crate::requests::requests_in;
use file_meaning::laws::faultless_is_valid_order;
use file_meaning::{NamedTables, Refusal};
use file_values::{Fault, Format, Key, Kind, items_at};
use model_reader::{check_plain, earlier_fault, value_of};
use prod_model::{Model, Order, Problem, Tables};
use serde_json::Value;
use std::alloc::{AllocError, Global};

/// The earlier of two faults, and the only one where there is one.
fn earlier(first: Option<Fault>, other: Option<Fault>) -> Option<Fault>
    ensures { result ≡ earlier_fault first other }
{
    match other {
        None => first,
        Some(other) => Some(earlier_fault(first, other)),
    }
}

/// What the value wishes, with the first fault of its expressions: with one, some of the wishes
/// lack.
fn wishes_in(
    alloc: Global,
    model: &Model,
    tables: &Tables,
    value: &Value,
) -> Result<(Order, Option<Fault>), AllocError>
    requires declared { IsDeclared model.now }
    requires root { model.now.root < length model.now.types }
    requires tables { AreTablesOf model.now tables.now }
    ensures first { IfOk result (λ r. FindsFault
        (HasStatedFault model.now (wishes_of model.now (view value.now))) r.1) }
    ensures order { IfOk result
        (λ r. r.1 ≡ None → r.0 ≡ order_in model.now (view value.now)) }
{
    let named = NamedTables::of(alloc, model, tables)?;
    let list = items_at(value, Key::Requests);
    let (requests, first) = requests_in(alloc, model, &named, list)?;
    let others = items_at(value, Key::Criteria);
    let (criteria, other) = criteria_in(alloc, model, &named, others)?;
    Ok((Order { requests, criteria }, earlier(first, other)))
}

/// The order that the value stands for, for a valid model.
#[tactic(auto, using(model_reader::proofs::PlainOfFiles::order_refused, crate::proofs::OrderPass::root_within))]
fn order_of(alloc: Global, model: &Model, tables: &Tables, value: &Value) -> Result<Order, Refusal>
    requires valid { IsValid model.now }
    requires tables { AreTablesOf model.now tables.now }
    ensures order { IfOk result (λ o. StandsForOrder model.now (view value.now) o) }
    ensures valid { IfOk result (λ o. IsValidOrder model.now o) }
    ensures fault { IfErr result (IsRefusalBy (HasOrderFault model.now (view value.now))) }
{
    faultless_is_valid_order();
    check_plain(alloc, Format::First, Kind::Order, value)?;
    match wishes_in(alloc, model, tables, value) {
        Ok((order, first)) => match first {
            None => Ok(order),
            Some(fault) => Err(Refusal::Fault(fault)),
        },
        Err(e) => Err(Refusal::Memory(e)),
    }
}

/// The valid order that a file stands for, for a problem. It takes time linear in the file, besides
/// what the bounds of expressions take. The tables are those of the problem.
///
/// # Errors
///
/// `Fault` with the first fault of the file, by code and then by place, and `Memory` where memory
/// runs out.
pub fn read_order(alloc: Global, problem: &Problem, bytes: &[u8]) -> Result<Order, Refusal>
    ensures order { IfOk result (λ o. IsFileFor (StandsForOrder problem.now) bytes.now o) }
    ensures valid { IfOk result (λ o. IsValidOrder problem.now o) }
    ensures fault { IfErr result (IsRefusalOfFile (HasOrderFault problem.now) bytes.now) }
{
    let value = value_of(alloc, bytes)?;
    order_of(alloc, problem.model(), problem.tables(), &value)
}
