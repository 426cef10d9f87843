//! The faults that are alike for models and orders: kinds, lengths, forms, repeated names, limits.
ghost use Rattle.std.specs.Prelude.{◌≡◌, None, IfOk, IfErr};
ghost use Rattle.serde_json.specs.View.{view};
ghost use Rattle.file_values.specs.Inside.{Finds, FailsAt};
ghost use Rattle.file_values.specs.Tests.{passes};
ghost use Rattle.file_values.specs.Twice.{IsTwice};
ghost use Rattle.file_values.specs.declared.fault.FaultCode.TheVariants.{Twice};
ghost use Rattle.file_meaning.specs.Faults.{HasPlainFault};
ghost use Rattle.model_reader.specs.Passes.{IsClearTo, IsRefusalBy, IsRefusalAt};

use file_meaning::Refusal;
use file_values::{Fault, FaultCode, Format, Kind, Test, first_failing, first_twice};
use serde_json::Value;
use std::alloc::Global;

/// Refuses a value in which one fails the test, by this code at the place of the first.
pub(crate) fn check_test(
    alloc: Global,
    test: &Test<'_>,
    code: FaultCode,
    format: Format,
    kind: Kind,
    value: &Value,
) -> Result<(), Refusal>
    ensures passed { IfOk result
        (λ _. Finds (FailsAt format (passes test.now format) kind (view value.now)) None) }
    ensures fault { IfErr result
        (IsRefusalAt code (FailsAt format (passes test.now format) kind (view value.now))) }
{
    match first_failing(alloc, test, format, kind, value) {
        Err(e) => Err(Refusal::Memory(e)),
        Ok(None) => Ok(()),
        Ok(Some(place)) => Err(Refusal::Fault(Fault { code, place })),
    }
}

/// Refuses a value in which a name stands twice, at the place where the first of those does again.
fn check_twice(alloc: Global, format: Format, kind: Kind, value: &Value) -> Result<(), Refusal>
    ensures passed { IfOk result (λ _. Finds (IsTwice format kind (view value.now)) None) }
    ensures fault { IfErr result (IsRefusalAt Twice (IsTwice format kind (view value.now))) }
{
    match first_twice(alloc, format, kind, value) {
        Err(e) => Err(Refusal::Memory(e)),
        Ok(None) => Ok(()),
        Ok(Some(place)) => {
            let code = FaultCode::Twice;
            Err(Refusal::Fault(Fault { code, place }))
        }
    }
}

/// Refuses a value of a kind by its first fault of a kind, a length, a form, a name that stands
/// twice, or a limit. Each is searched for in one walk through the value.
///
/// # Errors
///
/// `Fault` with the first fault, by code and then by place, and `Memory` where memory runs out.
#[tactic(auto, using(crate::proofs::PlainPasses::first_plain))]
pub fn check_plain(alloc: Global, format: Format, kind: Kind, value: &Value) -> Result<(), Refusal>
    ensures clear { IfOk result
        (λ _. IsClearTo (HasPlainFault format kind (view value.now)) 7) }
    ensures fault { IfErr result (IsRefusalBy (HasPlainFault format kind (view value.now))) }
{
    check_test(
        alloc,
        &Test::Kinds,
        FaultCode::OtherKind,
        format,
        kind,
        value,
    )?;
    check_test(
        alloc,
        &Test::Lengths,
        FaultCode::WrongLength,
        format,
        kind,
        value,
    )?;
    check_test(
        alloc,
        &Test::Forms,
        FaultCode::WrongForm,
        format,
        kind,
        value,
    )?;
    check_twice(alloc, format, kind, value)?;
    check_test(
        alloc,
        &Test::Limits,
        FaultCode::PastLimit,
        format,
        kind,
        value,
    )?;
    Ok(())
}
