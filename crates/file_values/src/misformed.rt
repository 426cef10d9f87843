//! The first place at which an expression of a file is of none of the forms.
ghost use Rattle.std.specs.Prelude.{◌≡◌, map, slice_get, IfOk, if◌then◌else◌, Some, None, []};
ghost use Rattle.std.specs.Option.{option_copied};
ghost use Rattle.serde_json.specs.View.{view};
ghost use Rattle.file_values.specs.Forms.{misformed, judged, misformed_argument, misformed_arguments, misformed_array, arguments_of};

use crate::operator::Argument;
use crate::operators::{operator_of, takes};
use crate::part::Part;
use crate::place::{at, behind};
use prod_model::Items;
use serde_json::Value;
use std::alloc::{AllocError, Global};

/// The whole, provided that it is wrong.
fn whole_if(alloc: Global, wrong: bool) -> Option<Items<Part>>
    ensures { result ≡ (if wrong then Some [] else None) }
{
    if wrong { Some(Items::new(alloc)) } else { None }
}

/// What the arguments of an array have to be.
fn arguments(operator: &Value, count: usize) -> Option<&'static [Argument]>
    ensures { option_copied result ≡ arguments_of (view operator.now) count }
{
    takes(operator_of(operator.as_str()?)?, count)
}

/// The first place in the document at which the value is of none of the forms of expressions, or an
/// argument in it isn't what it has to be. Each value is looked at once. `AllocError` where memory
/// runs out.
#[cycle(misformed)]
#[tactic(auto, using(crate::proofs::FormLaws::each_misformed_items))]
pub fn first_misformed(alloc: Global, value: &Value) -> Result<Option<Items<Part>>, AllocError>
    ensures { IfOk result (λ place. place ≡ slice_get (misformed (view value.now)) 0) }
{
    match value {
        Value::Number(n) => Ok(whole_if(alloc, n.as_i64().is_none())),
        Value::Array(items) => first_in_array(alloc, items.as_slice()),
        _ => Ok(whole_if(alloc, true)),
    }
}

#[cycle(misformed)]
fn first_in_array(alloc: Global, items: &[Value]) -> Result<Option<Items<Part>>, AllocError>
    ensures { IfOk result (λ place.
        place ≡ slice_get (misformed_array (map judged (map view items.now))) 0) }
{
    let Some((operator, args)) = items.split_first() else {
        return Ok(whole_if(alloc, true));
    };
    match arguments(operator, args.len()) {
        None => Ok(whole_if(alloc, true)),
        Some(kinds) => first_in_arguments(alloc, 1, kinds, args),
    }
}

/// The first in the arguments from this place of the array on.
#[cycle(misformed)]
#[tactic(auto, using(crate::proofs::FormLaws::first_of_two))]
fn first_in_arguments(
    alloc: Global,
    place: usize,
    kinds: &[Argument],
    args: &[Value],
) -> Result<Option<Items<Part>>, AllocError>
    ensures { IfOk result (λ found. found
        ≡ slice_get (misformed_arguments place kinds.now (map judged (map view args.now))) 0) }
{
    let Some((kind, kinds)) = kinds.split_first() else {
        return Ok(None);
    };
    let Some((arg, args)) = args.split_first() else {
        return Ok(None);
    };
    match first_in_argument(alloc, *kind, arg)? {
        Some(inner) => Ok(Some(behind(alloc, at(place)?, inner)?)),
        None => first_in_arguments(alloc, place.checked_add(1).ok_or(AllocError)?, kinds, args),
    }
}

#[cycle(misformed)]
fn first_in_argument(
    alloc: Global,
    kind: Argument,
    arg: &Value,
) -> Result<Option<Items<Part>>, AllocError>
    ensures { IfOk result (λ found. found
        ≡ slice_get (misformed_argument kind (view arg.now) (misformed (view arg.now))) 0) }
{
    match kind {
        Argument::Text => Ok(whole_if(alloc, arg.as_str().is_none())),
        Argument::Factor => Ok(whole_if(alloc, arg.as_i64().is_none())),
        Argument::Inner => first_misformed(alloc, arg),
    }
}
