//! The first text of a value that stands twice.
ghost use Rattle.std.specs.Prelude.{map, IfOk};
ghost use Rattle.serde_json.specs.View.{view};
ghost use Rattle.file_values.specs.Inside.{Finds};
ghost use Rattle.file_values.specs.Twice.{texts_in, IsRepeated};
ghost use Rattle.file_values.specs.steps.Groups.{grouped};
ghost use Rattle.file_values.specs.steps.Repeats.{IsFirstRepeat};

use crate::group::{Group, group_of};
use crate::kind::Kind;
use crate::names::Names;
use crate::part::Part;
use prod_model::Items;
use serde_json::Value;
use std::alloc::{AllocError, Global};

/// The first place at which a text of the value stands that is the same as an earlier one of those
/// that have to differ. The texts are looked up in a table, so it takes time linear in their
/// lengths.
pub(crate) fn first_repeated(
    alloc: Global,
    kind: Kind,
    value: &Value,
) -> Result<Option<Items<Part>>, AllocError>
    ensures { IfOk result (Finds (IsRepeated (texts_in kind (view value.now)))) }
{
    let group = group_of(kind, value);
    match first_repeat(alloc, &group)? {
        None => Ok(None),
        Some(number) => Ok(Some(group.place(alloc, number)?)),
    }
}

/// The number of the first text that is the same as an earlier one.
fn first_repeat(alloc: Global, group: &Group<'_>) -> Result<Option<usize>, AllocError>
    ensures { IfOk result (IsFirstRepeat (map (λ p. p.text) (grouped group.now))) }
{
    let mut names = Names::new(alloc);
    for number in 0..group.count() {
        if !names.insert(group.text(number).as_bytes())? {
            return Ok(Some(number));
        }
    }
    Ok(None)
}
