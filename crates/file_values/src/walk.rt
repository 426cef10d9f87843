//! The walk through a file: the first place at which something that is searched for stands.
//!
//! Each value that has a kind is looked at once, and an object has at most six members, so that a
//! walk takes time linear in the file. It takes memory only for the place that it finds, and for
//! the texts of one list at a time where it searches for those that stand twice.
ghost use Rattle.std.specs.Prelude.{◌≡◌, ◌<◌, [], map, length, Some, None, IfOk, if◌then◌else◌};
ghost use Rattle.base_laws.specs.Places.{IsAt};
ghost use Rattle.serde_json.specs.View.{view};
ghost use Rattle.file_values.specs.Inside.{Finds, FailsAt};
ghost use Rattle.file_values.specs.Table.{members_of};
ghost use Rattle.file_values.specs.Tests.{passes as passes_test};
ghost use Rattle.file_values.specs.Twice.{IsTwice};
ghost use Rattle.file_values.specs.steps.Searches.{stands_in, IsFound, IsFoundInList, IsFoundInMembers};

use crate::format::Format;
use crate::kind::{Kind, Member};
use crate::kinds::items_in;
use crate::part::Part;
use crate::place::{at, behind, earlier, under};
use crate::repeats::first_repeated;
use crate::search::Search;
use crate::table::{item, members};
use crate::test::{Test, passes};
use prod_model::Items;
use serde_json::Value;
use std::alloc::{AllocError, Global};

/// The place of the first value that fails the test: the value itself, or one in it, in the order
/// of the document. `AllocError` where memory runs out.
pub fn first_failing(
    alloc: Global,
    test: &Test<'_>,
    format: Format,
    kind: Kind,
    value: &Value,
) -> Result<Option<Items<Part>>, AllocError>
    ensures { IfOk result
        (Finds (FailsAt format (passes_test test.now format) kind (view value.now))) }
{
    first_found(alloc, &Search::Failing(*test), format, kind, value)
}

/// The first place in the document at which the later of two texts stands that are the same and
/// have to differ. `AllocError` where memory runs out.
pub fn first_twice(
    alloc: Global,
    format: Format,
    kind: Kind,
    value: &Value,
) -> Result<Option<Items<Part>>, AllocError>
    ensures { IfOk result (Finds (IsTwice format kind (view value.now))) }
{
    first_found(alloc, &Search::Twice, format, kind, value)
}

/// The first place in a value of a kind.
#[cycle(walk)]
fn first_found(
    alloc: Global,
    search: &Search<'_>,
    format: Format,
    kind: Kind,
    value: &Value,
) -> Result<Option<Items<Part>>, AllocError>
    ensures { IfOk result
        (Finds (IsFound format (stands_in search.now format) kind (view value.now))) }
{
    let own = first_own(alloc, search, format, kind, value)?;
    match item(kind) {
        Some(inner) => {
            let found = first_in_list(alloc, search, format, inner, items_in(value))?;
            Ok(earlier(own, found))
        }
        None => {
            let found = first_in_members(alloc, search, format, kind, value)?;
            Ok(earlier(own, found))
        }
    }
}

/// The first in a list of values of one kind.
#[cycle(walk)]
fn first_in_list(
    alloc: Global,
    search: &Search<'_>,
    format: Format,
    inner: Kind,
    items: &[Value],
) -> Result<Option<Items<Part>>, AllocError>
    ensures { IfOk result
        (Finds (IsFoundInList format (stands_in search.now format) inner (map view items.now))) }
{
    for index in 0..items.len() {
        let item = item_at(items, index);
        if let Some(place) = first_found(alloc, search, format, inner, item)? {
            return Ok(Some(behind(alloc, at(index)?, place)?));
        }
    }
    Ok(None)
}

/// The first in the members of an object.
#[cycle(walk)]
fn first_in_members(
    alloc: Global,
    search: &Search<'_>,
    format: Format,
    kind: Kind,
    value: &Value,
) -> Result<Option<Items<Part>>, AllocError>
    ensures { IfOk result
        (Finds (IsFoundInMembers format (stands_in search.now format) (members_of format kind)
        (view value.now))) }
{
    let members = members(format, kind);
    for index in 0..members.len() {
        let member = *member_at(members, index);
        if let Some(inner) = value.get(member.key.text()) {
            if let Some(place) = first_found(alloc, search, format, member.kind, inner)? {
                return Ok(Some(behind(alloc, under(member.key), place)?));
            }
        }
    }
    Ok(None)
}

/// The first place at which the value itself has what is searched for.
fn first_own(
    alloc: Global,
    search: &Search<'_>,
    format: Format,
    kind: Kind,
    value: &Value,
) -> Result<Option<Items<Part>>, AllocError>
    ensures { IfOk result (Finds (stands_in search.now format kind (view value.now))) }
{
    match search {
        Search::Failing(test) => Ok(whole_unless(alloc, passes(test, format, kind, value))),
        Search::Twice => first_repeated(alloc, kind, value),
    }
}

/// The place of the whole, unless it passes.
fn whole_unless(alloc: Global, passes: bool) -> Option<Items<Part>>
    ensures { result ≡ (if passes then None else Some []) }
{
    if passes {
        None
    } else {
        Some(Items::new(alloc))
    }
}

fn item_at(items: &[Value], index: usize) -> &Value
    requires { index < length items.now }
    ensures { IsAt (map view items.now) index (view result.now) }
{
    &items[index]
}

fn member_at(members: &[Member], index: usize) -> &Member
    requires { index < length members.now }
    ensures { IsAt members.now index result.now }
{
    &members[index]
}
