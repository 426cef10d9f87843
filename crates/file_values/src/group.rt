//! The texts of a value that have to differ, by their numbers.
ghost use Rattle.std.specs.Prelude.{◌≡◌, ◌<◌, [], length, slice_get, Some, None, IfOk};
ghost use Rattle.std.specs.Option.{option_map};
ghost use Rattle.serde_json.specs.View.{view};
ghost use Rattle.file_values.specs.declared.kind.Key.TheVariants.{Name};
ghost use Rattle.file_values.specs.Read.{text_at, items_in, items_at};
ghost use Rattle.file_values.specs.Twice.{texts_in};
ghost use Rattle.file_values.specs.steps.Groups.{step_by, listed_in, listed, grouped};

use crate::forms::text_in;
use crate::kind::{Key, Kind};
use crate::kinds::items_in;
use crate::lengths::items_at;
use crate::part::Part;
use crate::place::{at, under};
use prod_model::Items;
use serde_json::Value;
use std::alloc::{AllocError, Global};

/// Values of which the texts have to differ.
#[derive(Clone, Copy)]
pub(crate) struct Listed<'v> {
    /// The member in which their list stands. Nothing where it is the value itself.
    list: Option<Key>,
    items: &'v [Value],
    /// The member of each that is the text. Nothing where they are texts themselves.
    text: Option<Key>,
}

/// The texts of a value that have to differ: those of one list, and then those of another one.
#[derive(Clone, Copy)]
pub(crate) struct Group<'v> {
    first: Listed<'v>,
    second: Listed<'v>,
}

/// The texts of a value that have to differ.
#[tactic(auto, unfolding(crate::specs::Twice::texts_in))]
pub(crate) fn group_of(kind: Kind, value: &Value) -> Group<'_>
    ensures { grouped result ≡ texts_in kind (view value.now) }
{
    match kind {
        Kind::TypeDecl => Group {
            first: declared(value, Key::Attributes),
            second: declared(value, Key::Ports),
        },
        Kind::Words => alone(value, None),
        Kind::Bounds => alone(value, Some(Key::OfType)),
        Kind::Types | Kind::Rules | Kind::Requests | Kind::Criteria => {
            alone(value, Some(Key::Name))
        }
        _ => Group {
            first: nothing(),
            second: nothing(),
        },
    }
}

/// No texts.
fn nothing() -> Listed<'static>
    ensures { listed result ≡ [] }
{
    Listed {
        list: None,
        items: &[],
        text: None,
    }
}

/// The names of the declarations in a member.
fn declared<'v>(value: &'v Value, list: Key) -> Listed<'v>
    ensures { listed result
        ≡ listed_in (Some list) (Some Name) (items_at list (view value.now)) }
{
    Listed {
        list: Some(list),
        items: items_at(value, list),
        text: Some(Key::Name),
    }
}

/// The texts of a list that is the value itself.
fn alone<'v>(value: &'v Value, text: Option<Key>) -> Group<'v>
    ensures { grouped result ≡ listed_in None text (items_in (view value.now)) }
{
    Group {
        first: Listed {
            list: None,
            items: items_in(value),
            text,
        },
        second: nothing(),
    }
}

impl<'v> Group<'v> {
    /// How many texts there are.
    pub(crate) fn count(&self) -> usize
        ensures { result ≡ length (grouped self.now) }
    {
        self.first.items.len() + self.second.items.len()
    }

    /// The text of this number.
    pub(crate) fn text(&self, number: usize) -> &'v str
        requires { number < length (grouped self.now) }
        ensures { option_map (λ p. p.text) (slice_get (grouped self.now) number)
            ≡ Some result.now }
    {
        let (list, index) = self.part(number);
        list.text(index)
    }

    /// The place of the text of this number.
    pub(crate) fn place(&self, alloc: Global, number: usize) -> Result<Items<Part>, AllocError>
        requires { number < length (grouped self.now) }
        ensures { IfOk result (λ place.
            option_map (λ p. p.place) (slice_get (grouped self.now) number) ≡ Some place) }
    {
        let (list, index) = self.part(number);
        list.place(alloc, index)
    }

    /// The list in which the text of this number stands, and its place in it.
    fn part(&self, number: usize) -> (Listed<'v>, usize)
        requires { number < length (grouped self.now) }
        ensures same { slice_get (listed result.0) result.1 ≡ slice_get (grouped self.now) number }
        ensures within { result.1 < length result.0.items.now }
    {
        match number.checked_sub(self.first.items.len()) {
            None => (self.first, number),
            Some(index) => (self.second, index),
        }
    }
}

impl<'v> Listed<'v> {
    /// The text at a place of the list.
    fn text(&self, index: usize) -> &'v str
        requires { index < length self.now.items.now }
        ensures { option_map (λ p. p.text) (slice_get (listed self.now) index) ≡ Some result.now }
    {
        let item = &self.items[index];
        match self.text {
            None => text_in(item),
            Some(key) => text_at(item, key),
        }
    }

    /// Where the text at a place of the list stands in the value.
    fn place(&self, alloc: Global, index: usize) -> Result<Items<Part>, AllocError>
        requires { index < length self.now.items.now }
        ensures { IfOk result (λ place.
            option_map (λ p. p.place) (slice_get (listed self.now) index) ≡ Some place) }
    {
        let mut place = step_by(alloc, self.list)?;
        place.push(at(index)?)?;
        place.append(step_by(alloc, self.text)?)?;
        Ok(place)
    }
}

/// The step to a member, or none.
fn step_by(alloc: Global, key: Option<Key>) -> Result<Items<Part>, AllocError>
    ensures { IfOk result (λ step. step ≡ step_by key) }
{
    match key {
        None => Ok(Items::new(alloc)),
        Some(key) => Items::from_slice(alloc, &[under(key)]),
    }
}

/// The text of a member, and the empty text where it is none or lacks.
fn text_at<'v>(value: &'v Value, key: Key) -> &'v str
    ensures { result.now ≡ text_at key (view value.now) }
{
    match value.get(key.text()) {
        None => "",
        Some(member) => text_in(member),
    }
}
