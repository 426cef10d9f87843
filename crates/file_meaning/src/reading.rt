//! What stands in the members of a value.
ghost use Rattle.std.specs.Prelude.{◌≡◌, IfOk, codes, if◌then◌else◌};
ghost use Rattle.prod_model.specs.Names.{is_name as is_name_text, is_word as is_word_text};
ghost use Rattle.serde_json.specs.View.{view};
ghost use Rattle.file_values.specs.Read.{text_at, member_of, item_at, whole_in};
ghost use Rattle.file_meaning.specs.ModelOf.{name_in, name_at, word_in, count_of};

use file_values::{Key, is_name, is_number_of_links, is_word, text_in, whole_at, whole_in};
use prod_model::Name;
use prod_model::limits::MOST_LINKS;
use serde_json::Value;
use std::alloc::{AllocError, Global};

/// The text of a member, and the empty text where it is none or lacks.
pub(crate) fn text_at<'v>(value: &'v Value, key: Key) -> &'v str
    ensures { result.now ≡ text_at key (view value.now) }
{
    match value.get(key.text()) {
        None => "",
        Some(member) => text_in(member),
    }
}

/// The name that the text is; `-` where it is none.
#[tactic(auto, using(crate::proofs::NameForms::name_some, crate::proofs::NameForms::name_short))]
fn name_of(alloc: Global, text: &str) -> Result<Name, AllocError>
    ensures { IfOk result (λ n. n ≡ (if is_name_text text.now then text.now else codes "-")) }
{
    if is_name(text.as_bytes()) {
        Name::from_bytes(alloc, text.as_bytes())
    } else {
        Name::from_bytes(alloc, b"-")
    }
}

/// The word that the text is; `/` where it is none.
#[tactic(auto, using(crate::proofs::NameForms::word_some, crate::proofs::NameForms::word_short))]
fn word_of(alloc: Global, text: &str) -> Result<Name, AllocError>
    ensures { IfOk result (λ n. n ≡ (if is_word_text text.now then text.now else codes "/")) }
{
    if is_word(text.as_bytes()) {
        Name::from_bytes(alloc, text.as_bytes())
    } else {
        Name::from_bytes(alloc, b"/")
    }
}

/// The name that the value is.
pub(crate) fn name_in(alloc: Global, value: &Value) -> Result<Name, AllocError>
    ensures { IfOk result (λ n. n ≡ name_in (view value.now)) }
{
    name_of(alloc, text_in(value))
}

/// The word that the value is.
pub(crate) fn word_in(alloc: Global, value: &Value) -> Result<Name, AllocError>
    ensures { IfOk result (λ n. n ≡ word_in (view value.now)) }
{
    word_of(alloc, text_in(value))
}

/// The name in a member.
pub(crate) fn name_at(alloc: Global, value: &Value, key: Key) -> Result<Name, AllocError>
    ensures { IfOk result (λ n. n ≡ name_at key (view value.now)) }
{
    name_of(alloc, text_at(value, key))
}

/// The whole number in a member, and 0 where there is none.
pub(crate) fn number_at(value: &Value, key: Key) -> i64
    ensures { result ≡ whole_in (member_of key (view value.now)) }
{
    match value.get(key.text()) {
        None => 0,
        Some(member) => whole_in(member),
    }
}

/// An end of the pair in a member, and 0 where there is none.
pub(crate) fn end_at(value: &Value, key: Key, place: usize) -> i64
    ensures { result ≡ whole_in (item_at place (member_of key (view value.now))) }
{
    match value.get(key.text()) {
        None => 0,
        Some(pair) => whole_at(pair, place),
    }
}

/// A number of links or instances; one past the limit stands for any other.
pub(crate) fn count_of(n: i64) -> u32
    ensures { result ≡ count_of n }
{
    if is_number_of_links(n) {
        n as u32
    } else {
        MOST_LINKS as u32 + 1
    }
}
