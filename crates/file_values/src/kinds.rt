//! Whether a value is of its kind.
ghost use Rattle.std.specs.Prelude.{◌≡◌, not, ◌||◌, ◌&&◌, map, string_bytes, length, count_by};
ghost use Rattle.std.specs.List.{list_all, list_any};
ghost use Rattle.std.specs.BTreeMap.{keys};
ghost use Rattle.prod_model.specs.Names.{same_text};
ghost use Rattle.serde_json.specs.View.{view};
ghost use Rattle.file_values.specs.Places.{text_of};
ghost use Rattle.file_values.specs.Read.{items_in};
ghost use Rattle.file_values.specs.Kinds.{is_present, is_exclusive, has_to_stand, has_only, has_one_of, has_members, is_one_of, is_whole, is_pair, is_right};

use crate::format::Format;
use crate::kind::{Kind, Member, Need};
use crate::table::members;
use serde_json::{Map, Value};

fn is_present(value: &Value, member: Member) -> bool
    ensures { result ≡ is_present (view value.now) member }
{
    value.get(member.key.text()).is_some()
}

fn is_exclusive(need: Need) -> bool
    ensures { result ≡ is_exclusive need }
{
    match need {
        Need::Either => true,
        _ => false,
    }
}

fn has_to_stand(need: Need) -> bool
    ensures { result ≡ has_to_stand need }
{
    match need {
        Need::Must => true,
        _ => false,
    }
}

fn is_listed(key: &str, listed: &[Member]) -> bool
    ensures { result ≡ list_any (λ m. same_text key.now (text_of m.key)) listed.now }
{
    listed.iter().any(|m| key == m.key.text())
}

fn are_listed(members: &Map<String, Value>, listed: &[Member]) -> bool
    ensures { result ≡ list_all
        (λ key. list_any (λ m. same_text (string_bytes key) (text_of m.key)) listed.now)
        (keys members.now) }
{
    members.keys().all(|key| is_listed(key.as_str(), listed))
}

/// Whether the value is an object with none but these members.
#[tactic(auto, using(crate::proofs::MemberLaws::has_only_keys_view))]
fn has_only(value: &Value, listed: &[Member]) -> bool
    ensures { result ≡ has_only (map (λ m. text_of m.key) listed.now) (view value.now) }
{
    match value.as_object() {
        None => false,
        Some(members) => are_listed(members, listed),
    }
}

fn has_required(value: &Value, members: &[Member]) -> bool
    ensures { result ≡ list_all
        (λ m. not (has_to_stand m.need) || is_present (view value.now) m) members.now }
{
    members
        .iter()
        .all(|m| !has_to_stand(m.need) || is_present(value, *m))
}

fn has_choice(members: &[Member]) -> bool
    ensures { result ≡ list_any (λ m. is_exclusive m.need) members.now }
{
    members.iter().any(|m| is_exclusive(m.need))
}

/// How many of the members that exclude each other stand.
fn chosen(value: &Value, members: &[Member]) -> usize
    ensures { result
        ≡ count_by (λ m. is_exclusive m.need && is_present (view value.now) m) members.now }
{
    members
        .iter()
        .filter(|m| is_exclusive(m.need) && is_present(value, **m))
        .count()
}

fn has_one_of(value: &Value, members: &[Member]) -> bool
    ensures { result ≡ has_one_of members.now (view value.now) }
{
    !has_choice(members) || chosen(value, members) == 1
}

/// An object with none but these members, all that have to stand, and one of those that exclude
/// each other.
fn has_members(value: &Value, members: &[Member]) -> bool
    ensures { result ≡ has_members members.now (view value.now) }
{
    has_only(value, members) && has_required(value, members) && has_one_of(value, members)
}

fn is_among(text: &str, texts: &[&str]) -> bool
    ensures { result ≡ list_any (λ t. same_text text.now t.now) texts.now }
{
    texts.iter().any(|t| text == *t)
}

#[tactic(auto, using(crate::proofs::MemberLaws::among_view))]
fn is_one_of(value: &Value, texts: &[&str]) -> bool
    ensures { result ≡ is_one_of (map (λ t. t.now) texts.now) (view value.now) }
{
    match value.as_str() {
        None => false,
        Some(text) => is_among(text, texts),
    }
}

/// The values of an array, and none of what is no array.
#[tactic(auto, using(crate::proofs::MemberLaws::values_of_view))]
pub fn items_in(value: &Value) -> &[Value]
    ensures { map view result.now ≡ items_in (view value.now) }
{
    match value.as_array() {
        None => &[],
        Some(items) => items.as_slice(),
    }
}

fn are_whole(items: &[Value]) -> bool
    ensures { result ≡ list_all (λ n. is_whole (view n)) items.now }
{
    items.iter().all(|n| n.as_i64().is_some())
}

/// An array of two whole numbers.
#[tactic(auto, using(crate::proofs::MemberLaws::pair_view))]
fn is_pair(value: &Value) -> bool
    ensures { result ≡ is_pair (view value.now) }
{
    let items = items_in(value);
    items.len() == 2 && are_whole(items)
}

/// Whether the value itself is of the kind; what is in it isn't tested here.
#[tactic(auto, unfolding(crate::specs::Kinds::is_right))]
pub(crate) fn is_right(format: Format, kind: Kind, value: &Value) -> bool
    ensures { result ≡ is_right format kind (view value.now) }
{
    match kind {
        Kind::Types
        | Kind::Attributes
        | Kind::Ports
        | Kind::Bounds
        | Kind::Rules
        | Kind::Requests
        | Kind::Criteria
        | Kind::Words => value.is_array(),
        Kind::Range | Kind::Links => is_pair(value),
        Kind::End | Kind::Count | Kind::Instances => value.as_i64().is_some(),
        Kind::ModelFormat => is_one_of(value, &["product-model 1", "product-model 2"]),
        Kind::OrderFormat => is_one_of(value, &["order 1"]),
        Kind::PortKind => is_one_of(value, &["part", "use"]),
        Kind::Name | Kind::TypeName | Kind::InverseName | Kind::Word => value.as_str().is_some(),
        Kind::Expression => true,
        Kind::Model
        | Kind::Order
        | Kind::TypeDecl
        | Kind::Attribute
        | Kind::Port
        | Kind::Bound
        | Kind::Rule
        | Kind::Request
        | Kind::Criterion => has_members(value, members(format, kind)),
    }
}
