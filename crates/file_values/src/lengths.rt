//! Whether a list is no longer than its limit.
ghost use Rattle.std.specs.Prelude.{◌≡◌, map, length, nat_le};
ghost use Rattle.serde_json.specs.View.{view};
ghost use Rattle.file_values.specs.Read.{items_in, items_at};
ghost use Rattle.file_values.specs.Tests.{is_short, is_at_most, declarations};

use crate::kind::{Key, Kind};
use crate::kinds::items_in;
use prod_model::limits::{
    MOST_ATTRIBUTE_DECLARATIONS, MOST_BOUNDS, MOST_CRITERIA, MOST_PORT_DECLARATIONS, MOST_REQUESTS,
    MOST_RULES, MOST_TYPES, MOST_WORDS,
};
use serde_json::Value;

fn is_at_most(most: usize, value: &Value) -> bool
    ensures { result ≡ is_at_most most (view value.now) }
{
    items_in(value).len() <= most
}

/// The values of a member that is an array; none where it lacks.
pub fn items_at<'v>(value: &'v Value, key: Key) -> &'v [Value]
    ensures { map view result.now ≡ items_at key (view value.now) }
{
    match value.get(key.text()) {
        None => &[],
        Some(member) => items_in(member),
    }
}

/// Whether the types have at most so many declarations in this member.
fn declare_at_most(most: usize, types: &[Value], key: Key) -> bool
    ensures { result ≡ nat_le (declarations key (map view types.now)) most }
{
    match types.split_first() {
        None => true,
        Some((kind, rest)) => match most.checked_sub(items_at(kind, key).len()) {
            None => false,
            Some(left) => declare_at_most(left, rest, key),
        },
    }
}

/// Whether a list has the length of its kind.
#[tactic(auto, unfolding(crate::specs::Tests::is_short))]
pub(crate) fn is_short(kind: Kind, value: &Value) -> bool
    ensures { result ≡ is_short kind (view value.now) }
{
    match kind {
        Kind::Types => {
            let types = items_in(value);
            types.len() <= MOST_TYPES
                && declare_at_most(MOST_ATTRIBUTE_DECLARATIONS, types, Key::Attributes)
                && declare_at_most(MOST_PORT_DECLARATIONS, types, Key::Ports)
        }
        Kind::Bounds => is_at_most(MOST_BOUNDS, value),
        Kind::Rules => is_at_most(MOST_RULES, value),
        Kind::Requests => is_at_most(MOST_REQUESTS, value),
        Kind::Criteria => is_at_most(MOST_CRITERIA, value),
        Kind::Words => {
            let count = items_in(value).len();
            1 <= count && count <= MOST_WORDS
        }
        _ => true,
    }
}
