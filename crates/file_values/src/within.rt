//! Whether a number or a pair is within its limits.
ghost use Rattle.std.specs.Prelude.{◌≡◌};
ghost use Rattle.prod_model.specs.Limits.{is_within, farthest_end, most_instances, most_links};
ghost use Rattle.serde_json.specs.View.{view};
ghost use Rattle.file_values.specs.Read.{whole_in, item_at};
ghost use Rattle.file_values.specs.Tests.{is_count_between, is_in_limits};

use crate::kind::Kind;
use crate::kinds::items_in;
use prod_model::limits::{FARTHEST_END, MOST_INSTANCES, MOST_LINKS};
use serde_json::Value;

/// The whole number that the value is, and 0 where it is none.
pub fn whole_in(value: &Value) -> i64
    ensures { result ≡ whole_in (view value.now) }
{
    value.as_i64().unwrap_or(0)
}

/// The whole number of an array at a place, and 0 where there is none.
pub fn whole_at(value: &Value, place: usize) -> i64
    ensures { result ≡ whole_in (item_at place (view value.now)) }
{
    match items_in(value).get(place) {
        Some(n) => whole_in(n),
        None => 0,
    }
}

fn is_number_of_instances(n: i64) -> bool
    ensures { result ≡ is_count_between 1 most_instances n }
{
    1 <= n && n <= MOST_INSTANCES as i64
}

/// Whether it is a number of links or of instances in an entry of `bounds`: 0 to 256.
pub fn is_number_of_links(n: i64) -> bool
    ensures { result ≡ is_count_between 0 most_links n }
{
    0 <= n && n <= MOST_LINKS as i64
}

fn is_end(n: i64) -> bool
    ensures { result ≡ is_within farthest_end n }
{
    -FARTHEST_END <= n && n <= FARTHEST_END
}

/// Whether the value is within its limits, where it is a number or a pair.
#[tactic(auto, unfolding(crate::specs::Tests::is_in_limits))]
pub(crate) fn is_in_limits(kind: Kind, value: &Value) -> bool
    ensures { result ≡ is_in_limits kind (view value.now) }
{
    match kind {
        Kind::Instances => is_number_of_instances(whole_in(value)),
        Kind::End => is_end(whole_in(value)),
        Kind::Count => is_number_of_links(whole_in(value)),
        Kind::Range | Kind::Links => whole_at(value, 0) <= whole_at(value, 1),
        _ => true,
    }
}
