//! Sums and counts over links and instances. They are kept in 128 bits, which no slice of numbers
//! of 64 bits can leave.
ghost use Rattle.std.specs.Prelude.{◌≡◌, ◌≤◌, length, map, pos, if◌then◌else◌};
ghost use Rattle.std.specs.List.{count_by, filter};
ghost use Rattle.prod_model.specs.ExprBounds.{sum_of};
ghost use Rattle.config_value.specs.Value.{is_under, under, value_of as value_of_at, value_at_instance as value_at_instance_of};

use crate::instances::{count_under, is_instance_under, value_at_instance, value_of};
use crate::types::is_under as is_kind_under;
use config_value::{Configuration, Instance};
use prod_model::Problem;

/// How many links lead to instances under the type.
pub(crate) fn count_links(problem: &Problem, c: &Configuration, links: &[u32], kind: u32) -> i64
    ensures { result ≡ pos (count_by (is_under problem.now c.now kind) links.now) }
{
    let count = links
        .iter()
        .filter(|j| is_instance_under(problem, c, kind, **j))
        .count();
    count as i64
}

/// How many instances are under the type.
pub(crate) fn number_under(problem: &Problem, c: &Configuration, kind: u32) -> i64
    requires { length c.now ≤ 256 }
    ensures { result ≡ pos (count_by (under problem.now kind) c.now) }
{
    count_under(problem, c, kind) as i64
}

/// The sum of an attribute over the linked instances.
pub(crate) fn sum_links(problem: &Problem, c: &Configuration, links: &[u32], id: u32) -> i128
    ensures { result ≡ sum_of (map (value_at_instance_of problem.now c.now id) links.now) }
{
    let mut sum = 0;
    for j in links {
        sum += i128::from(value_at_instance(problem, c, id, *j));
    }
    sum
}

/// The sum of an attribute over the instances under a type.
pub(crate) fn sum_under(problem: &Problem, c: &Configuration, kind: u32, id: u32) -> i128
    requires { length c.now ≤ 256 }
    ensures { result
        ≡ sum_of (map (λ x. value_of_at problem.now x id) (filter (under problem.now kind) c.now)) }
{
    let mut sum = 0;
    for i in 0..c.len() as u32 {
        sum += i128::from(value_under(problem, c.get(i), kind, id));
    }
    sum
}

/// The value of an attribute at an instance under a type, and 0 at any other.
fn value_under(problem: &Problem, instance: &Instance, kind: u32, id: u32) -> i64
    ensures { result ≡ (if under problem.now kind instance.now
        then value_of_at problem.now instance.now id else pos 0) }
{
    if is_kind_under(problem, instance.kind, kind) {
        value_of(problem, instance, id)
    } else {
        0
    }
}
