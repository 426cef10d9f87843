//! Rules that are false, and requests that are met.
ghost use Rattle.std.specs.Prelude.{◌≡◌, ℕ, ◌<◌, ◌≤◌, ◌&&◌, nat_lt, not, length, IsTrue};
ghost use Rattle.instance_set.specs.InstanceSets.{is_member};
ghost use Rattle.prod_model.specs.ExprBounds.{is_truth_at};
ghost use Rattle.prod_model.specs.Valid.{IsValid, IsValidOrder};
ghost use Rattle.config_value.specs.Shaped.{is_shaped};
ghost use Rattle.config_value.specs.Value.{is_under as is_under_of, is_true_at};
ghost use Rattle.answer_check.specs.Codes.{false_rule_code};
ghost use Rattle.answer_check.specs.steps.Finds.{BreaksAt, FindsPlace};
ghost use Rattle.answer_check.specs.Requested.{MeetsRequest};

use crate::evaluate::truth_at;
use crate::place::Place;
use crate::truths::true_among;
use crate::types::is_under;
use config_value::Configuration;
use instance_set::InstanceSet;
use prod_model::{Order, Problem, Rule};

/// The first rule that is false at an instance under its type: the first such instance, and the
/// first such rule there. Each part of a rule is gone over once, for all instances at which it is
/// asked. There a number takes a step for each instance or link that it counts, and a truth about
/// linked instances a step for each link.
pub(crate) fn false_rule(problem: &Problem, c: &Configuration) -> Option<Place>
    requires valid { IsValid problem.now }
    requires shaped { IsTrue (is_shaped problem.now c.now) }
    ensures { FindsPlace (BreaksAt problem.now c.now false_rule_code) result }
{
    let rules = problem.model().rules.as_slice();
    let mut first = None;
    // A later rule comes first only at an instance below the one found.
    let mut below = c.len() as u32;
    for k in 0..rules.len() {
        if let Some(instance) = false_below(problem, c, &rules[k], below).least_from(0) {
            first = Some(Place {
                instance,
                item: k as u32,
            });
            below = instance;
        }
    }
    first
}

/// The instances of lower numbers under a rule's type at which it is false.
fn false_below(problem: &Problem, c: &Configuration, rule: &Rule, below: u32) -> InstanceSet
    requires valid { IsValid problem.now }
    requires shaped { IsTrue (is_shaped problem.now c.now) }
    requires within { below ≤ length c.now }
    requires faultless { IsTrue (is_truth_at problem.now rule.now.kind rule.now.holds) }
    ensures { (i : ℕ) → is_member result i
        ≡ ((nat_lt i below && is_under_of problem.now c.now rule.now.kind i)
        && not (is_true_at problem.now c.now i rule.now.holds)) }
{
    let under = under_below(problem, c, rule.kind, below);
    under.difference(true_among(problem, c, under, &rule.holds))
}

/// The instances of lower numbers under a type.
fn under_below(problem: &Problem, c: &Configuration, kind: u32, below: u32) -> InstanceSet
    requires within { below ≤ length c.now }
    requires few { length c.now ≤ 256 }
    ensures { (i : ℕ)
        → is_member result i ≡ (nat_lt i below && is_under_of problem.now c.now kind i) }
{
    let mut under = InstanceSet::empty();
    for i in 0..below {
        if is_under(problem, c.get(i).kind, kind) {
            under.insert(i);
        }
    }
    under
}

/// Whether the configuration meets the request of that number: it is true at the root product.
pub fn meets(problem: &Problem, order: &Order, k: u32, c: &Configuration) -> bool
    requires order { IsValidOrder problem.now order.now }
    requires shaped { IsTrue (is_shaped problem.now c.now) }
    requires request { k < length order.now.requests }
    ensures { MeetsRequest problem.now order.now k c.now result }
{
    let _model = problem.model();
    let request = &order.requests.as_slice()[k as usize];
    truth_at(problem, c, 0, &request.holds)
}
