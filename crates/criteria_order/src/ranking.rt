//! The values of criteria, and the order that they and the keys make.
ghost use Rattle.std.specs.Prelude.{◌≡◌, length, IsTrue};
ghost use Rattle.std.specs.Ordering.{int_cmp};
ghost use Rattle.std.specs.Cmp.Lexicographic.{slice_cmp};
ghost use Rattle.prod_model.specs.ExprBounds.{is_number_at};
ghost use Rattle.prod_model.specs.Valid.{IsValidOrder};
ghost use Rattle.config_value.specs.Shaped.{is_shaped};
ghost use Rattle.config_value.specs.Value.{number_at};
ghost use Rattle.config_value.specs.Rank.{rank_order};
ghost use Rattle.criteria_order.specs.CriteriaValues.{criteria_values as criteria_values_of};
ghost use Rattle.criteria_order.specs.steps.Ranks.{rank_value, rank_values, are_numbers};

use answer_check::value_at;
use config_value::{Configuration, Found};
use prod_model::{Criterion, Order, Problem};
use std::cmp::Ordering;

/// Compares two shaped configurations by the criteria of the order, and then by their keys. The
/// first criterion that tells them apart decides; of a maximised one the greater value comes first.
/// It computes each criterion at most once for each of the two, and takes no memory.
pub fn rank_cmp(problem: &Problem, order: &Order, a: &Configuration, b: &Configuration) -> Ordering
    requires order { IsValidOrder problem.now order.now }
    requires shaped { IsTrue (is_shaped problem.now a.now) }
    requires other_shaped { IsTrue (is_shaped problem.now b.now) }
    ensures { result ≡ rank_order problem.now order.now a.now b.now }
{
    match criteria_cmp(problem, order.criteria.as_slice(), a, b) {
        Ordering::Equal => a.key_cmp(b),
        decided => decided,
    }
}

/// Compares two configurations by criteria alone: the first that tells them apart decides.
fn criteria_cmp(
    problem: &Problem,
    criteria: &[Criterion],
    a: &Configuration,
    b: &Configuration,
) -> Ordering
    requires numbers { IsTrue (are_numbers problem.now criteria.now) }
    requires shaped { IsTrue (is_shaped problem.now a.now) }
    requires other_shaped { IsTrue (is_shaped problem.now b.now) }
    ensures { result ≡ slice_cmp int_cmp
        (rank_values problem.now a.now criteria.now) (rank_values problem.now b.now criteria.now) }
{
    match criteria.split_first() {
        None => Ordering::Equal,
        Some((first, rest)) => match criterion_cmp(problem, first, a, b) {
            Ordering::Equal => criteria_cmp(problem, rest, a, b),
            decided => decided,
        },
    }
}

/// Compares two configurations by one criterion.
#[tactic(auto, using(crate::proofs::Negated::int_cmp_negated))]
fn criterion_cmp(
    problem: &Problem,
    criterion: &Criterion,
    a: &Configuration,
    b: &Configuration,
) -> Ordering
    requires number { IsTrue (is_number_at problem.now problem.now.root criterion.now.value) }
    requires shaped { IsTrue (is_shaped problem.now a.now) }
    requires other_shaped { IsTrue (is_shaped problem.now b.now) }
    ensures { result ≡ int_cmp
        (rank_value problem.now a.now criterion.now) (rank_value problem.now b.now criterion.now) }
{
    let x = value_of(problem, criterion, a);
    let y = value_of(problem, criterion, b);
    if criterion.maximise {
        y.cmp(&x)
    } else {
        x.cmp(&y)
    }
}

/// The value of each criterion at the root product, in order. A maximised one isn't negated. It
/// computes each criterion once, and takes no memory.
pub fn criteria_values(problem: &Problem, order: &Order, c: &Configuration, into: &mut [i64])
    requires order { IsValidOrder problem.now order.now }
    requires shaped { IsTrue (is_shaped problem.now c.now) }
    requires each_criterion { length into.old ≡ length order.now.criteria }
    ensures { into.new ≡ criteria_values_of problem.now order.now c.now }
{
    let criteria = order.criteria.as_slice();
    for (i, criterion) in criteria.iter().enumerate() {
        into[i] = value_of(problem, criterion, c);
    }
}

/// The value of a criterion, which is a number, at the root product.
#[tactic(auto, using(crate::proofs::Numbers::at_root))]
fn value_of(problem: &Problem, criterion: &Criterion, c: &Configuration) -> i64
    requires number { IsTrue (is_number_at problem.now problem.now.root criterion.now.value) }
    requires shaped { IsTrue (is_shaped problem.now c.now) }
    ensures { result ≡ number_at problem.now c.now 0 criterion.now.value }
{
    match value_at(problem, c, 0, &criterion.value) {
        Found::Number(n) => n,
        Found::Truth(_) => 0,
    }
}
