//! The cut by the best answer so far.
ghost use Rattle.std.specs.Prelude.{◌≡◌, IsTrue};
ghost use Rattle.std.specs.Ordering.{int_cmp};
ghost use Rattle.std.specs.Cmp.Lexicographic.{slice_cmp};
ghost use Rattle.prod_model.specs.ExprBounds.{is_number_at};
ghost use Rattle.config_value.specs.Shaped.{is_shaped};
ghost use Rattle.config_value.specs.Value.{number_at as value_in};
ghost use Rattle.state_space.specs.State.{IsState};
ghost use Rattle.state_values.specs.Lowest.{lowest_value};
ghost use Rattle.state_values.specs.WholeDomains.{AreDomainsWhole};
ghost use Rattle.criteria_order.specs.steps.Ranks.{rank_value, rank_values, are_numbers};
ghost use Rattle.reason_trail.specs.Jobs.{IsWanted};
ghost use Rattle.branch_cut.specs.Cuts.{IsDead, IsCutDemanded};
ghost use Rattle.branch_cut.specs.steps.Lows.{lowest_values};

use answer_check::value_at;
use config_value::{Configuration, Found};
use partial_state::Partial;
use prod_model::{Criterion, Problem};
use reason_trail::Job;
use state_values::{key_start_cmp, number_at};
use std::cmp::Ordering;

/// Whether the least rank that a configuration of the state can have, and at equal ranks the least
/// key, come after those of the best answer so far. Then no configuration that the state covers and
/// that satisfies the model beats that one. It computes each criterion once for the state and once
/// for the best answer, and takes no memory.
pub fn cut_dead(job: &Job, p: &Partial, best: &Configuration) -> bool
    requires state { IsState job.now.model p.now }
    requires whole { AreDomainsWhole job.now.model p.now }
    requires wanted { IsWanted job.now best.now }
    ensures dead { IsTrue result → IsDead job.now p.now best.now }
    ensures demanded { IsCutDemanded job.now p.now best.now → IsTrue result }
{
    let problem = job.problem();
    match lowest_cmp(problem, job.order().criteria.as_slice(), p, best) {
        Ordering::Less => false,
        Ordering::Equal => key_start_cmp(problem, p, best).is_gt(),
        Ordering::Greater => true,
    }
}

/// Compares the lowest values of criteria in a state with those of a configuration: the first that
/// tells them apart decides.
fn lowest_cmp(
    problem: &Problem,
    criteria: &[Criterion],
    p: &Partial,
    best: &Configuration,
) -> Ordering
    requires state { IsState problem.now p.now }
    requires numbers { IsTrue (are_numbers problem.now criteria.now) }
    requires shaped { IsTrue (is_shaped problem.now best.now) }
    ensures { result ≡ slice_cmp int_cmp
        (lowest_values problem.now p.now criteria.now)
        (rank_values problem.now best.now criteria.now) }
{
    match criteria.split_first() {
        None => Ordering::Equal,
        Some((first, rest)) => match criterion_cmp(problem, first, p, best) {
            Ordering::Equal => lowest_cmp(problem, rest, p, best),
            decided => decided,
        },
    }
}

/// Compares the lowest value of one criterion in a state with that of a configuration.
#[tactic(auto, using(criteria_order::proofs::Negated::int_cmp_negated))]
fn criterion_cmp(
    problem: &Problem,
    criterion: &Criterion,
    p: &Partial,
    best: &Configuration,
) -> Ordering
    requires state { IsState problem.now p.now }
    requires number { IsTrue (is_number_at problem.now problem.now.root criterion.now.value) }
    requires shaped { IsTrue (is_shaped problem.now best.now) }
    ensures { result ≡ int_cmp
        (lowest_value problem.now p.now criterion.now)
        (rank_value problem.now best.now criterion.now) }
{
    let root = problem.model().root;
    let seen = number_at(problem, p, &criterion.value, root, 0);
    let value = value_of(problem, criterion, best);
    if criterion.maximise {
        value.cmp(&seen.high)
    } else {
        seen.low.cmp(&value)
    }
}

/// The value of a criterion, which is a number, at the root product.
#[tactic(auto, using(criteria_order::proofs::Numbers::at_root))]
fn value_of(problem: &Problem, criterion: &Criterion, c: &Configuration) -> i64
    requires number { IsTrue (is_number_at problem.now problem.now.root criterion.now.value) }
    requires shaped { IsTrue (is_shaped problem.now c.now) }
    ensures { result ≡ value_in problem.now c.now 0 criterion.now.value }
{
    match value_at(problem, c, 0, &criterion.value) {
        Found::Number(n) => n,
        Found::Truth(_) => 0,
    }
}
