//! Whether a configuration is sought, and whether it beats the best so far. Nothing here takes
//! memory.
ghost use Rattle.std.specs.Prelude.{◌≡◌, ◌↔◌, ◌<◌, ◌||◌, not, IsTrue, IfSome, length};
ghost use Rattle.base_laws.specs.Places.{IsAt};
ghost use Rattle.prod_model.specs.declared.model.Request.{Request};
ghost use Rattle.std.specs.List.{list_all};
ghost use Rattle.prod_model.specs.ExprBounds.{is_truth_at};
ghost use Rattle.config_value.specs.Shaped.{is_shaped};
ghost use Rattle.config_value.specs.Spelled.{is_spelled};
ghost use Rattle.config_value.specs.Satisfies.{satisfies as satisfies_of, meets as meets_of, meets_kept as meets_kept_of};
ghost use Rattle.config_value.specs.Value.{is_true_at};
ghost use Rattle.criteria_order.specs.Wanted.{meets_extra as meets_extra_of, ranks_after as ranks_after_of};
ghost use Rattle.literal_book.specs.Nogoods.{in_piece};
ghost use Rattle.reason_trail.specs.Jobs.{IsWanted, beats_best as beats_best_of};
ghost use Rattle.seq_search.specs.Quests.{IsSought};

use answer_check::{Verdict, check, meets, value_at};
use config_value::{Configuration, Found};
use criteria_order::rank_cmp;
use literal_book::{Piece, holds_in};
use prod_model::{Expr, Problem};
use reason_trail::Job;

/// Whether a configuration is wanted and in the piece.
#[tactic(auto, using(crate::proofs::Sought::satisfied_is_shaped, crate::proofs::Sought::sought_exactly))]
pub(crate) fn is_sought(job: &Job, piece: &Piece, c: &Configuration) -> bool
    requires { IsTrue (is_spelled job.now.model c.now) }
    ensures { IsTrue result ↔ IsSought job.now piece.now c.now }
{
    if !satisfies(job, c) {
        return false;
    }
    meets_kept(job, c)
        && (meets_extra(job, c) && (ranks_after(job, c) && is_in(piece, job.problem(), c)))
}

/// Whether it satisfies the model.
fn satisfies(job: &Job, c: &Configuration) -> bool
    requires { IsTrue (is_spelled job.now.model c.now) }
    ensures { result ≡ satisfies_of job.now.model c.now }
{
    match check(job.problem(), c) {
        Verdict::Satisfied => true,
        Verdict::Broken { .. } => false,
    }
}

/// Whether it meets each request that is kept.
fn meets_kept(job: &Job, c: &Configuration) -> bool
    requires { IsTrue (is_shaped job.now.model c.now) }
    ensures { result ≡ meets_kept_of job.now.model job.now.order job.now.goal.keep c.now }
{
    let _problem = job.problem();
    for (k, kept) in job.goal().keep.as_slice().iter().enumerate() {
        if !meets_if(*kept, job, k as u32, c) {
            return false;
        }
    }
    true
}

/// Whether it meets a request, if that is kept.
fn meets_if(kept: bool, job: &Job, k: u32, c: &Configuration) -> bool
    requires shaped { IsTrue (is_shaped job.now.model c.now) }
    requires request { k < length job.now.order.requests }
    ensures { (r : Request) → IsAt job.now.order.requests k r
        → result ≡ (not kept || meets_of job.now.model c.now r) }
{
    let problem = job.problem();
    !kept || meets(problem, job.order(), k, c)
}

/// Whether each extra is true at its root product.
fn meets_extra(job: &Job, c: &Configuration) -> bool
    requires { IsTrue (is_shaped job.now.model c.now) }
    ensures { result ≡ meets_extra_of job.now.model job.now.goal.extra c.now }
{
    let problem = job.problem();
    all_true(problem, job.goal().extra.as_slice(), c)
}

/// Whether each of some truths is true at the root product.
fn all_true(problem: &Problem, extra: &[Expr], c: &Configuration) -> bool
    requires shaped { IsTrue (is_shaped problem.now c.now) }
    requires truths { IsTrue (list_all (is_truth_at problem.now problem.now.root) extra.now) }
    ensures { result ≡ meets_extra_of problem.now extra.now c.now }
{
    match extra.split_first() {
        None => true,
        Some((first, rest)) => is_true(problem, first, c) && all_true(problem, rest, c),
    }
}

/// Whether a truth is true at the root product.
fn is_true(problem: &Problem, e: &Expr, c: &Configuration) -> bool
    requires shaped { IsTrue (is_shaped problem.now c.now) }
    requires truth { IsTrue (is_truth_at problem.now problem.now.root e.now) }
    ensures { result ≡ is_true_at problem.now c.now 0 e.now }
{
    match value_at(problem, c, 0, e) {
        Found::Truth(truth) => truth,
        Found::Number(_) => false,
    }
}

/// Whether it ranks after the configuration that is given, if one is.
fn ranks_after(job: &Job, c: &Configuration) -> bool
    requires { IsTrue (is_shaped job.now.model c.now) }
    ensures { result ≡ ranks_after_of job.now.model job.now.order job.now.goal.after c.now }
{
    let problem = job.problem();
    match &job.goal().after {
        None => true,
        Some(d) => rank_cmp(problem, job.order(), d, c).is_lt(),
    }
}

/// Whether it is in the piece.
fn is_in(piece: &Piece, problem: &Problem, c: &Configuration) -> bool
    ensures { result ≡ in_piece problem.now piece.now c.now }
{
    piece
        .literals
        .as_slice()
        .iter()
        .all(|l| holds_in(problem, l, c))
}

/// Whether it beats the best so far, if there is one.
pub(crate) fn beats_best(job: &Job, best: &Option<Configuration>, c: &Configuration) -> bool
    requires wanted { IfSome best.now (IsWanted job.now) }
    requires shaped { IsTrue (is_shaped job.now.model c.now) }
    ensures { result ≡ beats_best_of job.now best.now c.now }
{
    let problem = job.problem();
    match best {
        None => true,
        Some(d) => !job.goal().any && rank_cmp(problem, job.order(), c, d).is_lt(),
    }
}
