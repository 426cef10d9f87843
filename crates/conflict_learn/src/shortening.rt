//! Lists of literals without those that say nothing beside the others.
ghost use Rattle.std.specs.Prelude.{◌≡◌, not, IfOk, OnOk};
ghost use Rattle.std.specs.List.{filter, list_any};
ghost use Rattle.conflict_learn.specs.Implied.{implies as implies_of};
ghost use Rattle.conflict_learn.specs.steps.Shortened.{IsShortened, kept_with, holds_always as always_holds};

use crate::implying::implies;
use literal_book::Literal;
use prod_model::Problem;
use reason_trail::Trail;
use std::alloc::{AllocError, Global};

/// The literals without those that others imply, in order. It compares each with each, and takes
/// memory for the list alone. `AllocError` where memory runs out.
pub(crate) fn without_implied(
    alloc: Global,
    problem: &Problem,
    literals: &[Literal],
) -> Result<Vec<Literal>, AllocError>
    ensures { IfOk result (λ ls. IsShortened problem.now literals.now ls.items) }
{
    // What implies another holds only where that does in a valid model, as that of a problem is.
    let _model = problem.model();
    let mut kept = Vec::new(alloc);
    for l in literals {
        keep(problem, &mut kept, *l)?;
    }
    Ok(kept)
}

/// Puts one more behind the kept literals, unless one of them implies it, and drops those that it
/// implies.
fn keep(problem: &Problem, kept: &mut Vec<Literal>, l: Literal) -> Result<(), AllocError>
    ensures { OnOk result (kept.new.items ≡ kept_with problem.now kept.old.items l) }
{
    if !is_implied(problem, kept, &l) {
        drop_implied(problem, kept, &l);
        kept.push(l)?;
    }
    Ok(())
}

fn is_implied(problem: &Problem, kept: &[Literal], l: &Literal) -> bool
    ensures { result ≡ list_any (λ k. implies_of problem.now k l.now) kept.now }
{
    kept.iter().any(|k| implies(problem, k, l))
}

fn drop_implied(problem: &Problem, kept: &mut Vec<Literal>, l: &Literal)
    ensures { kept.new.items ≡ filter (λ k. not (implies_of problem.now l.now k)) kept.old.items }
{
    kept.retain(|k| !implies(problem, l, k));
}

/// Those of the literals that the root state doesn't entail, in order: the others hold in every
/// configuration that satisfies the model. `AllocError` where memory runs out.
pub(crate) fn not_always(
    alloc: Global,
    trail: &Trail,
    literals: &[Literal],
) -> Result<Vec<Literal>, AllocError>
    ensures { IfOk result (λ ls.
        ls.items ≡ filter (λ l. not (always_holds trail.now.job.model l)) literals.now) }
{
    literals
        .iter()
        .copied()
        .filter(|l| !holds_always(trail, l))
        .collect(alloc)
}

/// Whether the root state entails the literal.
fn holds_always(trail: &Trail, l: &Literal) -> bool
    ensures { result ≡ always_holds trail.now.job.model l.now }
{
    trail.root().entails(trail.job().problem(), l)
}
