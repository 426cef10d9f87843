//! What a model and an order without fault result in, found by a solver.
ghost use Rattle.std.specs.Prelude.{◌≡◌, ◌≤◌, length, IfOk};
ghost use Rattle.prod_model.specs.Valid.{IsValidOrder};
ghost use Rattle.config_value.specs.Satisfies.{all_kept};
ghost use Rattle.quickxplain.specs.Explains.{ArePlacesOfPreferred, all_of};
ghost use Rattle.config_cli.specs.Results.{IsPreferredOutcome};
ghost use Rattle.config_cli.specs.steps.Calls.{IsOfOutcome};
ghost use Rattle.config_cli.specs.steps.Clashes.{CanBeMet};

use crate::asking::Asking;
use crate::outcome::Outcome;
use crate::status::Status;
use canonical_form::{write_answer, write_conflict};
use criteria_order::Solver;
use prod_model::{Order, Problem};
use quickxplain::{Explained, explain};
use std::alloc::{AllocError, Global};

/// The preferred configuration, where all requests can be met; else the preferred conflict. The
/// solver is one for this problem and order.
pub fn preferred_outcome<S: Solver + Drop>(
    alloc: Global,
    problem: &Problem,
    order: &Order,
    mut solver: S,
) -> Result<Outcome, AllocError>
    requires problem { S.problem solver ≡ problem.now }
    requires order { S.order solver ≡ order.now }
    requires valid { IsValidOrder problem.now order.now }
    ensures outcome { IfOk result (λ a.
        IsPreferredOutcome problem.now order.now a.status a.text.items) }
    ensures status { IfOk result (λ a. IsOfOutcome a.status) }
{
    // The model is valid.
    let _model = problem.model();
    let all = all_requests(alloc, order)?;
    match solver.best(&all, None, &[])? {
        Some(c) => Ok(Outcome {
            status: Status::Preferred,
            text: write_answer(alloc, problem, &c)?,
        }),
        None => clash_outcome(alloc, order, solver),
    }
}

/// The set of all requests of an order.
#[tactic(auto, using(crate::proofs::ConflictLaws::all_kept_is))]
fn all_requests(alloc: Global, order: &Order) -> Result<Vec<bool>, AllocError>
    ensures { IfOk result (λ all. all.items ≡ all_kept order.now) }
{
    Ok(vec![in alloc; true; order.requests.len()]?)
}

/// The preferred conflict, where not all requests can be met together.
fn clash_outcome<S: Solver + Drop>(
    alloc: Global,
    order: &Order,
    solver: S,
) -> Result<Outcome, AllocError>
    requires order { S.order solver ≡ order.now }
    requires valid { IsValidOrder (S.problem solver) order.now }
    requires clash { ¬ CanBeMet (S.problem solver) order.now (all_kept order.now) }
    ensures outcome { IfOk result (λ a.
        IsPreferredOutcome (S.problem solver) order.now a.status a.text.items) }
    ensures status { IfOk result (λ a. IsOfOutcome a.status) }
{
    let n = order.requests.len() as u32;
    let members = clash(alloc, Asking::new(solver), n)?;
    Ok(Outcome {
        status: Status::Conflict,
        text: write_conflict(alloc, order, &members)?,
    })
}

/// The places of the requests of the preferred conflict.
fn clash<S: Solver + Drop>(
    alloc: Global,
    mut asking: Asking<S>,
    n: u32,
) -> Result<Vec<u32>, AllocError>
    requires each_request { n ≡ length (S.order asking.solver).requests }
    requires few { n ≤ 64 }
    requires clash { ¬ CanBeMet (S.problem asking.solver) (S.order asking.solver) (all_of n) }
    ensures { IfOk result (λ v. ArePlacesOfPreferred
        (CanBeMet (S.problem asking.solver) (S.order asking.solver)) n v.items) }
{
    match explain(alloc, &mut asking, n)? {
        Explained::Conflict(members) => Ok(members),
        // They clash, so this does not come.
        Explained::NoConflict => Ok(Vec::new(alloc)),
    }
}
