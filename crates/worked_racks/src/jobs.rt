//! Jobs on worked models.
ghost use Rattle.std.specs.Prelude.{◌≡◌, [], None, true, false, IfOk, length, replicate};
ghost use Rattle.prod_model.specs.Valid.{IsValidOrder};
ghost use Rattle.worked_racks.specs.Goals.{goal_of};

use prod_model::{Items, Order, Problem};
use reason_trail::{Goal, Job};
use std::alloc::{AllocError, Global};
use std::test::Fail;
use worked_models::satisfying::{order_of, problem_of};

/// The job of a model and an order: all requests are kept, and nothing else is asked.
pub fn job_of(alloc: Global, model: &str, order: &str) -> Result<Job, Fail>
    ensures { IfOk result (λ j. j.goal ≡ goal_of j.order true false) }
{
    job_with(alloc, model, order, true, false)
}

/// The same, where all requests are kept or none, and perhaps any configuration will do.
pub fn job_with(alloc: Global, model: &str, order: &str, keep: bool, any: bool) -> Result<Job, Fail>
    ensures { IfOk result (λ j. j.goal ≡ goal_of j.order keep any) }
{
    let problem = problem_of(alloc, model)?;
    let order = order_of(alloc, &problem, order)?;
    let keep = all_alike(alloc, order.requests.len(), keep)?;
    let goal = Goal {
        keep,
        after: None,
        extra: Items::new(alloc),
        any,
    };
    Ok(job_from(problem, order, goal))
}

/// The job of a goal that has nothing to rank after, and no extras.
fn job_from(problem: Problem, order: Order, goal: Goal) -> Job
    requires order { IsValidOrder problem order }
    requires each { length goal.keep ≡ length order.requests }
    requires after { goal.after ≡ None }
    requires extra { goal.extra ≡ [] }
    ensures { result ≡ record { model = problem; order = order; goal = goal } }
{
    let _model = problem.model();
    Job::from_parts(problem, order, goal)
}

/// So many requests, which are all kept or none.
fn all_alike(alloc: Global, count: usize, keep: bool) -> Result<Items<bool>, AllocError>
    ensures { IfOk result (λ k. k ≡ replicate count keep) }
{
    Ok(Items::from_vec(vec![in alloc; keep; count]?))
}
