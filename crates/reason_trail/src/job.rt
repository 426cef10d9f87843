//! A problem, an order and a goal, which fit each other for the job's whole life.
ghost use Rattle.std.specs.Prelude.{◌≡◌, ◌↔◌, IsTrue, IfOk};
ghost use Rattle.reason_trail.specs.Jobs.{Task, IsTask};

use crate::goal::Goal;
use prod_model::{Order, Problem};
use std::alloc::{AllocError, Global};
use std::marker::Model;

/// What a search works on. Contracts see its model, its order and its goal: the order is valid for
/// the model, the goal has a place for each request, what it ranks after is shaped, its extras are
/// truths at the root type, and any will do only where nothing has to rank after another.
#[derive(Drop)]
pub struct Job {
    problem: Problem,
    order: Order,
    goal: Goal,
}

impl Model for Job {
    ghost use Rattle.reason_trail.specs.Jobs.{Task, IsTask};
    ghost use Rattle.prod_model.specs.contracts.expr.Expr as e;
    ghost use Rattle.std.specs.Coded.{codes};

    ghost Value = { Task };

    ghost coded = { Prim.hlevel (codes, e.the_row.coded) };

    ghost view = { λ j. record { model = j.problem; order = j.order; goal = j.goal } };

    ghost invariant = { λ j.
        IsTask (record { model = j.problem; order = j.order; goal = j.goal }) };
}

impl Job {
    /// The job of these parts, which fit each other.
    pub fn from_parts(problem: Problem, order: Order, goal: Goal) -> Job
        requires { IsTask (record { model = problem; order = order; goal = goal }) }
        ensures { result ≡ record { model = problem; order = order; goal = goal } }
    {
        Job {
            problem,
            order,
            goal,
        }
    }

    /// Its problem.
    pub fn problem(&self) -> &Problem
        ensures problem { result.now ≡ self.now.model }
        ensures fitting { IsTask self.now }
    {
        &self.problem
    }

    /// Its order.
    pub fn order(&self) -> &Order
        ensures { result.now ≡ self.now.order }
    {
        &self.order
    }

    /// Its goal.
    pub fn goal(&self) -> &Goal
        ensures { result.now ≡ self.now.goal }
    {
        &self.goal
    }

    /// Whether the two are the same in all parts. It takes no memory.
    pub fn same(&self, other: &Job) -> bool
        ensures { IsTrue result ↔ (self.now ≡ other.now) }
    {
        self.problem.same(&other.problem)
            && self.order.same(&other.order)
            && self.goal.same(&other.goal)
    }

    /// The same job in memory of its own. `AllocError` where memory runs out.
    pub fn copy(&self, alloc: Global) -> Result<Job, AllocError>
        ensures { IfOk result (λ j. j ≡ self.now) }
    {
        Ok(Job {
            problem: self.problem.copy(alloc)?,
            order: self.order.copy(alloc)?,
            goal: self.goal.copy(alloc)?,
        })
    }
}
