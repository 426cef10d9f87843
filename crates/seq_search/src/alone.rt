//! A solver that searches by itself, on one thread.
ghost use Rattle.std.specs.Prelude.{◌≡◌, ◌≢◌, ◌↔◌, ◌⊎◌, [], None, IsTrue, IfOk, OnOk, length};
ghost use Rattle.std.specs.Option.{ForSome, option_map};
ghost use Rattle.std.specs.List.{list_all};
ghost use Rattle.prod_model.specs.ExprBounds.{is_truth_at};
ghost use Rattle.prod_model.specs.Valid.{IsValidOrder};
ghost use Rattle.config_value.specs.Shaped.{is_shaped};
ghost use Rattle.criteria_order.specs.Wanted.{SomeIsWanted};
ghost use Rattle.reason_trail.specs.Jobs.{IsBestOf};
ghost use Rattle.seq_search.specs.Quests.{IsUnbeaten};
ghost use Rattle.seq_search.specs.Searches.{IsSearch};
ghost use Rattle.seq_search.specs.Solvers.{asked};

use crate::advance::Advance;
use crate::searcher::Searcher;
use config_value::Configuration;
use criteria_order::Solver;
use literal_book::{Literals, Piece};
use prod_model::{Expr, Items, Order, Problem};
use reason_trail::{Goal, Job, Propagate};
use std::alloc::{AllocError, Global};
use std::marker::{Model, PhantomData};

/// How many nodes are expanded before a search is asked again whether it is done.
const TURNS: u32 = 1024;

/// A propagator that can be made for any job.
pub trait MakeProps: Propagate {
    /// Makes one for a job. `AllocError` where memory runs out.
    fn make(alloc: Global, job: &Job) -> Result<Self, AllocError>
        ensures { IfOk result (λ p. Self.job p ≡ job.now) };
}

/// A solver for one problem and order. Each call is a search of its own, with a propagator that is
/// made for it, and nothing is carried from one call to the next.
#[derive(Drop)]
pub struct Alone<P: MakeProps> {
    alloc: Global,
    problem: Problem,
    order: Order,
    props: PhantomData<P>,
}

impl<P: MakeProps> Model for Alone<P> {
    ghost use Rattle.prod_model.specs.Valid.{IsValidOrder};
    ghost use Rattle.prod_model.specs.contracts.expr.Expr as e;
    ghost use Rattle.std.specs.Coded.{codes};
    ghost use Rattle.seq_search.specs.Solvers.{Ordered};

    ghost Value = { Ordered };

    ghost coded = { Prim.hlevel (codes, e.the_row.coded) };

    ghost view = { λ s. record { model = s.problem; order = s.order } };

    ghost invariant = { λ s. IsValidOrder s.problem s.order };
}

impl<P: MakeProps + Drop> Alone<P> {
    /// A solver for copies of a problem and of an order that is valid for it. `AllocError` where
    /// memory runs out.
    pub fn new(alloc: Global, problem: &Problem, order: &Order) -> Result<Alone<P>, AllocError>
        requires { IsValidOrder problem.now order.now }
        ensures { IfOk result (λ s. s ≡ record { model = problem.now; order = order.now }) }
    {
        Ok(Alone {
            alloc,
            problem: problem.copy(alloc)?,
            order: order.copy(alloc)?,
            props: PhantomData,
        })
    }

    /// The job of finding the best, or any, of what is asked for.
    fn job(
        &self,
        keep: &[bool],
        after: Option<&Configuration>,
        extra: &[Expr],
        any: bool,
    ) -> Result<Job, AllocError>
        requires each_request { length keep.now ≡ length self.now.order.requests }
        requires shaped { ForSome after (λ d. IsTrue (is_shaped self.now.model d.now)) }
        requires truths { IsTrue
            (list_all (is_truth_at self.now.model self.now.model.root) extra.now) }
        requires any_alone { IsTrue any → after ≡ None }
        ensures { IfOk result (λ j. j
            ≡ asked self.now keep.now (option_map (λ d. d.now) after.entry) extra.now any) }
    {
        let problem = self.problem.copy(self.alloc)?;
        let _model = problem.model();
        let order = self.order.copy(self.alloc)?;
        let goal = goal_of(self.alloc, keep, after, extra, any)?;
        Ok(Job::from_parts(problem, order, goal))
    }
}

impl<P: MakeProps + Drop> Solver for Alone<P> {
    ghost problem = { λ s. s.model };

    ghost order = { λ s. s.order };

    fn best(
        &mut self,
        keep: &[bool],
        after: Option<&Configuration>,
        extra: &[Expr],
    ) -> Result<Option<Configuration>, AllocError> {
        let job = self.job(keep, after, extra, false)?;
        let best = best_of::<P>(self.alloc, &job);
        drop(job);
        best
    }

    fn exists(&mut self, keep: &[bool], extra: &[Expr]) -> Result<bool, AllocError> {
        let job = self.job(keep, None, extra, true)?;
        let found = is_any_wanted::<P>(self.alloc, &job);
        drop(job);
        found
    }
}

/// The goal of these parts.
fn goal_of(
    alloc: Global,
    keep: &[bool],
    after: Option<&Configuration>,
    extra: &[Expr],
    any: bool,
) -> Result<Goal, AllocError>
    ensures { IfOk result (λ g. g ≡ record {
      keep = keep.now;
      after = option_map (λ d. d.now) after.entry;
      extra = extra.now;
      any = any;
    }) }
{
    let after = match after {
        Some(c) => Some(c.copy(alloc)?),
        None => None,
    };
    Ok(Goal {
        keep: Items::from_slice(alloc, keep)?,
        after,
        extra: copy_all(alloc, extra)?,
        any,
    })
}

fn copy_all(alloc: Global, extra: &[Expr]) -> Result<Items<Expr>, AllocError>
    ensures { IfOk result (λ c. c ≡ extra.now) }
{
    let mut copies = Items::new(alloc);
    for e in extra {
        copies.push(e.copy(alloc)?)?;
    }
    Ok(copies)
}

/// The best of a job.
fn best_of<P: MakeProps + Drop>(
    alloc: Global,
    job: &Job,
) -> Result<Option<Configuration>, AllocError>
    ensures { IfOk result (IsBestOf job.now) }
{
    let mut search = search_of::<P>(alloc, job)?;
    let best = best_in(alloc, &mut search, job);
    drop(search);
    best
}

/// The best of a search for all configurations, which it runs to its end.
fn best_in<P: Propagate + Drop>(
    alloc: Global,
    search: &mut Searcher<P>,
    job: &Job,
) -> Result<Option<Configuration>, AllocError>
    requires job { job.now ≡ search.old.job }
    requires whole { search.old.piece.literals ≡ [] }
    ensures { IfOk result (IsBestOf job.now) }
{
    run_to_end(search, job)?;
    match search.best_so_far() {
        Some(c) => Ok(Some(c.copy(alloc)?)),
        None => Ok(None),
    }
}

/// Whether anything is wanted of a job. It stops at the first that is found.
fn is_any_wanted<P: MakeProps + Drop>(alloc: Global, job: &Job) -> Result<bool, AllocError>
    ensures { IfOk result (λ b. IsTrue b ↔ SomeIsWanted job.now.model job.now.order
        job.now.goal.keep job.now.goal.after job.now.goal.extra) }
{
    let mut search = search_of::<P>(alloc, job)?;
    let found = is_any_in(&mut search, job);
    drop(search);
    found
}

/// Whether anything is found by a search for all configurations, which it runs to the first.
fn is_any_in<P: Propagate + Drop>(search: &mut Searcher<P>, job: &Job) -> Result<bool, AllocError>
    requires job { job.now ≡ search.old.job }
    requires whole { search.old.piece.literals ≡ [] }
    ensures { IfOk result (λ b. IsTrue b ↔ SomeIsWanted job.now.model job.now.order
        job.now.goal.keep job.now.goal.after job.now.goal.extra) }
{
    run_to_first(search, job)?;
    Ok(has_best(search))
}

/// A search of a job in the piece of all configurations.
fn search_of<P: MakeProps + Drop>(alloc: Global, job: &Job) -> Result<Searcher<P>, AllocError>
    ensures job { IfOk result (λ s. s.job ≡ job.now) }
    ensures whole { IfOk result (λ s. s.piece.literals ≡ []) }
{
    let props = P::make(alloc, job)?;
    let piece = Piece {
        literals: Literals::new(alloc),
    };
    Searcher::start(alloc, job, piece, props)
}

/// Expands nodes until no branch is open. It ends, since what is left weighs less with each node.
fn run_to_end<P: Propagate + Drop>(search: &mut Searcher<P>, job: &Job) -> Result<(), AllocError>
    requires { job.now ≡ search.old.job }
    ensures done { OnOk result (search.new.branches ≡ []) }
    ensures same_job { OnOk result (search.new.job ≡ search.old.job) }
    ensures same_piece { OnOk result (search.new.piece ≡ search.old.piece) }
{
    'nodes: loop {
        match search.advance(job, TURNS)? {
            Advance::Done => return Ok(()),
            Advance::More => {}
        }
    }
}

/// Expands nodes until something is found or no branch is open.
fn run_to_first<P: Propagate + Drop>(search: &mut Searcher<P>, job: &Job) -> Result<(), AllocError>
    requires { job.now ≡ search.old.job }
    ensures done { OnOk result ((search.new.best ≢ None) ⊎ (search.new.branches ≡ [])) }
    ensures same_job { OnOk result (search.new.job ≡ search.old.job) }
    ensures same_piece { OnOk result (search.new.piece ≡ search.old.piece) }
{
    'nodes: while !has_best(search) {
        match search.advance(job, 1)? {
            Advance::Done => return Ok(()),
            Advance::More => {}
        }
    }
    Ok(())
}

/// Whether something was found.
fn has_best<P: Propagate + Drop>(search: &Searcher<P>) -> bool
    ensures found { IsTrue result ↔ (search.now.best ≢ None) }
    ensures search { IsSearch search.now }
    ensures done { search.now.branches ≡ []
        → IsUnbeaten search.now.job search.now.piece search.now.best }
{
    search.best_so_far().is_some()
}
