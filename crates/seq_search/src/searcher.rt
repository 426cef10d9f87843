//! The search within a piece, on one thread.
ghost use Rattle.std.specs.Prelude.{◌≡◌, ◌≢◌, ◌≤◌, ◌↔◌, ◌++◌, [], List, length, IsTrue, IfOk, OnOk, OnErr, None, option_to_list};
ghost use Rattle.std.specs.Option.{ForSome, option_copied};
ghost use Rattle.literal_book.specs.Nogoods.{IsSound};
ghost use Rattle.reason_trail.specs.Jobs.{IsWanted, beats_best as beats_best_of};
ghost use Rattle.seq_search.specs.Quests.{IsUnbeaten};
ghost use Rattle.seq_search.specs.Searches.{IsSearch, IsBegun, IsImported, most_in_piece, with_learnt, lowered};
ghost use Rattle.seq_search.specs.Advances.{IsNode, IsAdvanced, IsStopped};

use crate::advance::Advance;
use crate::expand::expand;
use crate::open_branch::OpenBranch;
use crate::seeking::beats_best;
use crate::starting::lay_ground;
use config_value::Configuration;
use literal_book::{Added, Nogood, Piece};
use nogood_store::Store;
use reason_trail::{Job, Propagate, Trail};
use std::alloc::{AllocError, Global};
use std::collections::VecDeque;
use std::marker::Model;

/// A search for the best configuration within a piece, by a propagator. It goes down from state to
/// state along one trail, the first way on first, and comes back to the ways that were left open:
/// these are lengths of the trail. What can't beat the best so far is cut.
#[derive(Drop)]
pub struct Searcher<P: Propagate> {
    alloc: Global,
    trail: Trail,
    props: P,
    store: Store,
    piece: Piece,
    branches: Vec<OpenBranch>,
    best: Option<Configuration>,
    learnt: VecDeque<Nogood>,
}

impl<P: Propagate> Model for Searcher<P> {
    ghost use Rattle.seq_search.specs.Searches.{Search};
    ghost use Rattle.prod_model.specs.contracts.expr.Expr as e;
    ghost use Rattle.std.specs.Coded.{codes};

    ghost Value = { Search };

    ghost coded = { Prim.hlevel (codes, e.the_row.coded) };

    ghost use Rattle.seq_search.specs.steps.Opens.{search_of, IsKept};

    ghost view = { λ s. search_of s.trail s.store s.piece s.branches.items s.best s.learnt.items };

    ghost invariant = { λ s. IsKept (P.job s.props) s.trail s.store s.piece s.branches.items s.best
        s.learnt.items };
}

impl<P: Propagate + Drop> Searcher<P> {
    /// The search of a job within a piece of at most 32 literals, by a propagator that was made for
    /// the job. It keeps a copy of the job. The literals of the piece needn't fit: those that do
    /// are assumed, and all are tested in the end. `AllocError` where memory runs out.
    pub fn start(
        alloc: Global,
        job: &Job,
        piece: Piece,
        props: P,
    ) -> Result<Searcher<P>, AllocError>
        requires short { length piece.literals ≤ most_in_piece }
        requires props { P.job props ≡ job.now }
        ensures { IfOk result (IsBegun job.now piece) }
    {
        match lay_ground(alloc, job, &piece) {
            Ok(ground) => Ok(Searcher {
                alloc,
                trail: ground.trail,
                props,
                store: ground.store,
                piece,
                branches: ground.branches,
                best: None,
                learnt: VecDeque::new(alloc),
            }),
            Err(e) => {
                drop(props);
                drop(piece);
                Err(e)
            }
        }
    }

    /// Expands up to so many nodes. After `AllocError` it is as after its last whole node.
    pub fn advance(&mut self, job: &Job, turns: u32) -> Result<Advance, AllocError>
        requires job { job.now ≡ self.old.job }
        requires some { 1 ≤ turns }
        ensures advanced { IfOk result (IsAdvanced P.settled turns self.old self.new) }
        ensures stopped { OnErr result (IsStopped P.settled turns self.old self.new) }
    {
        for _turn in 0..turns {
            if self.is_done() {
                return Ok(Advance::Done);
            }
            self.expand(job)?;
        }
        if self.is_done() {
            return Ok(Advance::Done);
        }
        Ok(Advance::More)
    }

    /// Takes a sound nogood of another search. `TooLong` where it has more than 32 literals, else
    /// `Full` where 20,000 are held; then, and after `AllocError`, nothing has changed.
    pub fn import(&mut self, nogood: Nogood) -> Result<Added, AllocError>
        requires { IsSound self.old.job.model self.old.job.order nogood }
        ensures imported { IfOk result (λ a. IsImported nogood a self.old self.new) }
        ensures unchanged { OnErr result (self.new ≡ self.old) }
    {
        Ok(self.store.add(nogood)?)
    }

    /// How many nogoods it holds: those that were imported, and those that it learnt.
    pub fn held(&self) -> u32
        ensures { result ≡ length self.now.nogoods }
    {
        self.store.len()
    }

    /// The next nogood that it learnt itself and holds, in the order in which it learnt them, each
    /// once. `None` where none is left. It takes no memory.
    pub fn export(&mut self) -> Option<Nogood>
        ensures next { self.old.learnt ≡ option_to_list result ++ self.new.learnt }
        ensures none { (result ≡ None) ↔ (self.old.learnt ≡ []) }
        ensures sound { ForSome result (IsSound self.old.job.model self.old.job.order) }
        ensures rest { self.new ≡ with_learnt self.old self.new.learnt }
    {
        self.learnt.pop_front()
    }

    /// Takes a wanted configuration as the best so far, where it beats the kept one or none is
    /// kept. It takes no memory.
    pub fn lower(&mut self, c: Configuration)
        requires { IsWanted self.old.job c }
        ensures { self.new ≡ lowered self.old c }
    {
        if !self.is_beaten_by(&c) {
            return;
        }
        self.best = Some(c);
    }

    /// The best so far: a wanted configuration that was found in the piece or given to `lower`.
    /// Where no branch is open nothing that is wanted in the piece beats it, and there is none only
    /// where nothing is. It takes no memory.
    pub fn best_so_far(&self) -> Option<&Configuration>
        ensures best { option_copied result ≡ self.now.best }
        ensures search { IsSearch self.now }
        ensures done { self.now.branches ≡ []
            → IsUnbeaten self.now.job self.now.piece self.now.best }
    {
        let _task = self.trail.job();
        let _store = self.store.len();
        match &self.best {
            None => None,
            Some(c) => Some(c),
        }
    }

    /// Expands one node. After `AllocError` nothing has changed.
    fn expand(&mut self, job: &Job) -> Result<(), AllocError>
        requires job { job.now ≡ self.old.job }
        requires open_left { self.old.branches ≢ [] }
        ensures node { OnOk result (IsNode P.settled self.old self.new) }
        ensures unchanged { OnErr result (self.new ≡ self.old) }
    {
        Ok(expand(
            self.alloc,
            &mut self.trail,
            &mut self.props,
            &mut self.store,
            job,
            &self.piece,
            &mut self.branches,
            &mut self.best,
            &mut self.learnt,
        )?)
    }

    /// Whether no branch is open.
    fn is_done(&self) -> bool
        ensures { IsTrue result ↔ (self.now.branches ≡ []) }
    {
        self.branches.is_empty()
    }

    /// Whether a wanted configuration beats the best so far, if there is one.
    fn is_beaten_by(&self, c: &Configuration) -> bool
        requires { IsWanted self.now.job c.now }
        ensures { result ≡ beats_best_of self.now.job self.now.best c.now }
    {
        beats_best(self.trail.job(), &self.best, c)
    }
}
