//! The trail of a search.
ghost use Rattle.std.specs.Prelude.{◌≡◌, ◌<◌, ◌≤◌, ◌^◌, ◌++◌, ◌∷◌, [], ℕ, IsTrue, IfOk, OnOk, OnErr, None, length};
ghost use Rattle.base_laws.specs.Places.{IsAt};
ghost use Rattle.state_space.specs.State.{IsState};
ghost use Rattle.state_space.specs.Entails.{entails as entails_of, fits as fits_of};
ghost use Rattle.state_space.specs.Root.{root as root_of};
ghost use Rattle.state_space.specs.Unshared.{IsWide};
ghost use Rattle.state_space.specs.Described.{entails_all};
ghost use Rattle.reason_trail.specs.declared.reason.Why.TheVariants.{Assumed, Written, Here};
ghost use Rattle.reason_trail.specs.Jobs.{IsTask};
ghost use Rattle.reason_trail.specs.Reasons.{IsWhy, Supports, SupportsHere};
ghost use Rattle.reason_trail.specs.Trails.{Stage, IsTrail, IsPushed, length_of, started, state_at, cut_to};

use crate::entry::{Entry, Marked};
use crate::job::Job;
use crate::reason::{Reason, Why};
use config_value::Literal;
use domain_store::Change;
use partial_state::{ChangeLog, Partial};
use std::alloc::{AllocError, Global};
use std::marker::Model;

/// The trail of a search: its job, and one entry for each change of its state, the oldest first. It
/// keeps one state with the log of its changes, and for each entry the length that the log had, so
/// an entry costs no more than its change and its reason. Contracts see the job, the state before
/// each entry, the entries, and the state that it has come to; there are fewer than 2^32 entries.
#[derive(Drop)]
pub struct Trail {
    pub(crate) alloc: Global,
    job: Job,
    root: Partial,
    state: Partial,
    log: ChangeLog,
    entries: Vec<Marked>,
}

impl Model for Trail {
    ghost use Rattle.reason_trail.specs.Trails.{Trace};
    ghost use Rattle.prod_model.specs.contracts.expr.Expr as e;
    ghost use Rattle.std.specs.Coded.{codes};

    ghost Value = { Trace };

    ghost coded = { Prim.hlevel (codes, e.the_row.coded) };

    ghost use Rattle.reason_trail.specs.steps.Marks.{trace_of, IsKept};

    ghost view = { λ t. trace_of t.job t.state t.log t.entries.items };

    ghost invariant = { λ t. IsKept t.job t.root t.state t.log t.entries.items };
}

impl Trail {
    /// The trail of a job, at the root state of its problem, without entries. It keeps a copy of
    /// the job. `AllocError` where memory runs out.
    pub fn start(alloc: Global, job: &Job) -> Result<Trail, AllocError>
        ensures { IfOk result (λ t. t ≡ started job.now) }
    {
        let job = job.copy(alloc)?;
        let root = Partial::root(alloc, job.problem())?;
        let state = root.copy()?;
        Ok(Trail {
            alloc,
            job,
            root,
            state,
            log: ChangeLog::new(alloc),
            entries: Vec::new(alloc),
        })
    }

    /// Its job.
    pub fn job(&self) -> &Job
        ensures job { result.now ≡ self.now.job }
        ensures right { IsTrail self.now }
    {
        &self.job
    }

    /// The state with which it began: the root state of the problem, which covers every
    /// configuration that satisfies the model.
    pub fn root(&self) -> &Partial
        ensures root { result.now ≡ root_of self.now.job.model }
        ensures state { IsState self.now.job.model result.now }
    {
        &self.root
    }

    /// The state that it has come to.
    #[tactic(auto, using(crate::proofs::Trails::now_is_state, crate::proofs::Trails::now_is_wide))]
    pub fn state(&self) -> &Partial
        ensures state { result.now ≡ self.now.state }
        ensures problem { IsState self.now.job.model self.now.state }
        ensures wide { IsWide self.now.job.model self.now.state }
    {
        &self.state
    }

    /// Whether what the state leaves open forces the literal. It takes no memory.
    pub fn entails(&self, l: &Literal) -> bool
        ensures { result ≡ entails_of self.now.job.model self.now.state l.now }
    {
        self.state.entails(self.job.problem(), l)
    }

    /// Whether the state can be changed by the literal. It takes no memory.
    pub fn fits(&self, l: &Literal) -> bool
        ensures { result ≡ fits_of self.now.job.model self.now.state l.now }
    {
        self.state.fits(self.job.problem(), l)
    }

    /// How many entries it has.
    pub fn len(&self) -> u32
        ensures { result ≡ length_of self.now }
    {
        self.entries.len() as u32
    }

    /// The entry of a number, from 0, the oldest first: its literal and why that held in the state
    /// before it. A reason that is written out supports its literal, and was entailed.
    pub fn entry(&self, n: u32) -> &Entry
        requires { n < length_of self.now }
        ensures entry { (g : Stage) → IsAt self.now.stages n g → g.entry ≡ result.now }
        ensures because { IsWhy self.now.job (state_at self.now n) result.now.literal
            result.now.why }
    {
        &self.entries[n as usize].entry
    }

    /// Changes the state by a literal that fits, without a reason. Where less is left there is one
    /// entry more; where nothing changes, or nothing would be left, the trail stays as it is.
    /// `AllocError` where memory runs out or no more entries can be counted, and then it is as it
    /// was.
    pub fn assume(&mut self, l: Literal) -> Result<Change, AllocError>
        requires { IsTrue (fits_of self.old.job.model self.old.state l) }
        ensures pushed { IfOk result (λ change. IsPushed l Assumed change self.old self.new) }
        ensures unchanged { OnErr result (self.new ≡ self.old) }
    {
        self.push(l, Why::Assumed)
    }

    /// Changes the state by a literal that fits, for a reason: it supports the literal, and the
    /// state entails its literals. Else it is like `assume`.
    pub fn derive(&mut self, l: Literal, why: Reason) -> Result<Change, AllocError>
        requires fits { IsTrue (fits_of self.old.job.model self.old.state l) }
        requires supported { Supports self.old.job None why l }
        requires entailed { entails_all self.old.job.model self.old.state why.literals }
        ensures pushed { IfOk result (λ change. IsPushed l (Written why) change self.old self.new) }
        ensures unchanged { OnErr result (self.new ≡ self.old) }
    {
        self.push(l, Why::Written(why))
    }

    /// Changes the state by a literal that fits, because of all that the state says of its
    /// instances now: each configuration that it covers has the literal, of those that satisfy the
    /// model, meet the requests, and, where `cut` is set, pass the cut. That reason is not written
    /// out, and costs nothing. Else it is like `derive`.
    pub fn derive_here(
        &mut self,
        l: Literal,
        requests: u64,
        cut: bool,
    ) -> Result<Change, AllocError>
        requires fits { IsTrue (fits_of self.old.job.model self.old.state l) }
        requires supported { SupportsHere self.old.job self.old.state requests cut l }
        ensures pushed { IfOk result (λ change.
            IsPushed l (Here requests cut) change self.old self.new) }
        ensures unchanged { OnErr result (self.new ≡ self.old) }
    {
        self.push(l, Why::Here { requests, cut })
    }

    /// The trail as it was when it had so many entries. It takes no memory, and constant time for
    /// each change that it goes back over.
    pub fn back_to(&mut self, len: u32)
        requires { len ≤ length_of self.old }
        ensures { self.new ≡ cut_to self.old len }
    {
        if self.len() <= len {
            return;
        }
        let mark = self.entries[len as usize].mark;
        self.entries.truncate(len as usize);
        self.state.undo(&mut self.log, mark);
    }

    /// The same trail in memory of its own, by copies of all its parts. `AllocError` where memory
    /// runs out.
    pub fn copy(&self) -> Result<Trail, AllocError>
        ensures { IfOk result (λ t. t ≡ self.now) }
    {
        let job = self.job.copy(self.alloc)?;
        let root = self.root.copy()?;
        let state = self.state.copy()?;
        let log = self.log.copy(self.alloc)?;
        let entries = copy_entries(self.alloc, self.entries.as_slice())?;
        Ok(Trail {
            alloc: self.alloc,
            job,
            root,
            state,
            log,
            entries,
        })
    }

    /// Changes the state by a literal that fits and holds for what is said.
    fn push(&mut self, l: Literal, why: Why) -> Result<Change, AllocError>
        requires fits { IsTrue (fits_of self.old.job.model self.old.state l) }
        requires because { IsWhy self.old.job self.old.state l why }
        ensures pushed { IfOk result (λ change. IsPushed l why change self.old self.new) }
        ensures unchanged { OnErr result (self.new ≡ self.old) }
    {
        let mark = self.log.len();
        let change = self.state.change(self.job.problem(), &l, &mut self.log)?;
        if change != Change::Smaller {
            return Ok(change);
        }
        let entry = Entry { literal: l, why };
        // Where its entry finds no room the change is taken back.
        if let Err(error) = add(&mut self.entries, Marked { entry, mark }) {
            self.state.undo(&mut self.log, mark);
            return Err(error);
        }
        Ok(change)
    }
}

/// Puts an entry at the end. `AllocError` where memory runs out or no more can be counted, and then
/// they are as they were.
fn add(entries: &mut Vec<Marked>, entry: Marked) -> Result<(), AllocError>
    ensures added { OnOk result (entries.new.items ≡ entries.old.items ++ entry ∷ []) }
    ensures few { OnOk result (length entries.new.items < 2 ^ 32) }
    ensures unchanged { OnErr result (entries.new.items ≡ entries.old.items) }
{
    if entries.len() >= u32::MAX as usize {
        return Err(AllocError);
    }
    entries.push(entry)?;
    Ok(())
}

fn copy_entries(alloc: Global, entries: &[Marked]) -> Result<Vec<Marked>, AllocError>
    ensures { IfOk result (λ c. c.items ≡ entries.now) }
{
    let mut copies = Vec::with_capacity(alloc, entries.len())?;
    for entry in entries {
        copies.push(entry.copy(alloc)?)?;
    }
    Ok(copies)
}
