//! One node as a whole: what is found below the last branch takes its place.
ghost use Rattle.std.specs.Prelude.{◌≡◌, ◌<◌, OnErr, OnOk, length};
ghost use Rattle.seq_search.specs.Advances.{IsNode};
ghost use Rattle.seq_search.specs.steps.Opens.{IsKept, search_of};

use crate::commit::commit;
use crate::node::explore;
use crate::open_branch::OpenBranch;
use config_value::Configuration;
use literal_book::{Nogood, Piece};
use nogood_store::Store;
use reason_trail::{Job, Propagate, Trail};
use std::alloc::{AllocError, Global};
use std::collections::VecDeque;

/// Expands one node: the branch that was left last goes, and at most two of less size take its
/// place. After `AllocError` the search is as it was.
pub(crate) fn expand<P: Propagate>(
    alloc: Global,
    trail: &mut Trail,
    props: &mut P,
    store: &mut Store,
    job: &Job,
    piece: &Piece,
    branches: &mut Vec<OpenBranch>,
    best: &mut Option<Configuration>,
    learnt: &mut VecDeque<Nogood>,
) -> Result<(), AllocError>
    requires job { trail.old.job ≡ job.now }
    requires some { 0 < length branches.old.items }
    requires kept { IsKept (P.job props.old) trail.old store.old piece.now branches.old.items
        best.old learnt.old.items }

    ensures kept { IsKept (P.job props.new) trail.new store.new piece.now branches.new.items
        best.new learnt.new.items }
    ensures node { OnOk result (IsNode P.settled
        (search_of trail.old store.old piece.now branches.old.items best.old learnt.old.items)
        (search_of trail.new store.new piece.now branches.new.items best.new learnt.new.items)) }
    ensures unchanged { OnErr result
        (search_of trail.new store.new piece.now branches.new.items best.new learnt.new.items
        ≡ search_of trail.old store.old piece.now branches.old.items best.old learnt.old.items) }
    ensures same_job { trail.new.job ≡ trail.old.job }
{
    let _right = trail.job();
    let taken = branches[branches.len() - 1];
    let found = explore(alloc, trail, props, store, job, piece, best, taken)?;
    let _state = trail.state();
    let end = trail.len();
    Ok(commit(alloc, branches, best, store, learnt, found, end)?)
}
