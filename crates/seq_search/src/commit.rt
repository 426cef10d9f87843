//! What is kept of a node. What may run out of memory comes first, so that after that all is as it
//! was.
ghost use Rattle.std.specs.Prelude.{◌≡◌, ◌<◌, ◌++◌, ◌∷◌, [], OnErr, OnOk, length};
ghost use Rattle.literal_book.specs.declared.nogood.Nogood.{Nogood};
ghost use Rattle.literal_book.specs.Nogoods.{IsSound};
ghost use Rattle.nogood_store.specs.Stores.{IsSearched};
ghost use Rattle.seq_search.specs.declared.found.Found.TheVariants.{Learnt};
ghost use Rattle.seq_search.specs.steps.Opens.{but_last};
ghost use Rattle.seq_search.specs.steps.Nodes.{IsLearnt, split_at, kept_after, best_after};

use crate::found::Found;
use crate::open_branch::OpenBranch;
use branch_cut::Branch;
use config_value::Configuration;
use literal_book::{Added, Nogood};
use nogood_store::Store;
use std::alloc::{AllocError, Global};
use std::collections::VecDeque;

/// Puts what was found below the last branch in its place. `end` is the length that the trail has
/// now. After `AllocError` nothing has changed.
pub(crate) fn commit(
    alloc: Global,
    branches: &mut Vec<OpenBranch>,
    best: &mut Option<Configuration>,
    store: &mut Store,
    learnt: &mut VecDeque<Nogood>,
    found: Found,
    end: u32,
) -> Result<(), AllocError>
    requires some { 0 < length branches.old.items }
    requires sound { (n : Nogood) → found ≡ Learnt n → IsSound store.old.model store.old.order n }

    ensures branches { OnOk result
        (branches.new.items ≡ but_last branches.old.items ++ kept_after end found) }
    ensures best { OnOk result (best.new ≡ best_after best.old found) }
    ensures learnt { OnOk result (IsLearnt store.old.model store.old.order store.old.nogoods
        store.new.nogoods learnt.old.items learnt.new.items) }

    ensures same_branches { OnErr result (branches.new.items ≡ branches.old.items) }
    ensures same_best { OnErr result (best.new ≡ best.old) }
    ensures same_store { OnErr result (store.new ≡ store.old) }
    ensures same_learnt { OnErr result (learnt.new.items ≡ learnt.old.items) }

    ensures model { store.new.model ≡ store.old.model }
    ensures order { store.new.order ≡ store.old.order }
{
    match found {
        Found::Ended => {
            branches.pop();
            Ok(())
        }
        Found::Learnt(nogood) => {
            hold(alloc, store, learnt, nogood)?;
            branches.pop();
            Ok(())
        }
        Found::Better(c) => {
            branches.pop();
            *best = Some(c);
            Ok(())
        }
        Found::Split(branch) => Ok(split(branches, branch, end)?),
    }
}

/// Holds a nogood that was learnt, to be given out too, unless it is too long or no more can be
/// held.
fn hold(
    alloc: Global,
    store: &mut Store,
    learnt: &mut VecDeque<Nogood>,
    nogood: Nogood,
) -> Result<(), AllocError>
    requires { IsSound store.old.model store.old.order nogood }
    ensures learnt { OnOk result (IsLearnt store.old.model store.old.order store.old.nogoods
        store.new.nogoods learnt.old.items learnt.new.items) }
    ensures same_store { OnErr result (store.new ≡ store.old) }
    ensures same_learnt { OnErr result (learnt.new.items ≡ learnt.old.items) }
    ensures model { store.new.model ≡ store.old.model }
    ensures order { store.new.order ≡ store.old.order }
{
    let copy = nogood.copy(alloc)?;
    learnt.reserve(1)?;
    match store.add(nogood)? {
        Added::Added => {
            learnt.push_back_reserved(copy);
            Ok(())
        }
        Added::Full => Ok(()),
        Added::TooLong => Ok(()),
    }
}

/// Puts the two ways on in the place of the last branch. The first is taken next.
fn split(branches: &mut Vec<OpenBranch>, branch: Branch, end: u32) -> Result<(), AllocError>
    requires { 0 < length branches.old.items }
    ensures branches { OnOk result
        (branches.new.items ≡ but_last branches.old.items ++ split_at end branch) }
    ensures same_branches { OnErr result (branches.new.items ≡ branches.old.items) }
{
    let last = branches.len() - 1;
    branches.push(OpenBranch {
        len: end,
        literal: Some(branch.first),
    })?;
    branches[last] = OpenBranch {
        len: end,
        literal: Some(branch.second),
    };
    Ok(())
}
