//! The literals at which nogoods are watched.
ghost use Rattle.std.specs.Prelude.{◌≡◌, ◌<◌, ℕ, IsTrue, IfSome, [], length, option_copied, slice_get};
ghost use Rattle.base_laws.specs.Places.{IsAt};
ghost use Rattle.nogood_store.specs.steps.Watchers.{IsWatchedAt, IsTakenOut, KeepsAhead, KeepsRows, KeepsWatches, MovesWatch, Stands, numbers_of};

use config_value::Literal;
use indexmap::IndexSet;
use std::alloc::{AllocError, Global};

/// The numbers of the nogoods that are watched at one literal, in any order.
#[derive(Drop)]
pub(crate) struct Row {
    numbers: Vec<u32>,
    /// In how many nogoods the literal stands. There is room for so many numbers, so that a watch
    /// can move here without memory.
    uses: usize,
}

/// For each literal at which nogoods are watched, the numbers of these nogoods. To find the row of
/// a literal takes the time of hashing it, and to move a watch constant time beside that. The
/// memory is that of the distinct literals, and four bytes for each literal of each nogood.
#[derive(Drop)]
pub(crate) struct Watchers {
    alloc: Global,
    literals: IndexSet<Literal>,
    /// At the place of each literal.
    rows: Vec<Row>,
}

impl Row {
    fn new(alloc: Global) -> Row
        ensures { result.numbers.items ≡ [] }
    {
        Row {
            numbers: Vec::new(alloc),
            uses: 0,
        }
    }

    /// Makes room for one more nogood.
    fn make_room(&mut self) -> Result<(), AllocError>
        ensures { self.new.numbers.items ≡ self.old.numbers.items }
    {
        let uses = self.uses.saturating_add(1);
        self.numbers
            .reserve(uses.saturating_sub(self.numbers.len()))?;
        self.uses = uses;
        Ok(())
    }
}

impl Watchers {
    /// No literals.
    pub(crate) fn new(alloc: Global) -> Watchers
        ensures { result.rows.items ≡ [] }
    {
        Watchers {
            alloc,
            literals: IndexSet::new(alloc),
            rows: Vec::new(alloc),
        }
    }

    /// Makes room for one more nogood that is watched at the literal. What is watched where stays,
    /// after `AllocError` too.
    pub(crate) fn make_room(&mut self, l: Literal) -> Result<(), AllocError>
        ensures { KeepsWatches self.old self.new }
    {
        let k = self.row_of(l)?;
        let Some(row) = self.rows.get_mut(k) else {
            return Err(AllocError);
        };
        row.make_room()
    }

    /// The row of a literal, which is last where there was none.
    fn row_of(&mut self, l: Literal) -> Result<usize, AllocError>
        ensures { KeepsWatches self.old self.new }
    {
        // The room for a new row is made first, so that each literal has one.
        self.rows.reserve(1)?;
        let Ok((k, new)) = self.literals.insert_full(l) else {
            return Err(AllocError);
        };
        if new {
            self.rows.push(Row::new(self.alloc))?;
        }
        Ok(k)
    }

    /// Watches a nogood at a literal, too. `false` where no room was made for that, and then it
    /// isn't watched there.
    pub(crate) fn put(&mut self, l: &Literal, n: u32) -> bool
        ensures kept { KeepsWatches self.old self.new }
        ensures put { IsTrue result → IsWatchedAt self.new l.now n }
    {
        let Some(k) = self.literals.get_index_of(l) else {
            return false;
        };
        put_in(&mut self.rows, k, n)
    }

    /// Moves the watch at a place of a row to the row of a literal. `false` where that is the same
    /// row, or no room was made in it; then the watch stays where it is. What stands before the
    /// place or in another row stays in its place.
    pub(crate) fn shift(&mut self, k: usize, at: usize, l: &Literal) -> bool
        ensures literals { self.new.literals ≡ self.old.literals }
        ensures ahead { KeepsAhead k at self.old.rows.items self.new.rows.items }
        ensures moved { MovesWatch k at l.now self.old self.new }
    {
        let Some(n) = self.number(k, at) else {
            return false;
        };
        let Some(t) = self.literals.get_index_of(l) else {
            return false;
        };
        if t == k || !put_in(&mut self.rows, t, n) {
            return false;
        }
        take_out(&mut self.rows, k, at);
        true
    }

    /// How many rows there are.
    pub(crate) fn count(&self) -> usize
        ensures { result ≡ length self.now.literals.keys }
    {
        self.literals.len()
    }

    /// The literal of a row.
    pub(crate) fn literal(&self, k: usize) -> Option<&Literal>
        ensures { option_copied result ≡ slice_get self.now.literals.keys k }
    {
        self.literals.get_index(k)
    }

    /// How many numbers a row has.
    pub(crate) fn row_len(&self, k: usize) -> usize
        ensures { result ≡ length (numbers_of self.now.rows.items k) }
    {
        match self.rows.get(k) {
            Some(row) => row.numbers.len(),
            None => 0,
        }
    }

    /// The number at a place of a row.
    pub(crate) fn number(&self, k: usize, at: usize) -> Option<u32>
        ensures { result ≡ slice_get (numbers_of self.now.rows.items k) at }
    {
        match self.rows.get(k) {
            Some(row) => row.numbers.get(at).copied(),
            None => None,
        }
    }
}

/// Puts a number last in a row. `false` where there is no such row or no memory.
fn put_in(rows: &mut Vec<Row>, k: usize, n: u32) -> bool
    ensures kept { KeepsRows rows.old.items rows.new.items }
    ensures put { IsTrue result → (at : ℕ) × Stands rows.new.items k at n }
{
    let Some(row) = rows.get_mut(k) else {
        return false;
    };
    row.numbers.push(n).is_ok()
}

/// Takes out what stands at a place of a row, and puts the row's last number there.
fn take_out(rows: &mut Vec<Row>, k: usize, at: usize)
    ensures { IsTakenOut k at rows.old.items rows.new.items }
{
    let Some(row) = rows.get_mut(k) else {
        return;
    };
    if at < row.numbers.len() {
        row.numbers.swap_remove(at);
    }
}
