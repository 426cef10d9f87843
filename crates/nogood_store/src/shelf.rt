//! Nogoods beside the literals at which they are watched.
ghost use Rattle.std.specs.Prelude.{◌≡◌, ◌<◌, ◌≤◌, ◌↔◌, ℕ, IsTrue, IfSome, IfOk, OnOk, OnErr, Some, [], length, false, slice_get, option_copied, ◌+◌, ◌++◌, ◌∷◌};
ghost use Rattle.base_laws.specs.Places.{IsAt};
ghost use Rattle.state_space.specs.Entails.{entails as entails_of};
ghost use Rattle.nogood_store.specs.declared.watched.Watched.{Watched as w};
ghost use Rattle.nogood_store.specs.declared.shelf.Shelf.{Shelf as shelf};
ghost use Rattle.std.specs.Option.{option_map_or};
ghost use Rattle.nogood_store.specs.Stores.{AppliesAt, IsFirstApplying, IsWatched, most_literals, most_nogoods};
ghost use Rattle.nogood_store.specs.steps.Watchers.{KeepsAhead, KeepsWatches, Stands};
ghost use Rattle.nogood_store.specs.steps.Shelves.{CanMove, IsAtMost, IsFound, IsLooked, IsSearching, IsSeen, IsShelf, KeepsShelf, FromRow, FromPlace, nogoods_of};

use crate::watched::{Watched, applies};
use crate::watchers::Watchers;
use literal_book::{Literal, Nogood};
use reason_trail::Trail;
use std::alloc::{AllocError, Global};

/// Nogoods, each with its watched literals. Each that has literals stands in the row of one of
/// them, so that a search visits only the rows whose literals are entailed: it tests each distinct
/// watched literal once, and the other literals only of the nogoods in these rows.
#[derive(Drop)]
pub(crate) struct Shelf {
    pub(crate) nogoods: Vec<Watched>,
    watchers: Watchers,
    /// The numbers of the nogoods without literals.
    bare: Vec<u32>,
    pub(crate) looked: u64,
}

/// What is seen of a nogood in a state.
enum Seen {
    /// It doesn't apply, for a request or a watched literal.
    PassedOver,
    Applying,
    /// The literal at the place is not entailed.
    Open(u32),
}

/// Looks at a nogood in the state of the trail.
fn see(watched: &Watched, trail: &Trail, keep: &[bool]) -> Seen
    requires watched { IsWatched watched.now.nogood watched.now.watch }
    requires short { length watched.now.nogood.literals ≤ most_literals }
    ensures { IsSeen trail.now.job.model keep.now trail.now.state watched.now result }
{
    if !watched.is_reached(trail, keep) {
        return Seen::PassedOver;
    }
    match watched.first_open(trail) {
        Some(place) => Seen::Open(place),
        None => Seen::Applying,
    }
}

/// Whether a number that was found is no greater.
fn is_at_most(least: Option<u32>, n: u32) -> bool
    ensures { IsTrue result ↔ IsAtMost least n }
{
    match least {
        Some(k) => k <= n,
        None => false,
    }
}

fn literal_at(watched: &Watched, place: u32) -> Option<Literal>
    ensures { result ≡ slice_get watched.now.nogood.literals place }
{
    watched
        .nogood
        .literals
        .as_slice()
        .get(place as usize)
        .copied()
}

/// Makes room for a watch at each of the literals.
fn make_rooms(watchers: &mut Watchers, literals: &[Literal]) -> Result<(), AllocError>
    ensures { KeepsWatches watchers.old watchers.new }
{
    for l in literals {
        watchers.make_room(*l)?;
    }
    Ok(())
}

impl Shelf {
    pub(crate) fn new(alloc: Global) -> Shelf
        ensures nogoods { result.nogoods.items ≡ [] }
        ensures looked { result.looked ≡ 0 }
    {
        Shelf {
            nogoods: Vec::new(alloc),
            watchers: Watchers::new(alloc),
            bare: Vec::new(alloc),
            looked: 0,
        }
    }

    fn watched(&self, n: u32) -> Option<&Watched>
        ensures { option_copied result ≡ slice_get self.now.nogoods.items n }
    {
        self.nogoods.get(n as usize)
    }

    /// Takes a nogood, as its last, watched at its first literals. After `AllocError` the nogoods
    /// are as they were.
    pub(crate) fn add(&mut self, n: Nogood) -> Result<(), AllocError>
        requires shelf { IsShelf self.old }
        requires short { length n.literals ≤ most_literals }
        requires few { length self.old.nogoods.items < most_nogoods }
        ensures shelf { IsShelf self.new }
        ensures added { OnOk result (nogoods_of self.new ≡ nogoods_of self.old ++ n ∷ []) }
        ensures unchanged { OnErr result (self.new.nogoods.items ≡ self.old.nogoods.items) }
        ensures looked { self.new.looked ≡ self.old.looked }
    {
        let k = self.nogoods.len() as u32;
        make_rooms(&mut self.watchers, n.literals.as_slice())?;
        self.place(k, n.literals.as_slice())?;
        self.nogoods.push(Watched::new(n))?;
        Ok(())
    }

    /// Watches a nogood at its first literal. One without literals has its number among the bare
    /// ones.
    fn place(&mut self, k: u32, literals: &[Literal]) -> Result<(), AllocError>
        ensures nogoods { self.new.nogoods ≡ self.old.nogoods }
        ensures looked { self.new.looked ≡ self.old.looked }
        ensures kept { KeepsWatches self.old.watchers self.new.watchers }
        ensures bare { (i p : ℕ) → IsAt self.old.bare.items i p → IsAt self.new.bare.items i p }
        ensures placed { OnOk result (IsFound self.new k literals.now) }
    {
        match literals.first() {
            Some(l) => {
                if self.watchers.put(l, k) {
                    Ok(())
                } else {
                    Err(AllocError)
                }
            }
            None => {
                self.bare.push(k)?;
                Ok(())
            }
        }
    }

    /// Looks at what stands at a place of a row, unless it is no less than the least number that
    /// was found. Where it applies it is the least; where one of its literals isn't entailed, its
    /// watch moves to the row of that.
    fn look(
        &mut self,
        k: usize,
        at: usize,
        trail: &Trail,
        keep: &[bool],
        least: Option<u32>,
    ) -> Option<u32>
        requires { IsShelf self.old }
        ensures { IsLooked trail.now.job.model keep.now trail.now.state k at self.old self.new
            least result }
    {
        let Some(n) = self.watchers.number(k, at) else {
            return least;
        };
        if is_at_most(least, n) {
            return least;
        }
        let Some(watched) = self.watched(n) else {
            return least;
        };
        match see(watched, trail, keep) {
            Seen::PassedOver => least,
            Seen::Applying => {
                self.count(n);
                Some(n)
            }
            Seen::Open(place) => {
                self.count(n);
                self.shift(k, at, n, place);
                least
            }
        }
    }

    /// Counts a look at the other literals of a nogood, if it has others.
    fn count(&mut self, n: u32)
        ensures looked { self.old.looked ≤ self.new.looked }
        ensures nogoods { self.new.nogoods ≡ self.old.nogoods }
        ensures watchers { self.new.watchers ≡ self.old.watchers }
        ensures bare { self.new.bare ≡ self.old.bare }
    {
        let Some(watched) = self.nogoods.get(n as usize) else {
            return;
        };
        if watched.has_others() {
            self.looked = self.looked.saturating_add(1);
        }
    }

    /// Moves the watch that stands at a place of a row to another literal of the nogood.
    fn shift(&mut self, k: usize, at: usize, n: u32, place: u32)
        requires shelf { IsShelf self.old }
        requires there { Stands self.old.watchers.rows.items k at n }
        requires movable { (x : w) → IsAt self.old.nogoods.items n x → CanMove x place }
        ensures kept { KeepsShelf self.old self.new }
        ensures ahead { KeepsAhead k at self.old.watchers.rows.items
            self.new.watchers.rows.items }
    {
        let Some(watched) = self.nogoods.get_mut(n as usize) else {
            return;
        };
        let Some(l) = literal_at(watched, place) else {
            return;
        };
        if self.watchers.shift(k, at, &l) {
            watched.watch_at(place);
        }
    }

    /// The number of the first nogood that applies to the state of the trail. Only the numbers that
    /// stand in rows of entailed literals are looked at, and of these the ones below the least that
    /// was found. It takes no memory.
    pub(crate) fn find(&mut self, trail: &Trail, keep: &[bool]) -> Option<u32>
        requires { IsShelf self.old }
        ensures first { IsFirstApplying trail.now.job.model keep.now trail.now.state
            (nogoods_of self.old) result }
        ensures kept { KeepsShelf self.old self.new }
    {
        let mut least = self.least_bare(trail, keep);
        for k in 0..self.watchers.count() {
            least = self.search_row(k, trail, keep, least);
        }
        least
    }

    /// Looks at the places of a row, from the last on, so that what takes the place of one that
    /// leaves the row has been looked at.
    fn search_row(
        &mut self,
        k: usize,
        trail: &Trail,
        keep: &[bool],
        least: Option<u32>,
    ) -> Option<u32>
        requires { IsShelf self.old }
        ensures searched { (s : shelf) → IsSearching trail.now.job.model keep.now trail.now.state s self.old
            (FromRow k) least
            → IsSearching trail.now.job.model keep.now trail.now.state s self.new
            (FromRow (k + 1)) result }
        ensures kept { KeepsShelf self.old self.new }
    {
        let mut least = least;
        let mut at = self.watchers.row_len(k);
        if at > 0 && !self.is_awake(k, trail) {
            return least;
        }
        while at > 0 {
            at -= 1;
            least = self.look(k, at, trail, keep, least);
        }
        least
    }

    /// Whether the literal of a row is entailed.
    fn is_awake(&self, k: usize, trail: &Trail) -> bool
        ensures { result ≡ option_map_or (entails_of trail.now.job.model trail.now.state)
            (slice_get self.now.watchers.literals.keys k) false }
    {
        match self.watchers.literal(k) {
            Some(l) => trail.entails(l),
            None => false,
        }
    }

    /// The least number of a nogood without literals that applies.
    fn least_bare(&self, trail: &Trail, keep: &[bool]) -> Option<u32>
        ensures found { IfSome result (AppliesAt trail.now.job.model keep.now trail.now.state
            (nogoods_of self.now)) }
        ensures low { (p i : ℕ) → IsAt self.now.bare.items i p
            → AppliesAt trail.now.job.model keep.now trail.now.state (nogoods_of self.now) p
            → IsAtMost result p }
    {
        let mut least = None;
        for i in 0..self.bare.len() {
            least = self.lesser(least, self.bare[i], trail, keep);
        }
        least
    }

    /// The number, if it is less than the least that was found, and applies; else that.
    fn lesser(&self, least: Option<u32>, n: u32, trail: &Trail, keep: &[bool]) -> Option<u32>
        ensures found { IfSome least (AppliesAt trail.now.job.model keep.now trail.now.state
            (nogoods_of self.now))
            → IfSome result (AppliesAt trail.now.job.model keep.now trail.now.state
            (nogoods_of self.now)) }
        ensures lower { (p : ℕ) → IsAtMost least p → IsAtMost result p }
        ensures here { AppliesAt trail.now.job.model keep.now trail.now.state
            (nogoods_of self.now) n → IsAtMost result n }
    {
        if is_at_most(least, n) {
            return least;
        }
        if self.applies_at(n, trail, keep) {
            return Some(n);
        }
        least
    }

    fn applies_at(&self, n: u32, trail: &Trail, keep: &[bool]) -> bool
        ensures { IsTrue result
            ↔ AppliesAt trail.now.job.model keep.now trail.now.state (nogoods_of self.now) n }
    {
        match self.nogoods.get(n as usize) {
            Some(watched) => applies(trail, keep, &watched.nogood),
            None => false,
        }
    }
}
