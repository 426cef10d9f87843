//! Nogoods with the places at which they are watched.
ghost use Rattle.std.specs.Prelude.{◌≡◌, ◌≢◌, ◌≤◌, ◌<◌, ◌↔◌, ℕ, IsTrue, IsFalse, IfSome, length};
ghost use Rattle.std.specs.List.{list_all};
ghost use Rattle.literal_book.specs.Nogoods.{AreKept};
ghost use Rattle.state_space.specs.Entails.{entails as entails_of};
ghost use Rattle.nogood_store.specs.Stores.{Applies, IsWatched, most_literals};
ghost use Rattle.nogood_store.specs.steps.Watching.{AreWatchedEntailed, IsFirstOpen, first_watch};

use literal_book::{Literal, Nogood, are_kept};
use reason_trail::Trail;
use std::marker::Model;

/// The places of the two watched literals of a nogood; they are one where it has one literal.
#[derive(Clone, Copy)]
pub(crate) struct Watch {
    first: u32,
    second: u32,
}

impl Model for Watch {
    ghost use Rattle.std.specs.Prelude.{ℕ};

    ghost Value = { ℕ × ℕ };

    ghost view = { λ w. (w.first, w.second) };

    ghost inverse = { λ w. record { first = w.0; second = w.1 } };
}

impl Watch {
    pub(crate) fn places(self) -> (u32, u32)
        ensures { result ≡ self }
    {
        (self.first, self.second)
    }

    /// The first two of so many literals, the only one, or none.
    fn of_first(count: usize) -> Option<Watch>
        ensures { result ≡ first_watch count }
    {
        match count {
            0 => None,
            1 => Some(Watch {
                first: 0,
                second: 0,
            }),
            _ => Some(Watch {
                first: 0,
                second: 1,
            }),
        }
    }
}

/// A nogood and where it is watched, if it has literals.
#[derive(Drop)]
pub(crate) struct Watched {
    pub(crate) nogood: Nogood,
    pub(crate) watch: Option<Watch>,
}

impl Watched {
    /// The nogood, watched at its first literals.
    pub(crate) fn new(nogood: Nogood) -> Watched
        ensures nogood { result.nogood ≡ nogood }
        ensures watched { IsWatched nogood result.watch }
    {
        let watch = Watch::of_first(nogood.literals.len());
        Watched { nogood, watch }
    }

    /// Whether its requests are kept and its watched literals entailed.
    pub(crate) fn is_reached(&self, trail: &Trail, keep: &[bool]) -> bool
        requires { IsWatched self.now.nogood self.now.watch }
        ensures kept { IsTrue result → AreKept keep.now self.now.nogood.requests }
        ensures entailed { IsTrue result → AreWatchedEntailed trail.now.job.model trail.now.state
            self.now.nogood.literals self.now.watch }
        ensures passed_over { IsFalse result
            → ¬ Applies trail.now.job.model keep.now trail.now.state self.now.nogood }
    {
        are_kept(self.nogood.requests, keep) && self.are_watched_entailed(trail)
    }

    fn are_watched_entailed(&self, trail: &Trail) -> bool
        requires { IsWatched self.now.nogood self.now.watch }
        ensures { IsTrue result ↔ AreWatchedEntailed trail.now.job.model trail.now.state
            self.now.nogood.literals self.now.watch }
    {
        match self.watch {
            Some(watch) => {
                let literals = self.nogood.literals.as_slice();
                trail.entails(&literals[watch.first as usize])
                    && trail.entails(&literals[watch.second as usize])
            }
            None => true,
        }
    }

    /// Whether it has literals that aren't watched.
    pub(crate) fn has_others(&self) -> bool {
        self.nogood.literals.len() > 2
    }

    /// The place of its first literal that isn't entailed.
    pub(crate) fn first_open(&self, trail: &Trail) -> Option<u32>
        requires { length self.now.nogood.literals ≤ most_literals }
        ensures { IsFirstOpen trail.now.job.model trail.now.state self.now.nogood.literals result }
    {
        for (place, literal) in self.nogood.literals.as_slice().iter().enumerate() {
            if !trail.entails(literal) {
                return Some(place as u32);
            }
        }
        None
    }

    /// Moves its first watch to a place, if it is watched.
    pub(crate) fn watch_at(&mut self, place: u32)
        requires watched { IsWatched self.old.nogood self.old.watch }
        requires within { place < length self.old.nogood.literals }
        requires other { IfSome self.old.watch (λ w. place ≢ w.1) }
        ensures nogood { self.new.nogood ≡ self.old.nogood }
        ensures watched { IsWatched self.new.nogood self.new.watch }
    {
        if let Some(watch) = self.watch {
            self.watch = Some(Watch {
                first: place,
                second: watch.second,
            });
        }
    }
}

/// Whether in the state of the trail the nogood's requests are kept, and its literals entailed.
pub(crate) fn applies(trail: &Trail, keep: &[bool], n: &Nogood) -> bool
    ensures { IsTrue result ↔ Applies trail.now.job.model keep.now trail.now.state n.now }
{
    are_kept(n.requests, keep) && are_entailed(trail, n.literals.as_slice())
}

fn are_entailed(trail: &Trail, literals: &[Literal]) -> bool
    ensures { result ≡ list_all (entails_of trail.now.job.model trail.now.state) literals.now }
{
    literals.iter().all(|l| trail.entails(l))
}
