//! A store of nogoods.
ghost use Rattle.std.specs.Prelude.{◌≡◌, ◌<◌, length, IfOk, OnErr};
ghost use Rattle.base_laws.specs.Places.{IsAt};
ghost use Rattle.literal_book.specs.Nogoods.{IsSound};
ghost use Rattle.nogood_store.specs.Stores.{IsStore, IsFirstApplying, IsAdded, IsSearched, empty};

use crate::shelf::Shelf;
use crate::watched::applies;
use literal_book::{Added, Nogood};
use prod_model::{Order, Problem};
use reason_trail::Trail;
use std::alloc::{AllocError, Global};
use std::marker::Model;

const MOST_NOGOODS: usize = 20_000;

const MOST_LITERALS: usize = 32;

/// A store of up to 20,000 nogoods of up to 32 literals, in the order in which they were added, all
/// sound for its problem and order.
#[derive(Drop)]
pub struct Store {
    problem: Problem,
    order: Order,
    shelf: Shelf,
}

impl Model for Store {
    ghost use Rattle.nogood_store.specs.Stores.{Held};
    ghost use Rattle.prod_model.specs.contracts.expr.Expr as e;
    ghost use Rattle.std.specs.Coded.{codes};

    ghost Value = { Held };

    ghost coded = { Prim.hlevel (codes, e.the_row.coded) };

    ghost use Rattle.nogood_store.specs.steps.Stored.{stored, IsStored};

    ghost view = { λ s. stored s.problem s.order s.shelf };

    ghost invariant = { λ s. IsStored s.problem s.order s.shelf };
}

impl Store {
    /// A store without nogoods. It keeps copies of the problem and the order. `AllocError` where
    /// memory runs out.
    pub fn new(alloc: Global, problem: &Problem, order: &Order) -> Result<Store, AllocError>
        ensures { IfOk result (λ s. s ≡ empty problem.now order.now) }
    {
        Ok(Store {
            problem: problem.copy(alloc)?,
            order: order.copy(alloc)?,
            shelf: Shelf::new(alloc),
        })
    }

    /// How many nogoods it holds.
    pub fn len(&self) -> u32
        ensures length { result ≡ length self.now.nogoods }
        ensures right { IsStore self.now }
    {
        self.shelf.nogoods.len() as u32
    }

    /// The nogood of a number, from 0 in the order in which they were added.
    pub fn get(&self, n: u32) -> &Nogood
        requires { n < length self.now.nogoods }
        ensures there { IsAt self.now.nogoods n result.now }
        ensures sound { IsSound self.now.model self.now.order result.now }
    {
        &self.shelf.nogoods[n as usize].nogood
    }

    /// Takes a sound nogood, as its last. `TooLong` where it has more than 32 literals, else `Full`
    /// where 20,000 are held; then, and after `AllocError`, the store is as it was. It makes the
    /// room that finding needs.
    pub fn add(&mut self, n: Nogood) -> Result<Added, AllocError>
        requires { IsSound self.old.model self.old.order n }
        ensures added { IfOk result (IsAdded self.old self.new n) }
        ensures unchanged { OnErr result (self.new ≡ self.old) }
    {
        if n.literals.len() > MOST_LITERALS {
            return Ok(Added::TooLong);
        }
        if self.shelf.nogoods.len() >= MOST_NOGOODS {
            return Ok(Added::Full);
        }
        self.shelf.add(n)?;
        Ok(Added::Added)
    }

    /// The number of the first nogood that applies to the state of the trail: its requests are
    /// kept, and its literals entailed. `keep` tells of the request at each place, and a request at
    /// no place is not kept. It looks at each nogood in turn, and takes no memory.
    pub fn scan(&self, trail: &Trail, keep: &[bool]) -> Option<u32>
        requires { trail.now.job.model ≡ self.now.model }
        ensures { IsFirstApplying self.now.model keep.now trail.now.state self.now.nogoods result }
    {
        for (k, watched) in self.shelf.nogoods.iter().enumerate() {
            if applies(trail, keep, &watched.nogood) {
                return Some(k as u32);
            }
        }
        None
    }

    /// The answer of `scan`, but most nogoods are passed over: of each it tests two watched
    /// literals (Moskewicz and others 2001), and the others only where both are entailed. Then a
    /// watch moves to a literal that isn't, if there is one. It keeps no tie to an earlier state:
    /// what is entailed may cease to be when an instance is made, and come back when the trail goes
    /// back. It takes no memory.
    pub fn find(&mut self, trail: &Trail, keep: &[bool]) -> Option<u32>
        requires { trail.now.job.model ≡ self.old.model }
        ensures first { IsFirstApplying self.old.model keep.now trail.now.state self.old.nogoods
            result }
        ensures searched { IsSearched self.old self.new }
    {
        self.shelf.find(trail, keep)
    }

    /// The places of the two watched literals in the nogood of a number; they are one where it has
    /// one literal. `None` where it has none.
    pub fn watched(&self, n: u32) -> Option<(u32, u32)>
        requires { n < length self.now.nogoods }
        ensures { IsAt self.now.watches n result }
    {
        self.shelf.nogoods[n as usize]
            .watch
            .map(|watch| watch.places())
    }

    /// How often `find` looked at the other literals of a nogood: once for each in each call; one
    /// that has no other literals is not counted. It stays at its greatest value.
    pub fn looked(&self) -> u64
        ensures { result ≡ self.now.looked }
    {
        self.shelf.looked
    }
}
