//! Names in their order, for looking one up and for telling whether one came before.
ghost use Rattle.std.specs.Prelude.{◌≡◌, [], ◌∷◌, ◌++◌, not, IfOk, OnErr, if◌then◌else◌};
ghost use Rattle.std.specs.List.{list_any, position};
ghost use Rattle.prod_model.specs.Names.{same_text};

use indexmap::IndexSet;
use std::alloc::{AllocError, Global};
use std::marker::Model;

/// Names in the order in which they came, each once, seen as the list of them. To put one in or to
/// look one up takes the time of hashing it.
#[derive(Drop)]
pub struct Names<'n> {
    texts: IndexSet<&'n [u8]>,
}

impl<'n> Model for Names<'n> {
    ghost use Rattle.std.specs.Prelude.{List, ℕ, map};

    ghost Value = { List (List ℕ) };

    ghost view = { λ n. map (λ t. t.now) n.texts.keys };
}

impl<'n> Names<'n> {
    pub fn new(alloc: Global) -> Names<'n>
        ensures { result ≡ [] }
    {
        Names {
            texts: IndexSet::new(alloc),
        }
    }

    /// Puts the name last and returns `true`. The names stay where it is among them already, which
    /// returns `false`, and where memory runs out, which is an `Err`.
    #[tactic(auto, using(crate::proofs::NameLaws::searching))]
    pub fn insert(&mut self, name: &'n [u8]) -> Result<bool, AllocError>
        ensures added { IfOk result
            (λ added. added ≡ not (list_any (same_text name.now) self.old)) }
        ensures names { IfOk result
            (λ added. self.new ≡ (if added then self.old ++ name.now ∷ [] else self.old)) }
        ensures unchanged { OnErr result (self.new ≡ self.old) }
    {
        let Ok(added) = self.texts.insert(name) else {
            return Err(AllocError);
        };
        Ok(added)
    }

    /// Whether the name is among them.
    pub fn contains(&self, name: &[u8]) -> bool
        ensures { result ≡ list_any (λ n. same_text n name.now) self.now }
    {
        self.texts.contains(name)
    }

    /// The place of a name, counted from 0.
    pub fn place_of(&self, name: &[u8]) -> Option<usize>
        ensures { result ≡ position (λ n. same_text n name.now) self.now }
    {
        self.texts.get_index_of(name)
    }
}
