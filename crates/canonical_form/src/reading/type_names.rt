//! The names of types, for looking one up.
ghost use Rattle.std.specs.Prelude.{◌≡◌, ◌≤◌, length, map, IsTrue, IfOk};
ghost use Rattle.std.specs.List.{position};
ghost use Rattle.prod_model.specs.Names.{same_text, is_distinct};

use indexmap::IndexSet;
use prod_model::{Items, TypeDecl};
use std::alloc::{AllocError, Global};
use std::marker::Model;

/// The names of a model's types in file order, seen as the list of them.
#[derive(Drop)]
pub struct TypeNames<'n> {
    texts: IndexSet<&'n [u8]>,
}

impl<'n> Model for TypeNames<'n> {
    ghost use Rattle.std.specs.Prelude.{List, ℕ, map};

    ghost Value = { List (List ℕ) };

    ghost view = { λ n. map (λ t. t.now) n.texts.keys };
}

impl<'n> TypeNames<'n> {
    /// The names of these types.
    pub fn of(alloc: Global, types: &'n Items<TypeDecl>) -> Result<TypeNames<'n>, AllocError>
        requires { IsTrue (is_distinct (map (λ d. d.name) types.now)) }
        ensures { IfOk result (λ names. names ≡ map (λ d. d.name) types.now) }
    {
        Ok(TypeNames {
            texts: texts_of(alloc, types.as_slice())?,
        })
    }

    /// The number of the type that has the name.
    pub fn place_of(&self, name: &[u8]) -> Option<u32>
        requires { length self.now ≤ 128 }
        ensures { result ≡ position (λ n. same_text n name.now) self.now }
    {
        let place = self.texts.get_index_of(name)?;
        Some(place as u32)
    }
}

/// The names of these types, each put in once.
fn texts_of<'n>(alloc: Global, types: &'n [TypeDecl]) -> Result<IndexSet<&'n [u8]>, AllocError>
    requires { IsTrue (is_distinct (map (λ d. d.name) types.now)) }
    ensures { IfOk result (λ texts. map (λ t. t.now) texts.keys ≡ map (λ d. d.name) types.now) }
{
    let mut texts = IndexSet::new(alloc);
    for kind in types {
        texts.insert(kind.name.bytes())?;
    }
    Ok(texts)
}
