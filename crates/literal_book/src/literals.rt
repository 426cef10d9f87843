//! Lists of literals.
ghost use Rattle.std.specs.Prelude.{◌≡◌, ◌∷◌, ◌++◌, [], length, IfOk, OnOk, OnErr};

use config_value::Literal;
use smallvec::SmallVec;
use std::alloc::{AllocError, Global};
use std::marker::Model;

/// Literals, in order, which contracts see as their list. Up to 8 stand in the value itself and take
/// no memory: most nogoods are short, and a copy of a short one is one block of 200 bytes. More
/// stand in an allocation, and a push takes constant time but for its growth.
#[derive(Drop)]
pub struct Literals {
    list: SmallVec<Literal, 8>,
}

impl Model for Literals {
    ghost use Rattle.std.specs.Prelude.{List};
    ghost use Rattle.config_value.specs.declared.literal.Literal.{Literal};

    ghost Value = { List Literal };

    ghost view = { λ l. l.list.items };
}

impl Literals {
    /// No literals.
    pub fn new(alloc: Global) -> Literals
        ensures { result ≡ [] }
    {
        Literals {
            list: SmallVec::new(alloc),
        }
    }

    /// These literals. `AllocError` where memory runs out.
    pub fn from_slice(alloc: Global, literals: &[Literal]) -> Result<Literals, AllocError>
        ensures { IfOk result (λ l. l ≡ literals.now) }
    {
        Ok(Literals {
            list: SmallVec::from_slice(alloc, literals)?,
        })
    }

    /// The literals, in order.
    pub fn as_slice(&self) -> &[Literal]
        ensures { result.now ≡ self.now }
    {
        self.list.as_slice()
    }

    /// How many there are.
    pub fn len(&self) -> usize
        ensures { result ≡ length self.now }
    {
        self.list.len()
    }

    /// Puts one behind the others. `AllocError` where memory runs out, and then nothing changes.
    pub fn push(&mut self, literal: Literal) -> Result<(), AllocError>
        ensures pushed { OnOk result (self.new ≡ self.old ++ literal ∷ []) }
        ensures unchanged { OnErr result (self.new ≡ self.old) }
    {
        self.list.push(literal)?;
        Ok(())
    }

    /// The same literals. `AllocError` where memory runs out.
    pub fn copy(&self, alloc: Global) -> Result<Literals, AllocError>
        ensures { IfOk result (λ l. l ≡ self.now) }
    {
        Literals::from_slice(alloc, self.as_slice())
    }
}
