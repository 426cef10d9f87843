//! Names and words.
ghost use Rattle.std.specs.Prelude.{◌≡◌, ◌<◌, ◌≤◌, length, IfOk};

use crate::copies::copy_slice;
use sqlite_items::Items;
use std::alloc::{AllocError, Global};
use std::marker::Model;

/// A name or a word, seen as the list of its bytes. In a valid model it has 1 to 32 bytes. A name
/// is an ASCII letter and then letters, digits, `_` or `-`. A word is any letters, digits, `_`, `-`
/// or `.`.
#[derive(Debug, Drop)]
pub struct Name {
    text: Vec<u8>,
}

impl Model for Name {
    ghost use Rattle.std.specs.Prelude.{List, ℕ};

    ghost Value = { List ℕ };

    ghost view = { λ n. n.text.items };
}

impl Name {
    /// The name of these bytes, whose form isn't tested. `AllocError` where memory runs out.
    pub fn from_bytes(alloc: Global, bytes: &[u8]) -> Result<Name, AllocError>
        requires some { 1 ≤ length bytes.now }
        requires short { length bytes.now ≤ 32 }
        ensures { IfOk result (λ n. n ≡ bytes.now) }
    {
        let text = Vec::from_slice(alloc, bytes)?;
        Ok(Name { text })
    }

    /// The bytes of the name.
    pub fn bytes(&self) -> &[u8]
        ensures { result.now ≡ self.now }
    {
        self.text.as_slice()
    }

    /// A name of the same bytes. `AllocError` where memory runs out.
    pub fn copy(&self, alloc: Global) -> Result<Name, AllocError>
        ensures { IfOk result (λ n. n ≡ self.now) }
    {
        let text = Vec::from_slice(alloc, self.text.as_slice())?;
        Ok(Name { text })
    }

    /// Names of the same bytes, in the same order. `AllocError` where memory runs out.
    pub fn copy_all(alloc: Global, names: &[Name]) -> Result<Items<Name>, AllocError>
        ensures { IfOk result (λ c. c ≡ names.now) }
    {
        copy_slice(alloc, names)
    }
}
