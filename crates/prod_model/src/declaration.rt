//! Declarations of attributes and of ports, seen alike.
ghost use Rattle.std.specs.Prelude.{◌≡◌, ℕ, List};
ghost use Rattle.prod_model.specs.declared.model.TypeDecl.{TypeDecl};

use crate::model::{AttrDecl, PortDecl, TypeDecl};
use crate::name::Name;

/// A declaration of an attribute or of a port.
pub trait Declaration {
    ghost declared: { TypeDecl → List Self };

    ghost name_of: { Self → List ℕ };

    /// Those of a type, in file order.
    fn all_of(kind: &TypeDecl) -> &[Self]
        ensures { result.now ≡ declared kind.now };

    /// What it is named.
    fn name(&self) -> &Name
        ensures { result.now ≡ name_of self.now };
}

impl Declaration for AttrDecl {
    ghost declared = { λ kind. kind.attributes };

    ghost name_of = { λ d. d.name };

    fn all_of(kind: &TypeDecl) -> &[AttrDecl] {
        kind.attributes.as_slice()
    }

    fn name(&self) -> &Name {
        &self.name
    }
}

impl Declaration for PortDecl {
    ghost declared = { λ kind. kind.ports };

    ghost name_of = { λ d. d.name };

    fn all_of(kind: &TypeDecl) -> &[PortDecl] {
        kind.ports.as_slice()
    }

    fn name(&self) -> &Name {
        &self.name
    }
}
