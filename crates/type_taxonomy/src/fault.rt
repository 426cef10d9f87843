//! Why the types of a model are no taxonomy.
ghost use Rattle.std.specs.Prelude.{◌≡◌};
ghost use Rattle.type_taxonomy.specs.declared.fault.TaxFault.TheVariants.{Memory};

use std::alloc::AllocError;

/// The first fault of a model's types. Types, attributes and ports are counted from 0, in file
/// order.
#[derive(Clone, Copy, Debug, PartialEq, Eq)]
pub enum TaxFault {
    /// The parent of the type, or a target of one of its ports, is no type's number.
    UnknownParent { kind: u32 },
    /// The type is its own ancestor.
    Cycle { kind: u32 },
    /// The attribute, or the port, that the type declares at this place has the name of an
    /// inherited one and does not narrow it.
    Widening { kind: u32, port: bool, place: u32 },
    /// The type has more than 32 attributes or 16 ports, inherited ones included.
    Crowded { kind: u32 },
    /// Memory ran out.
    Memory,
}

impl From<AllocError> for TaxFault {
    ghost from_gives = { λ _ f. f ≡ Memory };

    fn from(_e: AllocError) -> TaxFault {
        TaxFault::Memory
    }
}
