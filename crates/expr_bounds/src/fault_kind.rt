//! The kinds of fault.
ghost use Rattle.std.specs.Prelude.{◌≡◌};
ghost use Rattle.expr_bounds.specs.steps.Search.{fault_of};

use crate::fault::ExprFault;
use prod_model::Items;

/// The kinds of fault, in the order in which they are told.
#[derive(Clone, Copy)]
pub(crate) enum FaultKind {
    Deep,
    UnknownName,
    WrongKind,
    Wide,
}

impl FaultKind {
    pub(crate) fn fault_at(self, path: Items<u32>) -> ExprFault
        ensures { result ≡ fault_of self path }
    {
        match self {
            FaultKind::Deep => ExprFault::Deep(path),
            FaultKind::UnknownName => ExprFault::UnknownName(path),
            FaultKind::WrongKind => ExprFault::WrongKind(path),
            FaultKind::Wide => ExprFault::Wide(path),
        }
    }
}
