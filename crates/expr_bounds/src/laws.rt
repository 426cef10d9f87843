//! The laws of bounds and faults, as functions that a layer above can call.
ghost use Rattle.expr_bounds.specs.Laws.{BoundedHasNoFault, FaultlessIsBounded};

/// An expression that has bounds at a type and nests at most 16 deep has no fault there.
pub fn bounded_has_no_fault()
    ensures { BoundedHasNoFault }
{}

/// An expression of the language that has no fault at a type has bounds there, and nests at most 16
/// deep.
pub fn faultless_is_bounded()
    ensures { FaultlessIsBounded }
{}
