//! The laws of faults, each as a function that a layer above can call.
ghost use Rattle.type_taxonomy.specs.Laws.{HasNoFault, HasNoInverseFault};

/// A taxonomy has no fault, so `build` answers a fault exactly where there is one, want of memory
/// aside.
pub fn has_no_fault()
    ensures { HasNoFault }
{}

/// Right inverses have no fault, so `inverses` answers a fault exactly where there is one.
pub fn has_no_inverse_fault()
    ensures { HasNoInverseFault }
{}
