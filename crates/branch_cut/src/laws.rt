//! The laws of choices between two literals, each as a function that a layer above can call.
ghost use Rattle.branch_cut.specs.Laws.{KindsBranch, ValuesBranch, LinksBranch, LaterBranch, OwedBranch, StuckCoversNone};

/// An instance that may be of two types is of the first one or not.
pub fn kinds_branch()
    ensures { KindsBranch }
{}

/// A value is up to a number below the greatest one, or above it.
pub fn values_branch()
    ensures { ValuesBranch }
{}

/// A possible link that is not required is there or not.
pub fn links_branch()
    ensures { LinksBranch }
{}

/// Of the links to later instances there are more than a number between the bounds, or not.
pub fn later_branch()
    ensures { LaterBranch }
{}

/// Where an instance has to be made and one is left, the next one is made, or the first open port
/// links no later one.
pub fn owed_branch()
    ensures { OwedBranch }
{}

/// No covered configuration of a stuck state satisfies the model.
pub fn stuck_covers_none()
    ensures { StuckCoversNone }
{}
