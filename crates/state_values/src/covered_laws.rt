//! The laws of what a state tells of the configurations that it covers, each as a function that a
//! layer above can call.
ghost use Rattle.state_values.specs.ReadsLaws.{ReadsAreEntailed, SeenHoldsCovered, LowestHoldsCovered};

/// What the ends of a number and a truth have read the state entails, where the expression stands
/// at a made instance all of whose possible types are under its own.
pub fn reads_are_entailed()
    ensures { ReadsAreEntailed }
{}

/// What is seen of an expression there holds in each shaped configuration that the state covers.
pub fn seen_holds_covered()
    ensures { SeenHoldsCovered }
{}

/// The lowest vector is never after the rank of a shaped configuration that the state covers.
pub fn lowest_holds_covered()
    ensures { LowestHoldsCovered }
{}
