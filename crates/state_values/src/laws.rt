//! The laws of what numbers and truths can be in a state, each as a function that a layer above can
//! call.
ghost use Rattle.state_values.specs.Laws.{SeenHolds, LowHolds, HighHolds, TruthHolds, FalsehoodHolds, LowestValueHolds, LowestHolds};

/// What is seen of an expression fits its value in each shaped configuration that has the literals
/// which the ends and the truth have read.
pub fn seen_holds()
    ensures { SeenHolds }
{}

/// Where what the low has read holds, a number is no less than it.
pub fn low_holds()
    ensures { LowHolds }
{}

/// Where what the high has read holds, a number is no more than it.
pub fn high_holds()
    ensures { HighHolds }
{}

/// Where what a truth has read holds and it is true, it is so.
pub fn truth_holds()
    ensures { TruthHolds }
{}

/// Where what a truth has read holds and it is false, it is so.
pub fn falsehood_holds()
    ensures { FalsehoodHolds }
{}

/// Where what a criterion's lowest value has read holds, what the criterion adds to the rank is no
/// less than it.
pub fn lowest_value_holds()
    ensures { LowestValueHolds }
{}

/// Where what all lowest values have read holds, the lowest vector is never after the rank.
pub fn lowest_holds()
    ensures { LowestHolds }
{}
