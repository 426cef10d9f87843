//! The laws of jobs and trails, each as a function that a layer above can call.
ghost use Rattle.reason_trail.specs.Assumptions.{AssumedIsCovered, AssumedIsNogood};
ghost use Rattle.reason_trail.specs.Joined.{HereIsWrittenOut};
ghost use Rattle.reason_trail.specs.Jobs.{BestIsFirstWanted};

/// Unless any will do, the best is the first that is wanted in rank order.
pub fn best_is_first_wanted()
    ensures { BestIsFirstWanted }
{}

/// What satisfies the model, has what was assumed and is spoken of by each reason is covered.
pub fn assumed_is_covered()
    ensures { AssumedIsCovered }
{}

/// Where neither the reason of a failure nor one on the trail names the cut, the assumed literals
/// alone make a sound nogood of all requests that the reasons ask for.
pub fn assumed_is_nogood()
    ensures { AssumedIsNogood }
{}

/// What all that a state says supports, its joined descriptions support.
pub fn here_is_written_out()
    ensures { HereIsWrittenOut }
{}
