//! The law of what literals imply, as a function that a layer above can call.
ghost use Rattle.conflict_learn.specs.Implied.{ImpliedHolds};

/// What a literal implies holds wherever it does.
pub fn implied_holds()
    ensures { ImpliedHolds }
{}
