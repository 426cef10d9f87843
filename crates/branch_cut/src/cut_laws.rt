//! The laws of cutting by the best answer, each as a function that a layer above can call.
ghost use Rattle.branch_cut.specs.Cuts.{DemandedIsDead, TrailDomainsAreWhole};

/// Where the least rank and key of a state come after those of a configuration, no covered one that
/// satisfies the model beats it.
pub fn demanded_is_dead()
    ensures { DemandedIsDead }
{}

/// What only some types of an instance have keeps its whole domain along a trail.
pub fn trail_domains_are_whole()
    ensures { TrailDomainsAreWhole }
{}
