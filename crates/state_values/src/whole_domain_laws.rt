//! The laws of states in which what only some possible types of an instance have is not narrowed,
//! each as a function that a layer above can call.
ghost use Rattle.state_values.specs.WholeDomains.{RootDomainsAreWhole, ChangeKeepsDomainsWhole};

/// In the root state each attribute that only some possible types have has its whole domain.
pub fn root_domains_are_whole()
    ensures { RootDomainsAreWhole }
{}

/// A change by any literal that fits keeps it so.
pub fn change_keeps_domains_whole()
    ensures { ChangeKeepsDomainsWhole }
{}
