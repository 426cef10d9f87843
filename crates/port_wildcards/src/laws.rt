//! The laws of what a port allows, each as a function that a layer above can call.
ghost use Rattle.port_wildcards.specs.Allowed.{AllowedSentences, WholeAllowsOne};

/// Links are allowed exactly where they have what is required, lie within what is possible, and as
/// many of them are later ones as the bounds allow.
pub fn allowed_sentences()
    ensures { AllowedSentences }
{}

/// A port with nothing left open allows the links to what is required, and no others.
pub fn whole_allows_one()
    ensures { WholeAllowsOne }
{}
