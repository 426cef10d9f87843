//! What a node comes to.

use branch_cut::Branch;
use config_value::Configuration;
use literal_book::Nogood;

/// What is below an open branch.
#[derive(Drop)]
pub(crate) enum Found {
    /// Nothing that beats the best so far.
    Ended,
    /// Nothing that beats the best so far, and a nogood says why.
    Learnt(Nogood),
    /// One configuration that is sought, which beats the best so far.
    Better(Configuration),
    /// All that is sought, under one of two literals.
    Split(Branch),
}
