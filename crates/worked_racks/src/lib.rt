//! The ground of the tests of searches: jobs and trails of a worked rack, and a request that no
//! configuration meets, for which anything may be derived, learnt and stored.
#![tactic(auto)]

pub mod jobs;
pub mod literals;
pub mod racks;
pub mod reach;
