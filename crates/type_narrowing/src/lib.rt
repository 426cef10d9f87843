//! Narrowing by what costs little: an instance of one possible type to what that type has, and its
//! ports to the instances that are left.
#![tactic(auto)]

mod instances;
mod narrowing;
mod ports;
mod reasons;
mod values;

pub use narrowing::TypeNarrowing;
