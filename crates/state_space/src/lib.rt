//! What a partial state of a product is, which configurations it covers, what it entails, and the
//! laws of narrowing it. It has definitions and laws alone, and no data structure.
#![tactic(auto)]

pub mod laws;
