//! Sets of instances, by their numbers.
#![tactic(auto)]

mod set;
#[cfg(test)]
mod tests;

pub use set::InstanceSet;
