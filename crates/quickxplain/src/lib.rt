//! The preferred conflict of ordered requests, for any test that tells which sets of them are
//! consistent.
#![tactic(auto)]

mod explaining;
mod halving;
mod tester;
#[cfg(test)]
mod tests;

pub use explaining::{Explained, explain};
pub use tester::Tester;
