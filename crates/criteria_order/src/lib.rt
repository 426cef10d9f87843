//! The order on configurations by their criteria, and what finds the first of them.
#![tactic(auto)]

pub mod laws;
mod ranking;
mod solver;

pub use ranking::{criteria_values, rank_cmp};
pub use solver::Solver;
