//! Sets of the values that are still possible, and what narrowing them does.
#![tactic(auto)]

mod change;
mod int_domain;
mod interval;
#[cfg(test)]
mod number_tests;
#[cfg(test)]
mod tests;
mod word_domain;

pub use change::Change;
pub use int_domain::IntDomain;
pub use interval::Interval;
pub use word_domain::WordDomain;
