//! Worked models and answers, as the readers take them: verdicts, values of expressions and ranks,
//! worked out by hand.
#![tactic(auto)]

#[cfg(test)]
mod expressions;
#[cfg(test)]
mod largest;
pub mod models;
#[cfg(test)]
mod ranks;
pub mod satisfying;
#[cfg(test)]
mod verdicts;
