//! Branches of worked states, and what rules are there, worked out by hand.
#![tactic(auto)]

#[cfg(test)]
mod truths;
#[cfg(test)]
mod walks;
