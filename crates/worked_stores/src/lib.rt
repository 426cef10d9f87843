//! Tests of stores of nogoods: what they take, find and watch.
#![tactic(auto)]

#[cfg(test)]
mod stores;
