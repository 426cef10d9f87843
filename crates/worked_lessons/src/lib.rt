//! Tests of learning: what failures of a worked rack teach.
#![tactic(auto)]

#[cfg(test)]
mod lessons;
