//! Tests of searches' trails: jobs, what is assumed and derived, going back, and descriptions.
#![tactic(auto)]

#[cfg(test)]
mod descriptions;
#[cfg(test)]
mod same;
#[cfg(test)]
mod trails;
