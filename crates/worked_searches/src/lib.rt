//! Tests of searches on one thread: the first node, the best that is handed in, nogoods taken and
//! given, and solvers alone.
#![tactic(auto)]

#[cfg(test)]
mod idle;
#[cfg(test)]
mod searchers;
#[cfg(test)]
mod solvers;
#[cfg(test)]
mod wanted;
